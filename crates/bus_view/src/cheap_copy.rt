//! Copies that take no memory.

ghost use Rattle.std.specs.Prelude.{◌≡◌};

/// What can be copied without taking memory.
pub trait CheapCopy {
    /// A copy.
    fn copy(&self) -> Self
        ensures { result ≡ self.now };
}

impl CheapCopy for () {
    fn copy(&self) -> () {}
}

impl<T: CheapCopy> CheapCopy for Option<T> {
    fn copy(&self) -> Option<T> {
        match self {
            Some(value) => Some(value.copy()),
            None => None,
        }
    }
}
