//! What is pushed.

ghost use Rattle.std.specs.Prelude.{◌≡◌};

/// Bytes that lie in one piece, be they one's own or shared.
pub trait Chunk {
    ghost use Rattle.std.specs.Prelude.{List, ℕ};

    /// The bytes.
    ghost bytes: { Self → List ℕ };

    /// The bytes themselves.
    fn as_slice(&self) -> &[u8]
        ensures { result.now ≡ bytes self.now };
}

impl Chunk for Vec<u8> {
    ghost bytes = { λ v. v.items };

    fn as_slice(&self) -> &[u8] {
        Vec::as_slice(self)
    }
}
