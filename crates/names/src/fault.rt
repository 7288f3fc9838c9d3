//! Why a text is no name.

ghost use Rattle.std.specs.Prelude.{◌≡◌};
ghost use Rattle.names.specs.Faults.{code_of};

use thiserror::Error;

/// Why a text is no name of its kind. `Empty` and `TooLong` come first, then the first fault from
/// the left, then `TooFewElements`.
#[derive(Clone, Copy, Debug, PartialEq, Eq, Error)]
pub enum NameFault {
    #[error("the name is empty")]
    Empty,
    #[error("the name is longer than 255 bytes")]
    TooLong,
    /// The place of a byte that can't stand there; where the text ends too early, the text's
    /// length.
    #[error("byte {0} can't stand where it does, or is missing")]
    BadByte(usize),
    #[error("the name has too few elements")]
    TooFewElements,
    #[error("an element begins with a digit")]
    DigitFirst,
}

impl NameFault {
    /// The fault's number, 1 to 5 in the order above.
    pub fn code(self) -> u8
        ensures { result ≡ code_of self }
    {
        match self {
            NameFault::Empty => 1,
            NameFault::TooLong => 2,
            NameFault::BadByte(_) => 3,
            NameFault::TooFewElements => 4,
            NameFault::DigitFirst => 5,
        }
    }
}
