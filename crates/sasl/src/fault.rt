//! Why a conversation fails, or a keyring has no cookie.

ghost use Rattle.std.specs.Prelude.{◌≡◌};

use std::alloc::AllocError;
use std::fmt;
use thiserror::Error;

/// Why a conversation fails, or want of memory.
#[derive(Clone, Copy, Debug, PartialEq, Eq, Error)]
pub enum AuthenticationFault {
    #[error("the first byte is not zero")]
    FirstByte,
    #[error("BEGIN comes before the client is let in")]
    BeginEarly,
    #[error("a line is longer than 4096 bytes")]
    LineTooLong,
    #[error("the client was rejected six times")]
    Rejections,
    #[error("out of memory")]
    NoMemory,
}

impl AuthenticationFault {
    ghost use Rattle.sasl.specs.Faults.{fault_code};

    /// The number of the fault, from 31 to 35.
    pub fn code(self) -> u8
        ensures { result ≡ fault_code self }
    {
        match self {
            AuthenticationFault::FirstByte => 31,
            AuthenticationFault::BeginEarly => 32,
            AuthenticationFault::LineTooLong => 33,
            AuthenticationFault::Rejections => 34,
            AuthenticationFault::NoMemory => 35,
        }
    }
}

/// Why a keyring has no cookie, or want of memory.
#[derive(Clone, Copy, Debug, PartialEq, Eq, Error)]
pub enum KeyringFault {
    #[error("the keyring is empty")]
    Empty,
    /// The number of the first line that does not read, counted from 1.
    #[error("line {0} of the keyring is no cookie")]
    Line(usize),
    #[error("out of memory")]
    NoMemory,
}

impl KeyringFault {
    ghost use Rattle.sasl.specs.Faults.{keyring_code};

    /// The number of the fault, from 36 to 38, with the number of the line.
    pub fn code(self) -> KeyringCode
        ensures { result ≡ keyring_code self }
    {
        let (number, line) = match self {
            KeyringFault::Empty => (36, None),
            KeyringFault::Line(line) => (37, Some(line)),
            KeyringFault::NoMemory => (38, None),
        };
        KeyringCode { number, line }
    }
}

/// The numbers of a keyring's fault, shown as `36` or `37/3`.
#[derive(Clone, Copy, Debug, PartialEq, Eq)]
pub struct KeyringCode {
    pub number: u8,
    pub line: Option<usize>,
}

impl fmt::Display for KeyringCode {
    fn fmt<W: fmt::Write>(&self, f: &mut fmt::Formatter<W>) -> fmt::Result {
        match self.line {
            None => write!(f, "{}", self.number),
            Some(line) => write!(f, "{}/{}", self.number, line),
        }
    }
}

impl From<AllocError> for KeyringFault {
    ghost use Rattle.std.specs.Prelude.{◌≡◌};
    ghost use Rattle.sasl.specs.declared.fault.KeyringFault.TheVariants.{NoMemory};

    ghost from_gives = { λ _ e. e ≡ NoMemory };

    fn from(_e: AllocError) -> KeyringFault {
        KeyringFault::NoMemory
    }
}
