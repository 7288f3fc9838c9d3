//! Why bytes are no message.

ghost use Rattle.std.specs.Prelude.{◌≡◌};

use marshal_core::MarshalFault;
use std::alloc::{AllocError, AllocFailed};
use std::fmt;
use thiserror::Error;

/// What is wrong with a message, or want of memory ("Message Format" and "Header Fields" of the
/// D-Bus Specification).
#[derive(Clone, Copy, Debug, PartialEq, Eq, Error)]
pub enum FrameFault {
    #[error("the first byte is no byte order")]
    Order,
    #[error("the protocol version is not 1")]
    Version,
    #[error("the message type is 0")]
    Kind,
    #[error("the serial is 0")]
    Serial,
    /// The code of the field, or 0 where no code could be read.
    #[error("header field {0} is not as it must be")]
    Field(u8),
    /// The code of the field.
    #[error("header field {0} is missing")]
    Missing(u8),
    #[error("the message is too long")]
    TooLong,
    #[error("bytes follow the values of the body")]
    BodyLength,
    #[error("the body is not what its signature says: {0}")]
    Body(MarshalFault),
    #[error("out of memory")]
    NoMemory,
}

impl FrameFault {
    ghost use Rattle.message_core.specs.FaultCodes.{fault_code};

    /// The number of the fault, from 21 to 30, with the code of the header field or the number of
    /// the fault of the body.
    pub fn code(self) -> FaultCode
        ensures { result ≡ fault_code self }
    {
        let (number, detail) = match self {
            FrameFault::Order => (21, None),
            FrameFault::Version => (22, None),
            FrameFault::Kind => (23, None),
            FrameFault::Serial => (24, None),
            FrameFault::Field(code) => (25, Some(code)),
            FrameFault::Missing(code) => (26, Some(code)),
            FrameFault::TooLong => (27, None),
            FrameFault::BodyLength => (28, None),
            FrameFault::Body(fault) => (29, Some(fault.code())),
            FrameFault::NoMemory => (30, None),
        };
        FaultCode { number, detail }
    }
}

/// The numbers of a fault, shown as `28` or `25/9`.
#[derive(Clone, Copy, Debug, PartialEq, Eq)]
pub struct FaultCode {
    pub number: u8,
    pub detail: Option<u8>,
}

impl fmt::Display for FaultCode {
    fn fmt<W: fmt::Write>(&self, f: &mut fmt::Formatter<W>) -> fmt::Result {
        match self.detail {
            None => write!(f, "{}", self.number),
            Some(detail) => write!(f, "{}/{}", self.number, detail),
        }
    }
}

impl From<AllocError> for FrameFault {
    ghost use Rattle.std.specs.Prelude.{◌≡◌};
    ghost use Rattle.message_core.specs.declared.fault.FrameFault.TheVariants.{NoMemory};

    ghost from_gives = { λ _ e. e ≡ NoMemory };

    fn from(_e: AllocError) -> FrameFault {
        FrameFault::NoMemory
    }
}

impl<T: Drop> From<AllocFailed<T>> for FrameFault {
    ghost use Rattle.std.specs.Prelude.{◌≡◌};
    ghost use Rattle.message_core.specs.declared.fault.FrameFault.TheVariants.{NoMemory};

    ghost from_gives = { λ _ e. e ≡ NoMemory };

    fn from(_e: AllocFailed<T>) -> FrameFault {
        FrameFault::NoMemory
    }
}
