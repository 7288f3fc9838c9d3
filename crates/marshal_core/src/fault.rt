//! Why bytes do not spell values, or values have no bytes.

ghost use Rattle.std.specs.Prelude.{◌≡◌};
ghost use Rattle.marshal_core.specs.declared.fault.MarshalFault.TheVariants.{NoMemory};

use std::alloc::{AllocError, AllocFailed};
use thiserror::Error;

/// The first fault from left to right, or want of memory.
#[derive(Clone, Copy, Debug, PartialEq, Eq, Error)]
pub enum MarshalFault {
    #[error("the bytes end too early")]
    Truncated,
    #[error("a byte of the padding is not zero")]
    Padding,
    #[error("a boolean is neither 0 nor 1")]
    Boolean,
    #[error("a text is not UTF-8")]
    Utf8,
    #[error("a text has a zero byte within it, or none at its end")]
    NulInText,
    #[error("not an object path")]
    Path,
    #[error("not a signature")]
    Signature,
    #[error("an array is too long, or an element reads past its end")]
    ArrayLength,
    #[error("too many containers stand in one another")]
    Depth,
    #[error("file descriptors are not passed")]
    Descriptor,
    #[error("out of memory")]
    NoMemory,
}

impl MarshalFault {
    ghost use Rattle.std.specs.Prelude.{◌≡◌};
    ghost use Rattle.marshal_core.specs.Faults.{fault_code};

    /// The number of the fault, from 10 to 20.
    pub fn code(self) -> u8
        ensures { result ≡ fault_code self }
    {
        match self {
            MarshalFault::Truncated => 10,
            MarshalFault::Padding => 11,
            MarshalFault::Boolean => 12,
            MarshalFault::Utf8 => 13,
            MarshalFault::NulInText => 14,
            MarshalFault::Path => 15,
            MarshalFault::Signature => 16,
            MarshalFault::ArrayLength => 17,
            MarshalFault::Depth => 18,
            MarshalFault::Descriptor => 19,
            MarshalFault::NoMemory => 20,
        }
    }
}

impl From<AllocError> for MarshalFault {
    ghost from_gives = { λ _ e. e ≡ NoMemory };

    fn from(_e: AllocError) -> MarshalFault {
        MarshalFault::NoMemory
    }
}

impl<T: Drop> From<AllocFailed<T>> for MarshalFault {
    ghost from_gives = { λ _ e. e ≡ NoMemory };

    fn from(_e: AllocFailed<T>) -> MarshalFault {
        MarshalFault::NoMemory
    }
}
