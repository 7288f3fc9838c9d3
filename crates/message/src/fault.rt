//! Why a message is not relayed.

ghost use Rattle.std.specs.Prelude.{◌≡◌};

use std::alloc::AllocError;
use thiserror::Error;

/// Why a message is not written again, or want of memory.
#[derive(Clone, Copy, Debug, PartialEq, Eq, Error)]
pub enum RelayFault {
    /// It would have more than 134,217,728 bytes, or a field array of more than 67,108,864
    /// ("Message Format" and "Marshaling (Wire Format)" of the D-Bus Specification).
    #[error("the message would be too long")]
    TooLong,
    #[error("out of memory")]
    NoMemory,
}

impl RelayFault {
    ghost use Rattle.message.specs.FaultCodes.{fault_code};

    /// The number of the fault.
    pub fn code(self) -> u8
        ensures { result ≡ fault_code self }
    {
        match self {
            RelayFault::TooLong => 27,
            RelayFault::NoMemory => 30,
        }
    }
}

impl From<AllocError> for RelayFault {
    ghost use Rattle.std.specs.Prelude.{◌≡◌};
    ghost use Rattle.message.specs.declared.fault.RelayFault.TheVariants.{NoMemory};

    ghost from_gives = { λ _ e. e ≡ NoMemory };

    fn from(_e: AllocError) -> RelayFault {
        RelayFault::NoMemory
    }
}
