//! What is wrong with a call.

ghost use Rattle.std.specs.Prelude.{◌≡◌};
ghost use Rattle.driver.specs.Calls.{error_of};

use seq_bus_core::ErrorKind;
use std::alloc::AllocError;
use thiserror::Error;

/// What is wrong with a call to the bus, as the call alone shows, or want of memory
/// ("Message Bus Messages" of the D-Bus Specification).
#[derive(Clone, Copy, Debug, PartialEq, Eq, Error)]
pub enum DriverFault {
    /// The bus has no such member.
    #[error("no such method")]
    UnknownMethod,
    /// The bus has no such interface.
    #[error("no such interface")]
    UnknownInterface,
    /// The arguments have another signature, or values that the method does not take.
    #[error("invalid arguments")]
    InvalidArgs,
    /// An argument is not the text of a match rule.
    #[error("invalid match rule")]
    MatchRuleInvalid,
    /// A monitor asks for more than 64 rules.
    #[error("too many match rules")]
    LimitsExceeded,
    #[error("out of memory")]
    NoMemory,
}

impl DriverFault {
    /// The error that the call is answered.
    pub fn error(self) -> ErrorKind
        ensures { result ≡ error_of self }
    {
        match self {
            DriverFault::UnknownMethod => ErrorKind::UnknownMethod,
            DriverFault::UnknownInterface => ErrorKind::UnknownInterface,
            DriverFault::InvalidArgs => ErrorKind::InvalidArgs,
            DriverFault::MatchRuleInvalid => ErrorKind::MatchRuleInvalid,
            DriverFault::LimitsExceeded => ErrorKind::LimitsExceeded,
            DriverFault::NoMemory => ErrorKind::NoMemory,
        }
    }
}

impl From<AllocError> for DriverFault {
    ghost use Rattle.std.specs.Prelude.{◌≡◌};
    ghost use Rattle.driver.specs.declared.fault.DriverFault.TheVariants.{NoMemory};

    ghost from_gives = { λ _ fault. fault ≡ NoMemory };

    fn from(_error: AllocError) -> DriverFault {
        DriverFault::NoMemory
    }
}
