//! Why there is no verdict.

ghost use Rattle.std.specs.Prelude.{◌≡◌};

use std::alloc::AllocError;
use std::io;
use thiserror::Error;

/// Why there is no verdict.
#[derive(Clone, Copy, Debug, PartialEq, Eq, Error)]
pub enum CheckFault {
    /// The file can't be read.
    #[error("device: input")]
    Input,
    #[error("device: output")]
    Output,
    #[error("memory")]
    Memory,
}

impl CheckFault {
    ghost use Rattle.trace_check.specs.Statuses.{status_of};

    /// The exit status of a check that ends so.
    pub fn status(self) -> u8
        ensures { result ≡ status_of self }
    {
        match self {
            CheckFault::Input | CheckFault::Output => 4,
            CheckFault::Memory => 5,
        }
    }
}

impl From<AllocError> for CheckFault {
    ghost use Rattle.std.specs.Prelude.{◌≡◌};
    ghost use Rattle.trace_check.specs.declared.fault.CheckFault.TheVariants.{Memory};

    ghost from_gives = { λ _ e. e ≡ Memory };

    fn from(_error: AllocError) -> CheckFault {
        CheckFault::Memory
    }
}

impl From<io::Error> for CheckFault {
    fn from(error: io::Error) -> CheckFault {
        if error.kind() == io::ErrorKind::OutOfMemory {
            CheckFault::Memory
        } else {
            CheckFault::Input
        }
    }
}
