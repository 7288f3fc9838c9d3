//! What a query is told.

ghost use Rattle.std.specs.Prelude.{◌≡◌};
ghost use Rattle.bus_view.specs.declared.answer.AskFault.TheVariants.{NoMemory};

use std::alloc::AllocError;
use thiserror::Error;

/// The answer to a query.
#[derive(Clone, Copy, Debug, PartialEq, Eq)]
pub enum Asked {
    /// The body of the reply was appended.
    Body,
    /// The name has no owner: the call is answered by the error
    /// `org.freedesktop.DBus.Error.NameHasNoOwner`.
    NameHasNoOwner,
}

/// Why a query is not answered. Nothing was appended.
#[derive(Clone, Copy, Debug, PartialEq, Eq, Error)]
pub enum AskFault {
    #[error("out of memory")]
    NoMemory,
    /// The bus has ended. A plain bus never does.
    #[error("the bus has ended")]
    Gone,
}

impl From<AllocError> for AskFault {
    ghost from_gives = { λ _ e. e ≡ NoMemory };

    fn from(_e: AllocError) -> AskFault {
        AskFault::NoMemory
    }
}
