//! What is refused.

ghost use Rattle.std.specs.Prelude.{◌≡◌};
ghost use Rattle.bus_view.specs.Refusals.{batch_cause_code, cause_code};

use seq_bus_core::Change;
use seq_bus_core::limits::MAX_BATCH;
use thiserror::Error;

/// Why a change is not made.
#[derive(Clone, Copy, Debug, PartialEq, Eq, Error)]
pub enum Cause {
    #[error("out of memory")]
    NoMemory,
    /// The numbers of the seat disagree with those of the registry.
    #[error("the seat is not of this registry")]
    ForeignSeat,
    /// The history would have more than 2^63 changes.
    #[error("the history is full")]
    HistoryFull,
    /// The bus has ended.
    #[error("the bus has ended")]
    Gone,
}

impl Cause {
    /// The number of the cause: 60 to 63, in the order above.
    pub fn code(self) -> u8
        ensures { result ≡ cause_code self }
    {
        match self {
            Cause::NoMemory => 60,
            Cause::ForeignSeat => 61,
            Cause::HistoryFull => 62,
            Cause::Gone => 63,
        }
    }
}

/// A change that was not made, and why.
#[derive(Drop)]
pub struct Refused {
    pub change: Change,
    pub cause: Cause,
}

/// Why a batch of changes is not made.
#[derive(Clone, Copy, Debug, PartialEq, Eq, Error)]
pub enum BatchCause {
    /// Why one of its changes is not made.
    #[error("{0}")]
    Refused(Cause),
    /// There is no change, or there are more than 64.
    #[error("a batch has 1 to {max} changes", max = MAX_BATCH)]
    Batch,
}

impl BatchCause {
    /// The number of the cause: that of a change, 60 to 63, or 67.
    pub fn code(self) -> u8
        ensures { result ≡ batch_cause_code self }
    {
        match self {
            BatchCause::Refused(cause) => cause.code(),
            BatchCause::Batch => 67,
        }
    }
}

/// Changes of which none was made, and why.
#[derive(Drop)]
pub struct RefusedAll {
    pub changes: Vec<Change>,
    pub cause: BatchCause,
}

/// The bus has ended.
#[derive(Clone, Copy, Debug, PartialEq, Eq, Error)]
#[error("the bus has ended")]
pub struct Gone;
