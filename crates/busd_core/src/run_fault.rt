//! Why a stream is served no more.

ghost use Rattle.std.specs.Prelude.{◌≡◌};

use router_core::CloseCause;
use thiserror::Error;

/// Why a run ended before its input did.
#[derive(Clone, Copy, Debug, PartialEq, Eq, Error)]
pub enum RunFault {
    /// The bus closed the connection.
    #[error("closed: {0}")]
    Closed(CloseCause),
    /// The input can't be read.
    #[error("device: input")]
    Input,
    /// The output can't be written.
    #[error("device: output")]
    Output,
    #[error("memory")]
    Memory,
}

impl RunFault {
    ghost use Rattle.busd_core.specs.Statuses.{run_status};

    /// The exit status of a program that ends so.
    pub fn status(self) -> u8
        ensures { result ≡ run_status self }
    {
        match self {
            RunFault::Closed(_) => 3,
            RunFault::Input | RunFault::Output => 4,
            RunFault::Memory => 5,
        }
    }
}
