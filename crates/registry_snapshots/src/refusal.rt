//! Why a registry is not opened.

ghost use Rattle.std.specs.Prelude.{◌≡◌};
ghost use Rattle.registry_snapshots.specs.Refusals.{fault_code};

use thiserror::Error;

/// Why a registry was not opened.
#[derive(Clone, Copy, Debug, PartialEq, Eq, Error)]
pub enum StartFault {
    #[error("out of memory")]
    NoMemory,
    /// There are not 1 to 8 routers.
    #[error("a bus has 1 to 8 routers")]
    Routers,
    /// There are more than 256 services, one of them twice, or the bus itself among them.
    #[error("a bus has at most 256 services, each once, and itself not among them")]
    Services,
}

impl StartFault {
    /// The number of the fault, 57 to 59.
    pub fn code(self) -> u8
        ensures { result ≡ fault_code self }
    {
        match self {
            StartFault::NoMemory => 57,
            StartFault::Routers => 58,
            StartFault::Services => 59,
        }
    }
}
