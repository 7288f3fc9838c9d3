//! Why a bus isn't served, or is served no more.

ghost use Rattle.std.specs.Prelude.{◌≡◌};

use crate::service_fault::{FileName, ServiceCode};
use sasl::KeyringCode;
use std::alloc::{AllocError, AllocFailed};
use std::{fmt, io};
use thiserror::Error;

/// What the system gave no more.
#[derive(Clone, Copy, Debug, PartialEq, Eq)]
pub enum Device {
    /// A file, or the files of a folder.
    Input,
    /// Standard output.
    Output,
    /// A file of the trace.
    Trace,
    /// Random bytes.
    Random,
    /// The socket that clients connect to.
    Listen,
    /// Word of what the sockets are ready for.
    Poll,
}

impl fmt::Display for Device {
    fn fmt<W: fmt::Write>(&self, f: &mut fmt::Formatter<W>) -> fmt::Result {
        f.write_str(match self {
            Device::Input => "input",
            Device::Output => "output",
            Device::Trace => "trace",
            Device::Random => "random",
            Device::Listen => "listen",
            Device::Poll => "poll",
        })
    }
}

/// The fault of a device that refused something: want of memory, where the error tells that.
pub fn device_fault(error: io::Error, device: Device) -> ServeFault {
    if error.kind() == io::ErrorKind::OutOfMemory {
        return ServeFault::Memory;
    }
    ServeFault::Device(device)
}

/// Why a bus isn't served, or is served no more.
#[derive(Clone, Copy, Debug, PartialEq, Eq, Error)]
pub enum ServeFault {
    /// The path of the socket has other bytes than those that stand for themselves in an address,
    /// or too many or none.
    #[error("address")]
    Address,
    /// The keyring has no cookie.
    #[error("keyring: {0}")]
    Keyring(KeyringCode),
    /// A service file describes no service, or one too many.
    #[error("services: {file}: {code}")]
    Services { file: FileName, code: ServiceCode },
    #[error("device: {0}")]
    Device(Device),
    /// There is no memory, or a thread can't be started.
    #[error("memory")]
    Memory,
}

impl ServeFault {
    ghost use Rattle.busd_core.specs.Statuses.{serve_status};

    /// The exit status of a program that ends so.
    pub fn status(self) -> u8
        ensures { result ≡ serve_status self }
    {
        match self {
            ServeFault::Address => 2,
            ServeFault::Keyring(_) | ServeFault::Services { .. } | ServeFault::Device(_) => 4,
            ServeFault::Memory => 5,
        }
    }
}

impl From<AllocError> for ServeFault {
    ghost use Rattle.std.specs.Prelude.{◌≡◌};
    ghost use Rattle.busd_core.specs.declared.serve_fault.ServeFault.TheVariants.{Memory};

    ghost from_gives = { λ _ e. e ≡ Memory };

    fn from(_e: AllocError) -> ServeFault {
        ServeFault::Memory
    }
}

// So that `v.push(x)?` converts to it. What there was no memory for is dropped.
impl<T: Drop> From<AllocFailed<T>> for ServeFault {
    ghost use Rattle.std.specs.Prelude.{◌≡◌};
    ghost use Rattle.busd_core.specs.declared.serve_fault.ServeFault.TheVariants.{Memory};

    ghost from_gives = { λ _ e. e ≡ Memory };

    fn from(_refused: AllocFailed<T>) -> ServeFault {
        ServeFault::Memory
    }
}
