//! Why a file describes no service.

ghost use Rattle.std.specs.Prelude.{◌≡◌};

use std::alloc::AllocError;
use std::fmt;
use thiserror::Error;

/// Why a file describes no service, or want of memory. `Twice`, `Name` and `Line` come first, at
/// the first line from the top that has one of them; then `Group`, `NameMissing` and `ExecMissing`.
#[derive(Clone, Copy, Debug, PartialEq, Eq, Error)]
pub enum FileFault {
    #[error("there is no group [D-BUS Service]")]
    Group,
    #[error("the group [D-BUS Service] has no Name")]
    NameMissing,
    #[error("the group [D-BUS Service] has no Exec with a program")]
    ExecMissing,
    #[error("the group [D-BUS Service], or its Name or Exec, stands twice")]
    Twice,
    #[error("the Name is no well-known bus name, or the bus's own")]
    Name,
    /// The number of a line that does not read, counted from 1; 0 where the file is too long.
    #[error("line {0} of the service file does not read")]
    Line(usize),
    #[error("out of memory")]
    NoMemory,
}

impl FileFault {
    ghost use Rattle.service_files.specs.Faults.{fault_code};

    /// The number of the fault, from 50 to 56, with the number of the line.
    pub fn code(self) -> FileCode
        ensures { result ≡ fault_code self }
    {
        let (number, line) = match self {
            FileFault::Group => (50, None),
            FileFault::NameMissing => (51, None),
            FileFault::ExecMissing => (52, None),
            FileFault::Twice => (53, None),
            FileFault::Name => (54, None),
            FileFault::Line(line) => (55, Some(line)),
            FileFault::NoMemory => (56, None),
        };
        FileCode { number, line }
    }
}

/// The numbers of a file's fault, shown as `50` or `55/3`.
#[derive(Clone, Copy, Debug, PartialEq, Eq)]
pub struct FileCode {
    pub number: u8,
    pub line: Option<usize>,
}

impl fmt::Display for FileCode {
    fn fmt<W: fmt::Write>(&self, f: &mut fmt::Formatter<W>) -> fmt::Result {
        match self.line {
            None => write!(f, "{}", self.number),
            Some(line) => write!(f, "{}/{}", self.number, line),
        }
    }
}

impl From<AllocError> for FileFault {
    ghost use Rattle.std.specs.Prelude.{◌≡◌};
    ghost use Rattle.service_files.specs.declared.fault.FileFault.TheVariants.{NoMemory};

    ghost from_gives = { λ _ e. e ≡ NoMemory };

    fn from(_e: AllocError) -> FileFault {
        FileFault::NoMemory
    }
}
