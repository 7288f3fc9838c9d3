//! What is wrong with a service file.

use arrayvec::ArrayString;
use service_files::FileCode;
use std::fmt;

/// The name of a file.
#[derive(Clone, Copy, Debug, PartialEq, Eq)]
pub struct FileName {
    text: ArrayString<255>,
}

impl FileName {
    /// The name of a file of the system, where none has more than 255 bytes; of a longer one
    /// nothing.
    pub(crate) fn new(name: &str) -> FileName {
        FileName {
            text: ArrayString::from(name).unwrap_or(ArrayString::new()),
        }
    }
}

impl fmt::Display for FileName {
    fn fmt<W: fmt::Write>(&self, f: &mut fmt::Formatter<W>) -> fmt::Result {
        f.write_str(self.text.as_str())
    }
}

/// Why a service file is refused, shown as its number, and that of the line where it has one: `52`,
/// `55/3`.
#[derive(Clone, Copy, Debug, PartialEq, Eq)]
pub enum ServiceCode {
    /// It describes no service.
    File(FileCode),
    /// An earlier file describes a service of the same name, or there are 256 services already.
    Services,
}

impl fmt::Display for ServiceCode {
    fn fmt<W: fmt::Write>(&self, f: &mut fmt::Formatter<W>) -> fmt::Result {
        match self {
            ServiceCode::File(code) => write!(f, "{code}"),
            ServiceCode::Services => write!(f, "59"),
        }
    }
}
