//! Service files: which name a file describes, and the program that is to take it.
//!
//! [`read`] reads one file, after "Message Bus Starting Services" of the D-Bus Specification;
//! `specs/ServiceFiles.antt` says what is read, `specs/WholeFiles.antt` what a good file is as a
//! whole. A [`Service`] is what a file says, a [`FileFault`] the first thing that is wrong with it.
//! The law of the definitions stands in [`laws`].
//!
//! ```
//! use service_files::{FileFault, read};
//! use std::alloc::Global;
//!
//! fn describes_clock(alloc: Global) -> Result<bool, FileFault> {
//!     let file = b"[D-BUS Service]\nName=com.example.Clock\nExec=/usr/bin/clockd --bus\n";
//!     let service = read(alloc, file)?;
//!     let mut arguments = service.arguments();
//!     Ok(
//!         service.name().as_str() == "com.example.Clock"
//!             && service.program() == "/usr/bin/clockd"
//!             && matches!(arguments.next(), Some("--bus"))
//!             && arguments.next().is_none(),
//!     )
//! }
//! ```
#![tactic(auto)]

mod fault;
mod file;
mod group_kind;
pub mod laws;
mod line;
mod reading;
mod service;
mod words;

pub use fault::{FileCode, FileFault};
pub use file::{MAX_FILE_LENGTH, read};
pub use service::Service;
pub use words::Words;
