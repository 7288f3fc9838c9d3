//! What the two commands of `busd` do before and beside threads and sockets.
//!
//! `busd run` serves the message stream of one connection that needs no authentication, by the
//! engine of a router: [`run`] is the whole of it, and `specs/Sessions` says which events happen to
//! the engine, and what becomes of the actions that they bring.
//!
//! ```
//! use bus_view::BusView;
//! use busd_core::{RunFault, run_over};
//! use std::alloc::Global;
//!
//! /// What a bus, seen from its seat 1, writes to a client that sends these messages.
//! fn answers_to<V: BusView + Drop>(
//!     alloc: Global,
//!     bus: V,
//!     right: &V::Right,
//!     messages: &[u8],
//! ) -> Result<Vec<u8>, RunFault> {
//!     let mut reader = messages;
//!     let mut written = Vec::new(alloc);
//!     run_over(alloc, bus, right, &mut reader, &mut written)?;
//!     Ok(written)
//! }
//! ```
//!
//! `busd serve` needs its command line, the keyring, the services of a folder, the files of a trace
//! and random bytes before it serves: [`serve_command`] and what stands beside it reads and makes
//! them, and [`ServeFault`] says why a bus can't begin, or ends.
//!
//! ```
//! use busd_core::{Options, ServeFault, serve_command};
//! use std::alloc::Global;
//!
//! /// How many routers a command line asks for, if it is right. The first word is the command.
//! fn routers_of(alloc: Global, words: &[String]) -> Result<Option<u8>, ServeFault> {
//!     let command = serve_command(alloc)?;
//!     match command.try_get_matches_from(words) {
//!         Ok(found) => Ok(Some(Options::of(&found)?.routers)),
//!         Err(_) => Ok(None),
//!     }
//! }
//! ```
#![tactic(auto)]

mod actions;
mod address;
mod carrying;
mod command;
mod files;
mod mail;
mod options;
mod read_beside;
mod run_fault;
mod serve_fault;
mod service_fault;
mod services;
mod stream;
mod trace;
mod transfer;

pub use address::SocketPath;
pub use command::serve_command;
pub use files::{open_random, random_bytes, read_cookie};
pub use options::Options;
pub use read_beside::ReadBeside;
pub use run_fault::RunFault;
pub use serve_fault::{Device, ServeFault, device_fault};
pub use service_fault::{FileName, ServiceCode};
pub use services::{read_services, rising_names};
pub use stream::{run, run_over};
pub use trace::{TraceFiles, open_trace};
