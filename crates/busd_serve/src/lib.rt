//! A bus over a Unix socket, as `busd serve` runs it: [`Bus::open`] makes the socket, and
//! [`Bus::serve`] serves its clients, each router in a thread of its own, until the bus is told to
//! stop or the system gives no more.
//!
//! ```
//! use busd_core::{Options, ServeFault};
//! use busd_serve::{Bus, DaemonRuntime};
//!
//! /// Serves the clients of a socket, as long as the system gives what that takes.
//! fn serve_clients<R: DaemonRuntime>(rt: &R, options: Options<'_>) -> Result<(), ServeFault>
//! where
//!     R::File: Send,
//! {
//!     let (bus, listening) = Bus::open(rt, options)?;
//!     bus.serve(rt, listening)
//! }
//! ```
#![tactic(auto)]

mod bus;
mod chores;
mod fault;
mod launch;
mod logging;
mod login;
mod polls;
mod programs;
mod runner;
mod runtime;
mod serving;
mod tracing;

pub use bus::{Bus, BusAddress, Listening};
pub use runner::{ProgramEnd, RunsPrograms};
pub use runtime::DaemonRuntime;
