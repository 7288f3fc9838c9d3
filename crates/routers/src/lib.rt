//! The routers of a bus, each in a thread of its own.
//!
//! A [`Router`] is a [`Host`](router_host::Host) that is told what happens by a [`Source`], and
//! reaches the other routers by its [`LanePost`]. [`serve`] runs one for each router's seat, beside
//! the thread that accepts connections, until all are told to end. What they share stands in the
//! [`Coordinator`] (`routers_core`). Where the run is recorded, each thread writes the lines of its
//! trace to a [`TraceSink`], those of a turn at its end.
//!
//! ```
//! use routers::{Coordinator, Fault, MainTask, Wake};
//! use std::sync::Wait;
//!
//! /// The main thread of a bus that is to end at once.
//! #[derive(Drop)]
//! struct EndsAll<'a, W: Wake + Drop> {
//!     coordinator: &'a Coordinator<W>,
//! }
//!
//! impl<'a, W: Wake + Drop> MainTask for EndsAll<'a, W> {
//!     fn run<R: Wait>(&mut self, _rt: &R) -> Result<(), Fault> {
//!         self.coordinator.stop();
//!         Ok(())
//!     }
//! }
//! ```
#![tactic(auto)]

mod router_loop;
mod source;
mod threads;
mod trace_sink;

pub use router_loop::Router;
pub use routers_core::{Coordinator, Fault, LanePost, MAIN_THREAD, Wake};
pub use source::{RETRY_AFTER, Source, SourceEvent, Timeout};
pub use threads::{MainTask, RouterSetup, SeatSetup, serve};
pub use trace_sink::{TraceSink, TraceWriter, traced};
