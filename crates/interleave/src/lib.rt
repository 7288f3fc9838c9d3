//! Runs of a world of seats that read and publish, one step at a time.
//!
//! [`run`] takes the steps of a [`World`] and says what each seat was answered. What is promised of
//! the steps, whatever they are, stands in its contract, and as a law of its own in [`laws`].
//!
//! ```
//! use bus_view::can_open;
//! use interleave::{Exchange, Question, Step, World, run};
//! use seq_bus_core::Change;
//! use std::alloc::{AllocError, Global};
//!
//! /// Seat 1 makes a connection, and seat 2 takes its note: whether it finds the connection there.
//! fn is_found(alloc: Global) -> Result<bool, AllocError> {
//!     if !can_open(&[], 2) {
//!         return Ok(false);
//!     }
//!     let world = World::new(alloc, &[], 2)?;
//!     let hello = Change::Hello { privileged: false };
//!     let publish = Step::Publish {
//!         seat: 1,
//!         changes: vec![in alloc; hello]?,
//!     };
//!     let take = Step::TakeNote { seat: 2, place: 1 };
//!     let read = Step::Read {
//!         seat: 2,
//!         place: 1,
//!         question: Question::Present(1),
//!     };
//!     let steps = vec![in alloc; publish, take, read]?;
//!     let log = run(alloc, &world, steps.as_slice())?;
//!     let Some(line) = log.lines.get(1) else {
//!         return Ok(false);
//!     };
//!     Ok(matches!(&line.exchange, Exchange::Presence { present: true, .. }))
//! }
//! ```
#![tactic(auto)]

mod bus;
mod log;
mod play;
mod runs;
mod seat;
mod world;

pub use interleave_core::{Question, Step, laws};
pub use log::{Exchange, Log, LogLine};
pub use runs::run;
pub use world::World;
