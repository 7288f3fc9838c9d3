//! A world of seats that read and publish, one step at a time: what happens, and what holds in
//! every schedule.
//!
//! A bus with several routers has a seat for each of them and one for the main thread. Each seat
//! reads, publishes changes and takes the notes of others, in an order that nobody sets: that is a
//! list of [`Step`]s. What a step does is defined in `specs/Worlds.antt`, in the words of
//! `seq_bus_core`, and what is promised of every list of steps in `specs/Promises.antt`. That the
//! promise is kept is the law [`every_schedule`](laws::every_schedule).
//!
//! ```
//! use interleave_core::{Question, Step};
//! use seq_bus_core::Change;
//! use std::alloc::{AllocError, Global};
//!
//! /// Router 1 publishes a Hello. Router 2 takes its note, and is then told that the connection is
//! /// there.
//! fn hello_is_seen(alloc: Global) -> Result<Vec<Step<'static>>, AllocError> {
//!     let hello = Change::Hello { privileged: false };
//!     let publish = Step::Publish {
//!         seat: 1,
//!         changes: vec![in alloc; hello]?,
//!     };
//!     let take = Step::TakeNote { seat: 2, place: 1 };
//!     let read = Step::Read {
//!         seat: 2,
//!         place: 1,
//!         question: Question::Present(1),
//!     };
//!     Ok(vec![in alloc; publish, take, read]?)
//! }
//! ```
#![tactic(auto)]

pub mod laws;
mod step;

pub use step::{Question, Step};
