//! Bytes on their way to a socket.
//!
//! What is written to a connection is pushed to its [`Outgoing`], and [`Outgoing::flush`] gives a
//! [`Sink`] as much as it takes. Small chunks lie one behind the other in room that is used
//! again; a large one stays where it lies, as the bytes of a message do that several connections
//! share. One write lends the socket up to four parts.
//!
//! What reached the socket is a beginning of what was pushed, and what waits is the rest, however
//! much the socket takes at a time and wherever it fails: [`laws`].
//!
//! ```
//! use outgoing::{Flushed, Outgoing, Sink};
//! use std::alloc::Global;
//! use std::io;
//!
//! /// Whether a sink takes all of these bytes now.
//! fn takes_all<S: Sink>(alloc: Global, sink: &mut S, bytes: Vec<u8>) -> io::Result<bool> {
//!     let mut outgoing = Outgoing::new(alloc);
//!     outgoing.push(bytes)?;
//!     Ok(outgoing.flush(sink)? == Flushed::All)
//! }
//! ```
#![tactic(auto)]

mod chunk;
mod flushed;
pub mod laws;
mod parts;
mod queue;
mod sink;

pub use chunk::Chunk;
pub use flushed::Flushed;
pub use queue::Outgoing;
pub use sink::Sink;
