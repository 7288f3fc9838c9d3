//! Runs of a router's engine over a bus of one thread, and their laws.
//!
//! [`run`] serves a list of events, one after the other, and gives the bytes that go to each
//! connection.
//!
//! ```
//! use router_core::{Event, OpenGate};
//! use router_laws::run;
//! use seq_bus::SeqBus;
//! use std::alloc::Global;
//!
//! /// What goes to a connection that sends one message.
//! fn answer_to(alloc: Global, bus: SeqBus, message: Vec<u8>) -> Option<Vec<u8>> {
//!     let opened = Event::Opened {
//!         key: 0,
//!         challenge: None,
//!     };
//!     let bytes = Event::Bytes {
//!         key: 0,
//!         piece: message,
//!     };
//!     let events = vec![in alloc; opened, bytes, Event::Next { key: 0 }].ok()?;
//!     let mut written = run(alloc, bus, OpenGate, None, events).ok()?;
//!     written.pop()
//! }
//! ```
//!
//! Where no call of the bus and no memory is refused, everything that an engine does is a function
//! of its events: any two runs of the same events write the same bytes to each connection
//! ([`runs`]), and it does not matter how those bytes were cut that came ([`cuts`]). Of
//! [`busd_core::run`] the same is said in fewer words: what it writes for a stream depends on the
//! bytes of the stream alone ([`streams`]). And whatever happens to a router, no connection is let in
//! but by what it has said ([`logins`]). Each function of these modules does nothing: what it
//! ensures is the law, for the proof of whoever calls it.
//!
//! ```
//! ghost use Rattle.router_laws.specs.GrantedRuns.{RunsAgree};
//!
//! use router_core::Gate;
//! use router_laws::runs::runs_agree;
//!
//! /// A bus may be run once more behind the same gate: where nothing is refused, the same is
//! /// written.
//! fn may_be_run_again<G: Gate>()
//!     ensures { RunsAgree G.passes G.passes }
//! {
//!     runs_agree::<G, G>();
//! }
//! ```
#![tactic(auto)]

pub mod cuts;
mod fault;
pub mod logins;
mod outlets;
pub mod runs;
mod session;
pub mod streams;

pub use fault::EventFault;
pub use session::run;
