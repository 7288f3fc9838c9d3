//! What a router does: its events and actions, and the definitions that say which actions an event
//! brings.
//!
//! A router is an engine over a view of a bus. [`Event`]s happen to it: a connection comes, bytes
//! of it come, its next message is served, mail comes from another router, a connection is gone,
//! time has passed. It answers with [`Action`]s, and shows its [`Gate`] each call to the bus before
//! it serves it.
//!
//! The definitions stand in `specs/`: `Serving` says what is done for a message, `Events` what is
//! done at an event, as a script of calls of the bus whose answers decide what comes next;
//! `OneThread` says what events bring over a bus of one thread where nothing is refused, and which
//! bytes go to each connection. Their laws stand in [`laws`], and in [`readings`] that what is read
//! is read in one way.
//!
//! ```
//! use router_core::Action;
//! use std::alloc::{AllocError, Global};
//!
//! /// What the actions of a router write to the connection of a key.
//! fn written<N: Drop>(
//!     alloc: Global,
//!     key: usize,
//!     actions: &[Action<N>],
//! ) -> Result<Vec<u8>, AllocError> {
//!     let mut all = Vec::new(alloc);
//!     for action in actions {
//!         if let Action::Write { key: to, bytes } = action {
//!             if *to == key {
//!                 all.extend_from_slice(bytes.as_slice())?;
//!             }
//!         }
//!     }
//!     Ok(all)
//! }
//! ```
#![tactic(auto)]

mod action;
mod cause;
mod event;
mod fate;
mod gate;
mod joint;
pub mod laws;
pub mod limits;
pub mod readings;
mod recipients;
mod start_end;
mod written;

pub use action::Action;
pub use cause::CloseCause;
pub use event::Event;
pub use fate::PeerFate;
pub use gate::{Gate, OpenGate};
pub use joint::{Joint, RuleCall};
pub use recipients::Addressees;
pub use start_end::{HowEnded, StartEnd};
pub use written::WrittenBytes;
