//! The registry of a bus that several routers share.
//!
//! [`start`] opens a registry and hands it to a server: a [`Shared`], a [`Seat`] for each router,
//! from 1, and seat 0 for the main thread. A seat reads the bus with no lock and takes no memory
//! for it; it makes a change under the one lock of the [`Shared`]. What is told by a seat's [`Note`]
//! is seen by the seat that takes it.
//!
//! A [`Desk`] is a seat with the [`Shared`] that it makes its changes by: a
//! [`BusView`](bus_view::BusView), as a router's engine sees a bus.
//!
//! All changes of a registry stand in one history. It exists in the proofs alone: what is kept of
//! it is its length.
//!
//! ```
//! use registry_snapshots::{Naming, Seat, Shared};
//! use seq_bus_core::{Change, Reply};
//! use std::sync::Wait;
//!
//! /// A connection says Hello by one seat, and another sees it once it takes the note.
//! fn is_seen<J: Naming, R: Wait>(
//!     rt: &R,
//!     shared: &Shared<J>,
//!     one: &mut Seat<J>,
//!     other: &mut Seat<J>,
//! ) -> Option<bool> {
//!     let hello = Change::Hello { privileged: false };
//!     let (told, note) = one.change(rt, shared, hello).ok()?;
//!     let Reply::Welcome(conn) = told.reply else {
//!         return None;
//!     };
//!     other.take_note(&note);
//!     other.present(conn.number).ok()
//! }
//! ```
#![tactic(auto)]

mod copies;
mod desk;
mod opening;
mod protocol;
mod refusal;
mod registrar;
mod seat;
mod shared;
mod tally;

pub use desk::Desk;
pub use opening::{Serve, start};
pub use refusal::StartFault;
pub use registry_snapshots_core::{Naming, NewHistory, Note, Snap};
pub use seat::Seat;
pub use shared::Shared;
