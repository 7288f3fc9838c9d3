//! What the routers of a bus send one another, and the bounded queues that carry it.
//!
//! Each place for a connection has an outbox: a queue of [`ROOM`] envelopes, which all seats put
//! into and the router of the place takes from. [`Outboxes::new`] makes them: a [`Lane`] for each
//! seat, and for each router the [`Tap`]s of its places.
//!
//! An envelope carries a note of the registry that the outboxes are of: its type says so.
//!
//! ```
//! ghost use Rattle.std.specs.Prelude.{◌≡◌};
//!
//! use outbox::{EnvelopeOf, Outboxes};
//! use registry_snapshots::{Naming, Shared};
//! use std::alloc::{AllocError, Global};
//! use std::sync::Wait;
//!
//! /// Of a registry of two routers the second takes what was put for slot 255.
//! fn comes_to_the_second<J: Naming, R: Wait>(
//!     rt: &R,
//!     alloc: Global,
//!     shared: &Shared<J>,
//!     envelope: EnvelopeOf<J>,
//! ) -> Result<bool, AllocError>
//!     requires { J.opening.state.routers ≡ 2 }
//! {
//!     let (mut lanes, mut routers) = Outboxes::new(alloc, shared)?;
//!     let (Some(mut lane), Some(mut taps)) = (lanes.pop(), routers.pop()) else {
//!         return Ok(false);
//!     };
//!     let Some(mut tap) = taps.pop() else {
//!         return Ok(false);
//!     };
//!     if lane.slots() < 256 {
//!         return Ok(false);
//!     }
//!     let number = envelope.number;
//!     let put = lane.put(rt, 255, envelope).is_ok();
//!     Ok(
//!         put && tap
//!             .take(rt)
//!             .is_some_and(|envelope| envelope.number == number),
//!     )
//! }
//! ```
//!
//! [`open_lanes`] makes such queues of any items: one for each slot; [`open_queue`] makes one
//! alone. A thread that puts has a lane, which reaches all queues; what comes out of a queue is
//! taken by its one tap. A queue holds [`ROOM`] items, and neither putting nor taking allocates.
//! What is taken from a queue is a beginning of what was put into it, in this order: each item comes
//! once, and those of a lane in the lane's order. [`Lane::compare`] shows it of a lane and a tap,
//! once both are in one hand.
//!
//! ```
//! use outbox::open_queue;
//! use std::alloc::{AllocError, Global};
//! use std::sync::Wait;
//!
//! fn comes_in_order<R: Wait>(rt: &R, alloc: Global) -> Result<bool, AllocError> {
//!     let (mut lanes, mut tap) = open_queue::<u64>(alloc, 1)?;
//!     let Some(mut lane) = lanes.pop() else {
//!         return Ok(false);
//!     };
//!     if lane.slots() == 0 {
//!         return Ok(false);
//!     }
//!     let put = lane.put(rt, 0, 5).is_ok() && lane.put(rt, 0, 6).is_ok();
//!     Ok(put && tap.take(rt) == Some(5) && tap.take(rt) == Some(6) && tap.take(rt).is_none())
//! }
//! ```
#![tactic(auto)]

mod ends;
mod hand;
mod lane;
mod opening;
mod outboxes;

pub use ends::{Full, ROOM, Tap};
pub use lane::Lane;
pub use opening::{open_lanes, open_queue};
pub use outboxes::{EnvelopeOf, Outboxes};
