//! What waits until a name gets an owner, and the calls that a bus holds for it.
//!
//! A [`Holder`] keeps what waits for names, in order of arrival, in room that is made once. When a
//! name gets its owner [`Holder::release_all`] lets go what waits for it, and [`Holder::fail_all`]
//! where it will not get one; then [`Holder::next_given`] hands it out, one by one.
//!
//! ```
//! use activation::{Given, Holder};
//! use names::BusName;
//! use seq_bus_core::Fate;
//! use std::alloc::{AllocError, Global};
//!
//! /// Two numbers wait for a name: whether they come out in order once it has an owner.
//! fn come_in_order(alloc: Global, name: BusName) -> Result<bool, AllocError> {
//!     let mut holder: Holder<u64> = Holder::new(alloc)?;
//!     holder.hold(name, 7);
//!     holder.hold(name, 8);
//!     holder.release_all(&name);
//!     let fate = Fate::Served;
//!     Ok(
//!         holder.next_given() == Some(Given { fate, what: 7 })
//!             && holder.next_given() == Some(Given { fate, what: 8 })
//!             && holder.next_given().is_none(),
//!     )
//! }
//! ```
//!
//! A bus keeps its tickets by number alone. What they carry, who called and with which message,
//! stands in [`HeldCalls`]. Each change of the bus is settled here once it is made: calls that
//! waited are let go, and with them the change is told its whole
//! [`Outcome`](seq_bus_core::Outcome). What that needs of memory is made before the change, a
//! [`CallRoom`], so that nothing can be refused after it.
//!
//! ```
//! ghost use Rattle.activation.specs.Settling.{IsSomeStep};
//!
//! use activation::HeldCalls;
//! use seq_bus_core::{Change, Conn, NumberedOutcome, Outcome};
//! use std::alloc::{AllocError, Global};
//!
//! /// Settles a change that the bus tells this.
//! fn settle(
//!     alloc: Global,
//!     calls: &mut HeldCalls,
//!     change: &Change,
//!     caller: Option<Conn>,
//!     told: NumberedOutcome,
//! ) -> Result<Outcome, AllocError>
//!     requires { IsSomeStep change.now caller told calls.old }
//! {
//!     let room = HeldCalls::room_for(alloc, change, &told)?;
//!     // Here the bus makes the change, since nothing can be refused any more.
//!     Ok(calls.settle(change, caller, told, room))
//! }
//! ```
//!
//! (D-Bus Specification: "Message Bus Starting Services (Activation)".)
#![tactic(auto)]

mod calls;
mod given;
mod holder;
mod room;

pub use calls::HeldCalls;
pub use given::Given;
pub use holder::Holder;
pub use room::CallRoom;
