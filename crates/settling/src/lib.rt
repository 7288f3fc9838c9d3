//! Changes of a bus, from where they are prepared to what they are told.
//!
//! A bus stands in a registry, with the calls that it holds beside it. [`prepare`] makes all that a
//! change needs of memory: what each copy of the registry absorbs, and a [`Settling`], by which the
//! calls are settled once the change is made. Then nothing can be refused. [`prepare_all`] does the
//! same for a batch, which is made whole or not at all: each change is prepared on the state that
//! those before it leave, and it gives [`Settlings`]. Both make the changes on a registry of their
//! own as they go.
//!
//! ```
//! ghost use Rattle.settling.specs.Settlings.{IsSomeBus, SettlesAt};
//!
//! use activation::HeldCalls;
//! use owner_queues::Queue;
//! use registry::Registry;
//! use seq_bus_core::{Change, Outcome};
//! use settling::prepare;
//! use std::alloc::{AllocError, Global};
//!
//! /// Makes a change of seat 1 on a registry, beside which the calls stand that its bus holds.
//! fn make(
//!     alloc: Global,
//!     registry: &mut Registry,
//!     calls: &mut HeldCalls,
//!     change: &Change,
//! ) -> Result<Outcome, AllocError>
//!     requires { (settling : _) → SettlesAt registry.old 1 change.now settling
//!         → IsSomeBus change.now settling calls.old }
//! {
//!     let (_, settling) = prepare(alloc, registry, &mut Queue::new(), 1, change)?;
//!     Ok(settling.settle(calls, change))
//! }
//! ```
#![tactic(auto)]

mod batch;
mod settling;

pub use batch::{Settlings, prepare_all};
pub use settling::{Settling, prepare, prepare_only};
