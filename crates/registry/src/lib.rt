//! The state of a message bus in fixed tables.
//!
//! [`Registry`] is the state that `seq_bus_core` defines, in room that is made once, when the bus
//! is opened. A change is made in two parts: [`Registry::prepare`] says what it is told and makes
//! all that needs memory, and [`Registry::absorb`] makes it, takes no memory and can't be refused.
//! So one [`Prepared`] change can be made on two copies of a registry, one after the other. What
//! stands of a bus is read without taking memory.
//!
//! ```
//! use bus_view::can_open;
//! use owner_queues::Profile;
//! use registry::Registry;
//! use seq_bus_core::Change;
//! use std::alloc::{AllocError, Global};
//!
//! /// The first connection of a bus says Hello by the router of seat 1.
//! fn is_greeted(alloc: Global) -> Result<bool, AllocError> {
//!     if !can_open(&[], 1) {
//!         return Ok(false);
//!     }
//!     let mut registry = Registry::new(alloc, &[], 1, Profile::Two)?;
//!     let hello = Change::Hello { privileged: false };
//!     let prepared = registry.prepare(alloc, 1, &hello)?;
//!     registry.absorb(&prepared);
//!     Ok(registry.is_client(1) && !registry.present(2))
//! }
//! ```
#![tactic(auto)]

mod after;
mod batches;
mod becoming;
mod current;
mod hello;
mod leave;
mod listed;
mod listening;
mod matches;
mod owners;
mod prepared;
mod queries;
mod registry;
mod requests;
mod routing;
mod services;
mod starts;

pub use prepared::Prepared;
pub use registry::Registry;
