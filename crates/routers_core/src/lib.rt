//! What the threads of a bus share, and the ways between the routers of one process.
//!
//! The [`Coordinator`] knows how to wake each thread, which slots have mail from other routers, how
//! many turns each router has ended, which of their changes the threads have told, and whether all
//! are to end, with the [`Fault`] that came first. A [`LanePost`] is the
//! [`Post`](router_host_core::Post) of a router, or of the main thread: what it puts for other
//! routers goes by its lane into their outboxes, and the coordinator is told of it; what it puts
//! for its own places it keeps itself.
//!
//! ```
//! use routers_core::{Coordinator, Fault, Wake};
//! use std::alloc::{AllocError, Global};
//! use std::sync::Wait;
//!
//! /// What wakes a thread that does not wait.
//! #[derive(Drop)]
//! struct Awake;
//!
//! impl Wake for Awake {
//!     fn wake(&self) {}
//! }
//!
//! /// A router can't go on: all threads are to end.
//! fn ends_all<R: Wait>(rt: &R, alloc: Global) -> Result<bool, AllocError> {
//!     let wakers = vec![in alloc; Awake, Awake]?;
//!     let coordinator = Coordinator::new(alloc, wakers, Awake)?;
//!     coordinator.fail(rt, Fault::Memory);
//!     Ok(coordinator.is_over() && coordinator.fault() == Some(Fault::Memory))
//! }
//! ```
#![tactic(auto)]

mod coordinator;
mod fault;
mod flag;
mod post;
mod slot_mail;
mod telling;

pub use coordinator::{Coordinator, MAIN_THREAD, Wake};
pub use fault::Fault;
pub use post::LanePost;
