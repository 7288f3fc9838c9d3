//! The queue of a well-known name: who owns it, and who waits to own it.
//!
//! [`RequestFlags`], [`QueuedOwner`] and [`Reply`] are the words of the members RequestName and
//! ReleaseName; what these do to a [`Queue`] is defined in `specs/Queues.antt`. The laws of a queue
//! stand in [`laws`].
//!
//! ```
//! use owner_queues::{Profile, Queue, Reply, RequestFlags};
//!
//! fn waits_and_owns() -> bool {
//!     let mut queue = Queue::new();
//!     let flags = RequestFlags::default();
//!     if !queue.has_room(1) {
//!         return false;
//!     }
//!     let first = queue.request(1, flags, Profile::Two);
//!     if !queue.has_room(2) {
//!         return false;
//!     }
//!     let second = queue.request(2, flags, Profile::Two);
//!     first == Reply::PrimaryOwner
//!         && second == Reply::InQueue
//!         && queue.release(1) == Reply::Released
//!         && queue.head() == Some(2)
//! }
//! ```
#![tactic(auto)]

pub mod laws;
mod owner;
mod queue;
mod reply;
mod request;

pub use owner::QueuedOwner;
pub use queue::{MAX_PLACES, Queue};
pub use reply::Reply;
pub use request::{ALLOW_REPLACEMENT, DO_NOT_QUEUE, Profile, REPLACE_EXISTING, RequestFlags};
