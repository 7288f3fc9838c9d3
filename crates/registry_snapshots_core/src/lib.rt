//! What the seats of a registry share, but for the lock: one history, notes that tell of it, and
//! the copy that readers take.
//!
//! All changes of a registry stand in one history. It exists in the proofs alone: what is kept of
//! it is its length. A [`Prefix`] is a beginning of it that was seen, and a [`Note`] tells one. A
//! [`Snap`] is the bus after such a beginning, and an [`Op`] brings it up to the next.
//!
//! ```
//! use bus_view::can_open;
//! use registry_snapshots_core::{NewHistory, Snap};
//! use std::alloc::{AllocError, Global};
//!
//! /// The copy of a bus of two routers, with a seat for each and one more, before any change.
//! fn is_empty(alloc: Global) -> Result<bool, AllocError> {
//!     if !can_open(&[], 2) {
//!         return Ok(false);
//!     }
//!     let (_head, prefix, _ledger) = NewHistory::new().parts();
//!     let snap = Snap::new(alloc, &[], 2, 3, prefix)?;
//!     Ok(snap.prefix().len() == 0 && snap.made(2) == Some(0) && !snap.present(1))
//! }
//! ```
#![tactic(auto)]

mod answers;
mod history;
mod naming;
mod note;
mod snap;

pub use history::{Batch, Head, NewHistory, NextEntry, Prefix};
pub use naming::Naming;
pub use note::Note;
pub use snap::{Op, Snap};
