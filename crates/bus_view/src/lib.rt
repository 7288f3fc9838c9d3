//! A bus, as one of those sees it that make changes of it.
//!
//! [`BusView`] is what a router asks of a bus, whether it is alone with it or one of several
//! routers. Its contract says what is answered by the definitions of `seq_bus_core` alone, so that
//! what is proved over it holds over each bus. A change that is not made is a [`Refused`] one, with
//! its [`Cause`]; of a batch all changes are made or none, and then they are [`RefusedAll`], with
//! their [`BatchCause`]. Whether a bus can be opened with given services is said by [`can_open`].
//! Bodies of replies are written by [`append_name`], [`append_owner`] and [`append_whether`], and
//! those that are lists of names by [`begin_names`], [`push_name`], [`push_connection`],
//! [`end_names`] and [`undo_names`], for whoever answers queries.
//!
//! ```
//! use bus_view::{AskFault, Asked, BusView};
//! use names::BusName;
//! use seq_bus_core::Query;
//! use std::alloc::Global;
//!
//! /// The body of the reply to GetNameOwner, if the name has an owner.
//! fn owner_of<V: BusView>(
//!     alloc: Global,
//!     bus: &mut V,
//!     name: BusName,
//! ) -> Result<Option<Vec<u8>>, AskFault> {
//!     let mut body = Vec::new(alloc);
//!     Ok(match bus.ask(&Query::GetNameOwner(name), &mut body)? {
//!         Asked::Body => Some(body),
//!         Asked::NameHasNoOwner => None,
//!     })
//! }
//! ```
#![tactic(auto)]

mod answer;
mod bodies;
mod cheap_copy;
mod opening;
mod refusal;
mod view;

pub use answer::{AskFault, Asked};
pub use bodies::{
    append_name, append_owner, append_whether, begin_names, end_names, push_connection, push_name,
    undo_names,
};
pub use cheap_copy::CheapCopy;
pub use opening::can_open;
pub use refusal::{BatchCause, Cause, Gone, Refused, RefusedAll};
pub use view::BusView;
