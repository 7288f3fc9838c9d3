//! What a router's host keeps: connections with their sockets, the mail of its slots, and who took
//! no more mail.
//!
//! A [`Carrier`] carries out the actions of an engine: what is written goes to the outgoing bytes
//! of a connection, and what is put goes to other routers by a [`Post`]. What is to be looked at
//! next is noted by [`Lines`] and [`Slots`].
//!
//! ```
//! use bus_view::BusView;
//! use router_core::{Action, WrittenBytes};
//! use router_host_core::{Carrier, Post, Slots, Socket};
//! use std::alloc::{AllocError, Global};
//!
//! /// An action writes to a connection: whether its socket takes so little that mail is to wait.
//! fn is_blocked<V: BusView, P: Post<V>, S: Socket>(
//!     alloc: Global,
//!     right: &V::Right,
//!     post: P,
//!     socket: S,
//!     bytes: Vec<u8>,
//! ) -> Result<bool, AllocError> {
//!     let slots = Slots::new(alloc, 0, 256);
//!     let mut carrier: Carrier<V, P, S> = Carrier::new(alloc, post, slots);
//!     carrier.lines.make_room(0)?;
//!     carrier.lines.open(0, socket);
//!     let bytes = WrittenBytes::own(bytes);
//!     let mut actions = vec![in alloc; Action::Write { key: 0, bytes }]?;
//!     carrier.carry_out(right, &mut actions);
//!     carrier.lines.flush_all();
//!     Ok(carrier.lines.is_blocked(0))
//! }
//! ```
#![tactic(auto)]

mod carrier;
mod ending;
mod hints;
mod line;
mod lines;
mod post;
mod put_out;
mod slots;
mod socket;
mod written;

pub use carrier::Carrier;
pub use ending::{EndCause, Ended};
pub use line::Pulled;
pub use lines::Lines;
pub use post::{NoRoom, Post, StartRequest, TooManyStarts};
pub use put_out::{PutOut, Refusal, SLOTS};
pub use slots::Slots;
pub use socket::Socket;
pub use written::Written;
