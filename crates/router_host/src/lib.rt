//! One router's turn: an engine, the connections that it serves, and the mail of their slots.
//!
//! A [`Host`] is told what happens: a connection came, its socket can be read or written, mail came
//! for a slot. A turn serves what is ready. Bytes that a [`Socket`] gives go to the engine, what
//! the engine writes goes to the connection's outgoing bytes, and what it puts goes to other
//! routers by a [`Post`]. The host waits for nothing and knows no clock: the loop round it does.
//!
//! ```
//! use bus_view::BusView;
//! use router_core::Gate;
//! use router_host::{Ended, Host, Post, Socket};
//!
//! /// A connection comes, and can be read: what is over after a turn.
//! fn serve_turn<V: BusView, G: Gate, P: Post<V>, S: Socket>(
//!     host: &mut Host<V, G, P, S>,
//!     right: &V::Right,
//!     socket: S,
//! ) -> Option<Vec<Ended>> {
//!     let key = host.open(right, socket, None).ok()?;
//!     host.readable(key, false);
//!     host.turn(right).ok()?;
//!     Some(host.take_ended())
//! }
//! ```
#![tactic(auto)]

mod closing;
mod events;
mod host;
mod kept;
mod login_time;
mod mail;
mod opening;
mod serving;
mod trace;
mod turn;

pub use host::Host;
pub use opening::OpenFault;
pub use router_host_core::{
    EndCause, Ended, NoRoom, Post, Refusal, Socket, StartRequest, TooManyStarts, Written,
};
