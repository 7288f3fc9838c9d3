//! The engine of a router.
//!
//! An [`Engine`] serves connections over any view of a bus, one event after the other, each as
//! `router_core` defines its script. An engine over a [`Traced`] view hands out the lines of its
//! trace.
//!
//! ```
//! use bus_view::BusView;
//! use router::Engine;
//! use router_core::{Event, Gate};
//! use std::alloc::AllocError;
//!
//! /// A connection comes, and bytes of it: whether they are a whole message, to be served next.
//! fn comes<V: BusView, G: Gate>(
//!     engine: &mut Engine<V, G>,
//!     right: &V::Right,
//!     piece: Vec<u8>,
//! ) -> Result<bool, AllocError> {
//!     let key = engine.free_key();
//!     let mut opened = Event::Opened {
//!         key,
//!         challenge: None,
//!     };
//!     engine.event(right, &mut opened)?;
//!     engine.event(right, &mut Event::Bytes { key, piece })?;
//!     Ok(engine.has_next(key))
//! }
//! ```
#![tactic(auto)]

mod activation;
mod calls;
mod engine;
mod hello;
mod joining;
mod leaving;
mod login;
mod mail;
mod messages;
mod naming;
mod next;
mod peers;
mod routing;
mod starting;
mod starts;
mod tick;
mod trace;
mod turn;
mod watching;

pub use bus_trace::Traced;
pub use engine::Engine;
pub use login::Login;
