//! The steps that a router's engine makes for one connection.
//!
//! [`Context`] is what an engine works with while an event is served: the view of the bus, the gate
//! and the actions so far. Each of its methods makes one step of the scripts that `router_core`
//! defines. [`Peer`] is one connection.
//!
//! ```
//! use bus_view::BusView;
//! use router_core::{Action, CloseCause, OpenGate};
//! use router_steps::{Context, Peer, Stage};
//! use std::alloc::{AllocError, Global};
//!
//! /// The step that closes a connection which began with no Hello, and the action that it makes.
//! fn closes<V: BusView + Drop>(alloc: Global, bus: V) -> Result<bool, AllocError> {
//!     let mut context = Context::new(alloc, bus, OpenGate)?;
//!     let mut peer = Peer::new(alloc, Stage::Unnamed { privileged: false });
//!     context.reserve(1)?;
//!     context.close_peer(0, &mut peer, CloseCause::NotHello);
//!     let actions = context.take_actions();
//!     Ok(matches!(
//!         actions.as_slice(),
//!         [Action::Close {
//!             key: 0,
//!             cause: CloseCause::NotHello
//!         }]
//!     ))
//! }
//! ```
#![tactic(auto)]

mod closing;
mod context;
mod conversing;
mod failing;
mod first;
mod hello_errors;
mod incoming;
mod leaving;
mod mail;
mod peer;
mod relaying;
mod releasing;
mod replies;
mod room;
mod trace;
mod upcoming;
mod verdicts;

pub use context::Context;
pub use first::HelloCall;
pub use hello_errors::HelloErrors;
pub use incoming::Incoming;
pub use mail::bytes_of;
pub use peer::{Peer, Stage};
pub use replies::is_method_call;
pub use upcoming::Upcoming;
