//! The protocol of the bus itself: calls of its methods are read here, and its own messages are
//! written.
//!
//! [`read_call`] reads a call to the bus with typed arguments, or tells the fault that the call
//! alone shows. What is answered is written by [`write_reply`] and [`write_error`], and signals of
//! the bus by [`write_signal`]. `specs/Calls` and `specs/OwnMessages` say which call a message is,
//! and which messages these are. ("Message Bus Messages" of the D-Bus Specification.) Nothing here
//! knows of connections or of a bus's state.
//!
//! ```
//! use driver::{Call, DriverFault, is_call_to_bus, read_call};
//! use message_core::Message;
//! use names::BusName;
//! use std::alloc::Global;
//!
//! /// The name that a message requests, if it is a call to the bus that does.
//! fn name_requested(alloc: Global, message: &Message) -> Result<Option<BusName>, DriverFault> {
//!     if !is_call_to_bus(message) {
//!         return Ok(None);
//!     }
//!     Ok(match read_call(alloc, message)? {
//!         Call::RequestName { name, .. } => Some(name),
//!         _ => None,
//!     })
//! }
//! ```
#![tactic(auto)]

mod arguments;
mod call;
mod error_words;
mod fault;
mod fields;
mod held_rule;
mod layout;
mod method;
mod reply;
mod signal;
mod strings;

pub use call::{Call, expects_reply, is_call_to_bus, is_hello, read_call};
pub use error_words::{error_name, error_text};
pub use fault::DriverFault;
pub use held_rule::HeldRule;
pub use reply::{BodyKind, ReplyBody, ReplyTo, SpelledBody, write_error, write_reply};
pub use signal::write_signal;
