//! Messages of the D-Bus wire protocol: what they are, and reading one whole message.
//!
//! `specs/` says which bytes are which message, what the first bytes of a stream announce, and how
//! a stream is cut into messages, after "Message Protocol" of the D-Bus Specification.
//!
//! ```
//! use marshal_core::Order;
//! use match_rules::MessageKind;
//! use message_core::{Header, Message};
//! use names::{Interface, Member, ObjectPath};
//! use std::alloc::Global;
//!
//! /// A signal without arguments.
//! fn ticked(alloc: Global) -> Option<Message> {
//!     let header = Header {
//!         order: Order::Little,
//!         kind: MessageKind::Signal,
//!         flags: 0,
//!         serial: 1,
//!         path: Some(ObjectPath::parse("/com/example/Clock").ok()?),
//!         interface: Some(Interface::parse("com.example.Clock").ok()?),
//!         member: Some(Member::parse("Ticked").ok()?),
//!         error_name: None,
//!         reply_serial: None,
//!         destination: None,
//!         sender: None,
//!     };
//!     Message::new(alloc, &header, &[]).ok()
//! }
//! ```
#![tactic(auto)]

mod announcement;
mod basic_field;
mod fault;
mod field_order;
mod field_place;
mod header;
mod header_field;
mod header_fields;
pub mod in_room;
mod message;
mod own_message;
mod printing;
mod reading;
mod writing;

pub use announcement::{FIXED_LENGTH, MAXIMUM_FIELDS, MAXIMUM_LENGTH, announced_length};
pub use fault::{FaultCode, FrameFault};
pub use field_place::FieldPlace;
pub use header::{ALLOW_INTERACTIVE_AUTHORIZATION, Header, NO_AUTO_START, NO_REPLY_EXPECTED};
pub use header_field::HeaderField;
pub use message::{Message, one_reading};
pub use own_message::one_writing;
pub use writing::lay_out;
