//! Messages out of a stream, and messages that the bus relays: a checked message written again with
//! its sender's name, and what rules and routing look at in it.
//!
//! What a message is stands in `message_core`. `specs/Framing` says what a `Framer` holds and when
//! it waits, and the others which bytes a message is written as and what setting its sender is,
//! after "Message Protocol", "Message Format" and "Header Fields" of the D-Bus Specification.
//!
//! ```
//! use message::{FrameFault, Framer, Message};
//! use std::alloc::Global;
//!
//! /// The first message of a stream that comes in pieces, if none of its bytes is missing.
//! fn first_message(alloc: Global, stream: &[u8]) -> Result<Option<Message>, FrameFault> {
//!     let mut framer = Framer::new(alloc);
//!     for piece in stream.chunks(20) {
//!         framer.feed(piece)?;
//!     }
//!     framer.next()
//! }
//! ```
#![tactic(auto)]

mod fault;
mod framer;
mod layout;
mod message_facts;
mod parts;
mod putting;
mod relaying;

pub use fault::RelayFault;
pub use framer::{Framer, one_stream};
pub use message_core::{
    ALLOW_INTERACTIVE_AUTHORIZATION, FaultCode, FrameFault, Header, HeaderField, MAXIMUM_LENGTH,
    Message, NO_AUTO_START, NO_REPLY_EXPECTED,
};
pub use message_facts::{facts, first_arguments, put_arguments};
pub use relaying::{relay, relayed_length, with_sender, write};
