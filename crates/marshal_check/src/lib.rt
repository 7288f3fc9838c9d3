//! Checking where they lie the bytes of the D-Bus wire format.
//!
//! `check` says of bytes what `marshal::decode` says of them, and takes no memory, since it builds
//! no values. The types are given as `Types`, a signature that borrows its text.
//!
//! ```
//! use marshal_check::{BodyArgument, Arguments, Types, check};
//! use marshal_core::{MarshalFault, Order};
//!
//! /// The text of a body that is to be a string and a number, lent out of it.
//! fn text_of(body: &[u8]) -> Result<Option<&str>, MarshalFault> {
//!     let types = Types::parse("su")?;
//!     check(Order::Little, 0, types, body)?;
//!     let mut arguments = Arguments::new(Order::Little, 0, types, body);
//!     Ok(match arguments.next() {
//!         Some(BodyArgument::String(text)) => Some(text),
//!         _ => None,
//!     })
//! }
//! ```
#![tactic(auto)]

mod basic;
mod body_arguments;
mod checked_arguments;
mod checked_text;
mod checking;
mod complete_types;
mod letters;
mod one_argument;
mod ownership;
mod recognizing;
mod signature_text;

pub use body_arguments::{Arguments, BodyArgument};
pub use checked_arguments::CheckedArguments;
pub use checking::check;
pub use complete_types::CompleteTypes;
pub use signature_text::Types;
