//! Reading values of the D-Bus wire format from bytes, and writing them.
//!
//! The definitions stand in `marshal_core`: what bytes spell which values (`Spelling`), and which
//! fault is told of bytes that spell none (`Reading`); which fault is told of values that have no
//! bytes stands in `Writing`.
//!
//! ```
//! use marshal::{BasicValue, MarshalFault, Order, Signature, Value, decode, encode};
//! use std::alloc::Global;
//!
//! fn comes_back(alloc: Global) -> Result<bool, MarshalFault> {
//!     let mut values = Vec::new(alloc);
//!     values.push(Value::Basic(BasicValue::Uint32(7)))?;
//!     let mut bytes = Vec::new(alloc);
//!     encode(alloc, Order::Little, 0, &values, &mut bytes)?;
//!     let signature = Signature::parse(alloc, "u")?;
//!     let (read, length) = decode(alloc, Order::Little, 0, &signature, &bytes)?;
//!     Ok(length == 4 && read == values)
//! }
//! ```
#![tactic(auto)]

mod basic;
mod decoding;
mod encoding;
mod endian;
mod fixed;
pub mod parts;
mod text;
mod type_text;

pub use decoding::{decode, one_spelling, one_text};
pub use encoding::encode;
pub use marshal_core::{BasicType, BasicValue, DataType, MarshalFault, Order, Signature, Value};
