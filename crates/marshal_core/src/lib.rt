//! Types and values of the D-Bus wire format, and signatures.
//!
//! What bytes spell which values, and which fault of bad bytes is told, are the definitions of
//! `specs/`: `Types`, `Signatures`, `Values`, `Spelling` and `Reading`, after "Type System" and
//! "Marshaling (Wire Format)" of the D-Bus Specification.
//!
//! ```
//! use marshal_core::{BasicType, DataType, MarshalFault, Signature};
//! use std::alloc::Global;
//!
//! fn has_two_types(alloc: Global) -> Result<bool, MarshalFault> {
//!     let signature = Signature::parse(alloc, "ua{sv}")?;
//!     Ok(matches!(
//!         signature.complete_types(),
//!         [
//!             DataType::Basic(BasicType::Uint32),
//!             DataType::Dictionary(BasicType::String, _)
//!         ]
//!     ))
//! }
//! ```
#![tactic(auto)]

mod conversions;
mod data_type;
mod fault;
pub mod laws;
pub mod limits;
mod order;
mod parsing;
mod printing;
mod signature;
mod texts;
mod value;

pub use data_type::{BasicType, DataType};
pub use fault::MarshalFault;
pub use order::Order;
pub use signature::Signature;
pub use value::{BasicValue, Value};
