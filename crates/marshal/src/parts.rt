//! Readers of the parts of values, for crates that look at bytes in place, and the codes of types
//! and of values.
//!
//! Each reader is given the place in the message where the bytes begin, and the fault that is told
//! where they end too early; it gives what it read, the place after it and the bytes there, and
//! takes no memory ("Marshaling (Wire Format)" of the D-Bus Specification).

pub use crate::decoding::array_bytes;
pub use crate::endian::Endian;
pub use crate::fixed::{boolean, byte, fixed, number32, padding};
pub use crate::text::{path, short_text, string};
pub use crate::type_text::{type_code, type_codes, value_codes};
