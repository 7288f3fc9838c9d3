//! The limits of the wire format. (D-Bus Specification: "Marshaling (Wire Format)")

/// The longest text of a signature, in bytes.
pub const MAX_SIGNATURE_LENGTH: usize = 255;

/// The deepest that arrays may stand in one another in a signature.
pub const MAX_ARRAY_NESTING: u8 = 32;

/// The deepest that structs may stand in one another in a signature.
pub const MAX_STRUCT_NESTING: u8 = 32;

/// The most bytes that the elements of an array have.
pub const MAX_ARRAY_LENGTH: usize = 67_108_864;

/// The most containers of a value that may stand in one another.
pub const MAX_CONTAINER_DEPTH: u8 = 64;
