//! The byte order of a message.

/// The order of a number's bytes: the lowest byte first, or the highest ("Marshaling (Wire
/// Format)" of the D-Bus Specification).
#[derive(Clone, Copy, Debug, PartialEq, Eq)]
pub enum Order {
    Little,
    Big,
}
