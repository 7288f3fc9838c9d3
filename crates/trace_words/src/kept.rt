//! Arguments that were read out of hex.

/// An argument of a message, as match rules see it.
#[derive(Debug, Drop)]
pub enum KeptArgument {
    String(String),
    ObjectPath(String),
    /// An argument of another type.
    Other,
}
