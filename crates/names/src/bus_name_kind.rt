//! What a bus name names.

/// What a bus name names.
#[derive(Clone, Copy, Debug, PartialEq, Eq)]
pub enum BusNameKind {
    /// The bus itself.
    Bus,
    /// One connection.
    Unique,
    /// The owner of a well-known name.
    WellKnown,
}
