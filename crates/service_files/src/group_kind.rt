//! Groups of a service file.

/// What group a line stands in.
#[derive(Clone, Copy, Debug, PartialEq, Eq)]
pub(crate) enum GroupKind {
    /// None has begun.
    BeforeGroups,
    /// The group that describes the service.
    Service,
    /// Another one.
    Elsewhere,
}
