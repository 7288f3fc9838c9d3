//! Who a client turned out to be.

/// Who a client turned out to be.
#[derive(Clone, Copy, Debug, PartialEq, Eq)]
pub enum Identity {
    /// The user whose cookie it knows. (D-Bus Specification: "DBUS_COOKIE_SHA1".)
    User,
    /// Nobody in particular. (D-Bus Specification: "ANONYMOUS".)
    Anonymous,
}
