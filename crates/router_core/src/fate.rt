//! What becomes of a connection.

use crate::cause::CloseCause;

/// What becomes of a connection once a message of it was served.
#[derive(Clone, Copy, Debug, PartialEq, Eq)]
pub enum PeerFate {
    /// It stays as it is.
    Stays,
    /// It is a monitor from now on. (D-Bus Specification:
    /// "org.freedesktop.DBus.Monitoring.BecomeMonitor")
    Watches,
    /// The bus closes it.
    Closes(CloseCause),
}
