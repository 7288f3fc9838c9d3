//! Lines of a server.

/// What a line of a client is answered: a line of the server, or none. (D-Bus Specification:
/// "Protocol Overview".)
#[derive(Clone, Copy, Debug, PartialEq, Eq)]
pub(crate) enum ServerLine {
    /// DATA with the cookie's context and number, and the server's challenge.
    Challenge,
    /// DATA, which asks for the user's name.
    AskName,
    /// OK: the client is who it says.
    Accept,
    /// REJECTED.
    Reject,
    /// ERROR.
    NotUnderstood,
    /// BEGIN is not answered.
    Silence,
}
