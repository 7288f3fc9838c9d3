//! The errors that the bus replies with.

/// An error that the bus replies with. (D-Bus Specification: "Error names", "Message Bus
/// Messages".)
#[derive(Clone, Copy, Debug, PartialEq, Eq)]
pub enum ErrorKind {
    Failed,
    NoMemory,
    LimitsExceeded,
    AccessDenied,
    InvalidArgs,
    UnknownMethod,
    UnknownInterface,
    ServiceUnknown,
    NameHasNoOwner,
    MatchRuleInvalid,
    MatchRuleNotFound,
    TimedOut,
    /// The program of a service could not be run.
    ExecFailed,
    /// The program of a service exited with another status than 0.
    ChildExited,
    /// The program of a service was killed.
    ChildSignaled,
}
