//! Why a router closes a connection.

use message_core::FrameFault;
use sasl::AuthenticationFault;
use std::fmt;

/// Why a router closes a connection. It is shown as its code: `66`, or that of the fault, as `28`
/// or `25/9`.
#[derive(Clone, Copy, Debug, PartialEq, Eq)]
pub enum CloseCause {
    /// What it sent is no message.
    Faulty(FrameFault),
    /// A message of it would be too long once it has its sender's name.
    TooLong,
    /// Its first message is not the call of Hello.
    NotHello,
    /// It is a monitor, and sent a message.
    MonitorSent,
    /// It left the bus: another router could not reach it.
    Left,
    /// Its Hello would exceed a limit of the bus.
    LimitsExceeded,
    /// It did not say who it is.
    Unauthenticated(AuthenticationFault),
}

impl fmt::Display for CloseCause {
    fn fmt<W: fmt::Write>(&self, f: &mut fmt::Formatter<W>) -> fmt::Result {
        match self {
            CloseCause::Faulty(fault) => write!(f, "{}", fault.code()),
            CloseCause::TooLong => write!(f, "27"),
            CloseCause::NotHello => write!(f, "64"),
            CloseCause::MonitorSent => write!(f, "65"),
            CloseCause::Left => write!(f, "66"),
            CloseCause::LimitsExceeded => write!(f, "68"),
            CloseCause::Unauthenticated(fault) => write!(f, "{}", fault.code()),
        }
    }
}
