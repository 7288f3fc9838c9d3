//! Why a connection is over.

use router_core::CloseCause;
use std::fmt;

/// Why a connection is over.
#[derive(Clone, Copy, Debug, PartialEq, Eq)]
pub enum EndCause {
    /// The router closed it.
    Closed(CloseCause),
    /// Its input came to an end.
    EndOfInput,
    /// The other side closed its socket while there was something to be read or written.
    HungUp,
    /// Its socket could not be read.
    Unreadable,
    /// Its socket could not be written.
    Unwritable,
    /// There was no memory for bytes that were written to it.
    NoMemory,
    /// It had no name in time.
    Silent,
}

impl fmt::Display for EndCause {
    fn fmt<W: fmt::Write>(&self, f: &mut fmt::Formatter<W>) -> fmt::Result {
        match self {
            EndCause::Closed(cause) => write!(f, "closed: {cause}"),
            EndCause::EndOfInput => write!(f, "end of input"),
            EndCause::HungUp => write!(f, "hung up"),
            EndCause::Unreadable => write!(f, "device: input"),
            EndCause::Unwritable => write!(f, "device: output"),
            EndCause::NoMemory => write!(f, "memory"),
            EndCause::Silent => write!(f, "no name in time"),
        }
    }
}

/// A connection that is over.
#[derive(Clone, Copy, Debug, PartialEq, Eq)]
pub struct Ended {
    pub key: usize,
    /// Its number, `n` in its unique name `:1.n`, where it has one.
    pub number: Option<u64>,
    pub cause: EndCause,
}
