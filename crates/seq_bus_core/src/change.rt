//! Changes of the bus.

use crate::{MonitorRules, SharedBytes};
use match_rules::Rule;
use names::BusName;
use owner_queues::RequestFlags;

/// What is needed to reply to a call that waits.
#[derive(Clone, Copy, Debug, PartialEq, Eq)]
pub struct CallHead {
    /// The serial of the call.
    pub serial: u32,
    /// The flags of its header.
    pub flags: u8,
}

/// How the program of a start ended.
#[derive(Clone, Copy, Debug, PartialEq, Eq)]
pub enum Ending {
    /// It exited with a status.
    Exit(u64),
    /// It was killed by a signal.
    Killed,
    /// It could not be run.
    NotRun,
}

/// A change of the bus. A connection is named by its number, `n` in its unique name `:1.n`.
#[derive(Drop)]
pub enum Change {
    /// A connection says Hello. It is privileged where it proved to be its user's.
    Hello {
        privileged: bool,
    },
    /// A connection is closed.
    Leave {
        connection: u64,
    },
    /// RequestName.
    Request {
        connection: u64,
        name: BusName,
        flags: RequestFlags,
    },
    /// ReleaseName.
    Release {
        connection: u64,
        name: BusName,
    },
    /// AddMatch.
    AddMatch {
        connection: u64,
        rule: Rule,
    },
    /// RemoveMatch.
    RemoveMatch {
        connection: u64,
        rule: Rule,
    },
    /// BecomeMonitor.
    BecomeMonitor {
        connection: u64,
        rules: MonitorRules,
    },
    /// StartServiceByName.
    Start {
        connection: u64,
        name: BusName,
        call: CallHead,
    },
    /// A call to a name without an owner, which is to wait until the name's service runs.
    Hold {
        connection: u64,
        name: BusName,
        call: CallHead,
        message: SharedBytes,
    },
    /// The program of a start ended.
    ChildEnded {
        name: BusName,
        start: u64,
        how: Ending,
    },
    /// The program of a start did not take its name in time.
    StartTimedOut {
        name: BusName,
        start: u64,
    },
}
