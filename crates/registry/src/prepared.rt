//! Changes that are prepared.

ghost use Rattle.std.specs.Prelude.{◌≡◌, [], None};

use match_rules::Rule;
use names::BusName;
use owner_queues::RequestFlags;
use seq_bus_core::{Conn, Ending, MonitorRules, NumberedOutcome, Reply, Signals, TicketNumbers};
use std::alloc::Global;
use std::marker::Model;
use std::mem::replace;

/// A change by what its step looks at. Names and rules lie on the heap, since they have their fixed
/// room in them: a prepared change is moved often.
#[derive(Drop)]
pub enum Act {
    Hello {
        privileged: bool,
    },
    Leave {
        connection: u64,
    },
    Request {
        connection: u64,
        name: Box<BusName>,
        flags: RequestFlags,
    },
    Release {
        connection: u64,
        name: Box<BusName>,
    },
    AddMatch {
        connection: u64,
        rule: Box<Rule>,
    },
    RemoveMatch {
        connection: u64,
        rule: Box<Rule>,
    },
    BecomeMonitor {
        connection: u64,
        rules: MonitorRules,
    },
    Start {
        connection: u64,
        name: Box<BusName>,
    },
    Hold {
        connection: u64,
        name: Box<BusName>,
    },
    ChildEnded {
        name: Box<BusName>,
        start: u64,
        how: Ending,
    },
    StartTimedOut {
        name: Box<BusName>,
        start: u64,
    },
}

/// A change that a seat makes, with all that it needs of memory. It can be made on any registry.
///
/// Contracts see the seat, the change by what its step looks at, the outcome and the caller.
#[derive(Drop)]
pub struct Prepared {
    pub(crate) seat: u8,
    pub(crate) act: Act,
    pub(crate) outcome: NumberedOutcome,
    /// Where the caller is reached, if the change is a call that may have to wait.
    pub(crate) caller: Option<Conn>,
}

impl Model for Prepared {
    ghost use Rattle.registry.specs.PreparedChanges.{PreparedChange};
    ghost use Rattle.registry.specs.Acts.{change_of};

    ghost Value = { PreparedChange };

    ghost view = { λ p. record {
      seat = p.seat;
      change = change_of p.act;
      outcome = p.outcome;
      caller = p.caller;
    } };
}

impl Prepared {
    /// What the change is told, where it was prepared.
    pub fn outcome(&self) -> &NumberedOutcome
        ensures { result.now ≡ self.now.outcome }
    {
        &self.outcome
    }

    /// Where the caller of the change was reached when it was prepared, if it is a call that may
    /// have to wait: a Start or a Hold.
    pub fn caller(&self) -> Option<Conn>
        ensures { result ≡ self.now.caller }
    {
        self.caller
    }

    /// Takes the outcome out. What is left of it is its reply.
    pub fn take_outcome(&mut self, alloc: Global) -> NumberedOutcome
        ensures taken { result ≡ self.old.outcome }
        ensures kept { self.new
            ≡ record self.old {
              outcome = record {
                reply = self.old.outcome.reply;
                signals = [];
                tickets = [];
                start = None;
              };
            } }
    {
        let reply = self.outcome.reply;
        replace(&mut self.outcome, replied(alloc, reply))
    }
}

/// Nothing else than a reply.
pub(crate) fn replied(alloc: Global, reply: Reply) -> NumberedOutcome
    ensures { result ≡ record { reply = reply; signals = []; tickets = []; start = None } }
{
    NumberedOutcome {
        reply,
        signals: Signals::new(alloc),
        tickets: TicketNumbers::new(alloc),
        start: None,
    }
}
