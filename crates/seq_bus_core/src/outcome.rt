//! What a change is told.

ghost use Rattle.std.specs.Prelude.{◌≡◌, []};

use crate::{Conn, Signals, TicketNumbers, Tickets};
use owner_queues::Reply as QueueReply;
use std::alloc::Global;

/// The reply to a change.
#[derive(Clone, Copy, Debug, PartialEq, Eq)]
pub enum Reply {
    /// The connection is not there, or is a monitor. Nothing changed.
    Gone,
    /// A limit of the bus would be exceeded. Nothing changed.
    LimitsExceeded,
    /// The change was made.
    Done,
    /// The connection that said Hello.
    Welcome(Conn),
    /// What RequestName or ReleaseName is answered.
    OfQueue(QueueReply),
    /// The name is no well-known name, or the bus's own.
    InvalidName,
    /// The connection has no equal rule.
    RuleNotFound,
    /// The connection may not become a monitor.
    AccessDenied,
    /// The name has an owner.
    AlreadyRunning,
    /// The call waits, as the ticket of this number.
    Held(u64),
    /// The name has no owner and no service.
    ServiceUnknown,
    /// The name has an owner, to which the message goes.
    Pass(Conn),
    /// The end of a start that no longer runs, or one that changes nothing.
    Ignored,
}

/// What a change is told, its tickets by number alone.
#[derive(Debug, Drop)]
pub struct NumberedOutcome {
    pub reply: Reply,
    /// The signals of the bus, in order.
    pub signals: Signals,
    /// The tickets that wait no longer.
    pub tickets: TicketNumbers,
    /// The number of the start that is asked for.
    pub start: Option<u64>,
}

/// What a change is told.
#[derive(Debug, Drop)]
pub struct Outcome {
    pub reply: Reply,
    /// The signals of the bus, in order.
    pub signals: Signals,
    /// The tickets that wait no longer.
    pub tickets: Tickets,
    /// The number of the start that is asked for.
    pub start: Option<u64>,
}

impl Outcome {
    /// Nothing else than a reply.
    pub fn new(alloc: Global, reply: Reply) -> Self
        ensures { result ≡ record { reply = reply; signals = []; tickets = []; start = None } }
    {
        Outcome {
            reply,
            signals: Signals::new(alloc),
            tickets: Tickets::new(alloc),
            start: None,
        }
    }
}
