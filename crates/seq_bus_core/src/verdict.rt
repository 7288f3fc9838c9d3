//! Where a message goes.

ghost use Rattle.std.specs.Prelude.{◌≡◌, []};
ghost use Rattle.seq_bus_core.specs.Recipients.{verdict};
ghost use Rattle.seq_bus_core.specs.declared.verdict.VerdictKind.TheVariants.{Absent};

use crate::Recipients;

/// What becomes of a message.
#[derive(Clone, Copy, Debug, PartialEq, Eq)]
pub enum VerdictKind {
    /// It is delivered to its recipients.
    Plain,
    /// It is for the bus itself.
    Bus,
    /// It is a call to a service that is to be started.
    Start,
    /// Nobody gets it.
    Nobody,
    /// Its sender has left or become a monitor.
    Absent,
}

/// Where a message goes, and which monitors are shown it.
#[derive(Debug, Drop)]
pub struct Verdict {
    pub kind: VerdictKind,
    /// Its recipients, by rising number.
    pub to: Recipients,
    /// The monitors that are shown it, by rising number.
    pub monitors: Recipients,
}

impl Verdict {
    /// A verdict that says nothing yet: nobody gets the message.
    pub fn new() -> Self
        ensures { result ≡ verdict Absent [] [] }
    {
        Verdict {
            kind: VerdictKind::Absent,
            to: Recipients::new(),
            monitors: Recipients::new(),
        }
    }

    /// It says nothing any more. A verdict is large: it is told once more where it stands, and not
    /// moved.
    pub fn clear(&mut self)
        ensures { self.new ≡ verdict Absent [] [] }
    {
        self.kind = VerdictKind::Absent;
        self.to.clear();
        self.monitors.clear();
    }
}
