//! Verdicts.

ghost use Rattle.std.specs.Prelude.{◌≡◌};
ghost use Rattle.trace_check_core.specs.Verdicts.{cause_code};

/// What is wrong with a line of a trace.
#[derive(Clone, Copy, Debug, PartialEq, Eq)]
pub enum Cause {
    /// It is no line of a trace, or a line of the head out of its place.
    Form,
    /// It is out of the order of its seat.
    Order,
    /// It is a change where another one stands, or stands above all changes.
    Place,
    /// It records something else than the bus tells there.
    Content,
}

impl Cause {
    /// The number that stands for the cause.
    pub fn code(self) -> u8
        ensures { result ≡ cause_code self }
    {
        match self {
            Cause::Form => 70,
            Cause::Order => 71,
            Cause::Place => 72,
            Cause::Content => 73,
        }
    }
}

/// Whether a trace is one of a bus.
#[derive(Clone, Copy, Debug, PartialEq, Eq)]
pub enum Verdict {
    /// One history explains all of so many lines behind the head.
    Yes { lines: u64 },
    /// The least line, from 1, of the first cause that has one.
    No { line: u64, cause: Cause },
}
