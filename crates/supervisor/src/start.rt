//! Starts that are waited for.

ghost use Rattle.std.specs.Prelude.{◌≡◌, find, option_map};

use names::BusName;

/// How long a program has to take its name, in milliseconds.
pub const START_TIMEOUT: u64 = 25_000;

/// A start whose program has not taken its name yet, as far as is known.
#[derive(Clone, Copy, Debug, PartialEq, Eq)]
pub struct Start {
    /// The name of its service.
    pub name: BusName,
    pub number: u64,
    /// The moment when it was asked for, in milliseconds.
    pub since: u64,
}

impl Start {
    ghost use Rattle.supervisor.specs.Supervising.{due_of, is_late};

    /// Whether its program has had its time at this moment.
    pub(crate) fn is_late(&self, now: u64) -> bool
        ensures { result ≡ is_late now self.now }
    {
        START_TIMEOUT <= now.saturating_sub(self.since)
    }

    /// The moment from which on its program has had its time.
    pub(crate) fn due(&self) -> u64
        ensures { result ≡ due_of self.now }
    {
        START_TIMEOUT.saturating_add(self.since)
    }
}
