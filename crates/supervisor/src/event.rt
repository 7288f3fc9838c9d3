//! What happens to started programs.

use names::BusName;

/// What happens to started programs. A start is named by its number, which the bus gave it.
#[derive(Clone, Copy, Debug, PartialEq, Eq)]
pub enum Event {
    /// The bus asks for a start of the service of this name.
    Asked { name: BusName, start: u64 },
    /// The program of the start runs.
    Ran { start: u64 },
    /// The program of the start could not be run.
    NotRun { start: u64 },
    /// The program of the start exited with a status.
    Exited { start: u64, status: u64 },
    /// The program of the start was killed by a signal.
    Killed { start: u64 },
    /// Time has passed: the moment, in milliseconds of any clock. One before the last one counts as
    /// the last one.
    Tick { now: u64 },
}
