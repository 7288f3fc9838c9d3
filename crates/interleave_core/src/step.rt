//! The steps of a world.

use match_rules::Facts;
use seq_bus_core::{Change, Query};

/// What a seat reads of the bus.
#[derive(Drop)]
pub enum Question<'a> {
    /// What a query is answered.
    Ask(Query),
    /// Where a message from a connection goes, 0 being the bus. The sender that the facts name is
    /// not looked at.
    Route { from: u64, facts: Facts<'a> },
    /// Whether there is a connection of this number.
    Present(u64),
}

/// What a seat does. Seat 0 is the main thread's, the others are those of the routers, from 1.
///
/// A place is a length of the history. The ends are the places that publications ended at, and 0.
#[derive(Drop)]
pub enum Step<'a> {
    /// It reads at an end that is not below the place that it has seen.
    Read {
        seat: u8,
        place: usize,
        question: Question<'a>,
    },
    /// It publishes changes together, 1 to 64.
    Publish {
        seat: u8,
        changes: Vec<Change>,
    },
    /// It takes the note of the publication that ended there.
    TakeNote {
        seat: u8,
        place: usize,
    },
    /// It is refused what it would have published.
    Refused {
        seat: u8,
        changes: Vec<Change>,
    },
}
