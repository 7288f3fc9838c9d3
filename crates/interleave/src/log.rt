//! What is logged of a world.

use bus_view::Asked;
use match_rules::Facts;
use seq_bus_core::{Change, Outcome, Query, Verdict};

/// A question, and what it is answered.
#[derive(Drop)]
pub enum Exchange<'a> {
    /// What a change was told.
    Outcome {
        change: &'a Change,
        outcome: Outcome,
    },
    /// What a query was answered: the body of the reply, in little-endian order as from offset 0
    /// on, or none.
    Body {
        query: &'a Query,
        asked: Asked,
        body: Vec<u8>,
    },
    /// Where a message goes.
    Verdict {
        from: u64,
        facts: &'a Facts<'a>,
        verdict: Box<Verdict>,
    },
    /// Whether there is a connection of this number.
    Presence {
        number: u64,
        present: bool,
    },
}

/// What a seat was answered.
#[derive(Drop)]
pub struct LogLine<'a> {
    pub seat: u8,
    /// The length of the history that was read; of a change its place in the history, from 1.
    pub place: usize,
    pub exchange: Exchange<'a>,
}

/// All that the seats were answered, in order.
#[derive(Drop)]
pub struct Log<'a> {
    pub lines: Vec<LogLine<'a>>,
}
