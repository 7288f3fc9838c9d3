//! A line of a trace.

use trace_words::{Parts, Route};

/// What a line tells of.
#[derive(Drop)]
pub enum Subject<'a> {
    /// A change.
    Change {
        /// Its number among the changes of its seat, from 1.
        number: u64,
        change: seq_bus_core::Change,
    },
    /// A query.
    Query(seq_bus_core::Query),
    /// A message that was routed.
    Route(Route<'a>),
}

/// A line of a trace behind its head. Its words are lent out of its text.
#[derive(Drop)]
pub struct Line<'a> {
    /// The place of a change in the history, from 1; else how many changes were seen.
    pub place: u64,
    /// 0 for the main thread, else a router's number.
    pub seat: u64,
    pub subject: Subject<'a>,
    /// The words behind the arrow.
    pub(crate) recorded: Parts<'a>,
}
