//! Entries of a history.

use crate::Change;

/// A change that was made.
#[derive(Drop)]
pub struct Entry {
    /// The seat that made it: 0 for the main thread, else a router's number.
    pub seat: u8,
    /// Its number among the changes of that seat, from 1.
    pub number: u64,
    pub change: Change,
    /// How many changes of the same publication follow it.
    pub left: u8,
}
