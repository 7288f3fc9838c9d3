//! What is to be looked at.

use std::alloc::Global;
use std::mem;

/// Keys or slots to be looked at in the next turn, in order. Where there was no memory to note one, all are
/// to be looked at.
#[derive(Drop)]
pub(crate) struct Hints {
    /// Those that were noted since it was begun to look.
    noted: Vec<usize>,
    /// All are to be looked at.
    is_all: bool,
    /// Those that are looked at now.
    current: Vec<usize>,
    /// The first of all, where all are looked at now.
    first: Option<usize>,
    /// How many were looked at.
    looked: usize,
}

impl Hints {
    pub(crate) fn new(alloc: Global) -> Hints {
        Hints {
            noted: Vec::new(alloc),
            is_all: false,
            current: Vec::new(alloc),
            first: None,
            looked: 0,
        }
    }

    /// A key is to be looked at.
    pub(crate) fn add(&mut self, key: usize) {
        if self.noted.push(key).is_err() {
            self.is_all = true;
        }
    }

    /// All keys are to be looked at.
    pub(crate) fn add_all(&mut self) {
        self.is_all = true;
    }

    pub(crate) fn is_empty(&self) -> bool {
        !self.is_all && self.noted.is_empty()
    }

    /// Begins to look at what was noted, or at all keys, which are so many from the first. Tells how
    /// many are to be looked at. What is noted from now on is for the next time.
    pub(crate) fn begin(&mut self, first: usize, count: usize) -> usize {
        mem::swap(&mut self.noted, &mut self.current);
        self.noted.clear();
        self.looked = 0;
        if mem::replace(&mut self.is_all, false) {
            self.first = Some(first);
            return count;
        }
        self.first = None;
        self.current.len()
    }

    /// The next key to be looked at.
    pub(crate) fn next(&mut self) -> Option<usize> {
        let place = self.looked;
        self.looked = place.saturating_add(1);
        match self.first {
            Some(first) => Some(first.saturating_add(place)),
            None => self.current.get(place).copied(),
        }
    }
}
