//! The slots of a router.

use crate::hints::Hints;
use crate::put_out::SLOTS;
use std::alloc::Global;

/// The slots of a router, and those of them that mail may have come for.
#[derive(Drop)]
pub struct Slots {
    first: u16,
    count: u16,
    hints: Hints,
    is_noted: [bool; SLOTS],
}

impl Slots {
    /// So many slots from the first, for which no mail came.
    pub fn new(alloc: Global, first: u16, count: u16) -> Slots {
        Slots {
            first,
            count,
            hints: Hints::new(alloc),
            is_noted: [false; SLOTS],
        }
    }

    /// Whether a slot is one of these.
    pub fn contains(&self, slot: u16) -> bool {
        slot >= self.first && slot - self.first < self.count
    }

    /// Mail may have come for a slot.
    pub fn note(&mut self, slot: u16) {
        let Some(is_noted) = self.is_noted.get_mut(usize::from(slot)) else {
            return;
        };
        if !*is_noted {
            *is_noted = true;
            self.hints.add(usize::from(slot));
        }
    }

    /// Mail was put for a slot, which may be another router's.
    pub fn note_own(&mut self, slot: u16) {
        if self.contains(slot) {
            self.note(slot);
        }
    }

    /// Mail may have come for all of them.
    pub fn note_all(&mut self) {
        self.hints.add_all();
    }

    /// Whether no mail came that was not looked for.
    pub fn is_empty(&self) -> bool {
        self.hints.is_empty()
    }

    /// Begins to look at the slots that mail may have come for. Tells how many there are.
    pub fn begin(&mut self) -> usize {
        self.hints
            .begin(usize::from(self.first), usize::from(self.count))
    }

    /// The next slot that mail may have come for.
    pub fn next(&mut self) -> Option<u16> {
        u16::try_from(self.hints.next()?).ok()
    }

    /// The slot is looked at.
    pub fn look_at(&mut self, slot: u16) {
        if let Some(is_noted) = self.is_noted.get_mut(usize::from(slot)) {
            *is_noted = false;
        }
    }
}
