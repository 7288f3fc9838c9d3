//! The desk of a router.

ghost use Rattle.std.specs.Prelude.{◌≡◌};

use crate::seat::Seat;
use crate::shared::Shared;
use bus_view::{AskFault, Asked, BusView, Gone, Refused, RefusedAll};
use match_rules::Facts;
use registry_snapshots_core::{Naming, Note};
use seq_bus_core::{Change, Outcome, Query, Verdict};
use std::marker::{Model, PhantomData};
use std::sync::Wait;

/// A seat, with what it takes to make changes but for the right to wait.
///
/// Its reads wait for no lock, and all but queries take no memory. A change waits for the lock of
/// the registry, and for readers of the copy that it brings up. Contracts see what they see of the
/// seat.
pub struct Desk<'a, J: Naming, R: Wait> {
    seat: Seat<J>,
    shared: &'a Shared<J>,
    right: PhantomData<R>,
}

impl<'a, J: Naming, R: Wait> Model for Desk<'a, J, R> {
    ghost use Rattle.registry_snapshots.specs.Seats.{SeatView};

    ghost Value = { SeatView };

    ghost view = { λ d. d.seat };
}

impl<J: Naming, R: Wait> Drop for Desk<'_, J, R> {
    fn drop(self) {
        let Desk {
            seat,
            shared: _,
            right: _,
        } = self;
        drop(seat);
    }
}

impl<'a, J: Naming, R: Wait> Desk<'a, J, R> {
    /// The desk of a seat of this registry.
    pub fn new(seat: Seat<J>, shared: &'a Shared<J>) -> Self
        ensures { result ≡ seat }
    {
        Desk {
            seat,
            shared,
            right: PhantomData,
        }
    }
}

impl<'a, J: Naming, R: Wait> BusView for Desk<'a, J, R> {
    ghost use Rattle.std.specs.Prelude.{false};
    ghost use Rattle.registry_snapshots.specs.Seats.{knowledge_of};

    type Note = Note<J>;

    type Right = R;

    ghost alone = { false };

    ghost knows = { knowledge_of J.book J.opening };

    ghost told = { λ n. n };

    ghost registry_of = { λ _. J.book.number };

    fn change(&mut self, right: &R, change: Change) -> Result<(Outcome, Note<J>), Refused> {
        self.seat.change(right, self.shared, change)
    }

    fn change_all(
        &mut self,
        right: &R,
        changes: Vec<Change>,
    ) -> Result<(Vec<Outcome>, Note<J>), RefusedAll> {
        self.seat.change_all(right, self.shared, changes)
    }

    fn ask(&mut self, query: &Query, body: &mut Vec<u8>) -> Result<Asked, AskFault> {
        self.seat.ask(query, body)
    }

    fn route(&mut self, from: u64, facts: &Facts<'_>) -> Result<Verdict, Gone> {
        self.seat.route(from, facts)
    }

    fn route_into(
        &mut self,
        from: u64,
        facts: &Facts<'_>,
        found: &mut Verdict,
    ) -> Result<(), Gone> {
        self.seat.route_into(from, facts, found)
    }

    fn present(&mut self, number: u64) -> Result<bool, Gone> {
        self.seat.present(number)
    }

    fn is_watched(&self) -> bool {
        self.seat.is_watched()
    }

    fn take_note(&mut self, note: &Note<J>) {
        self.seat.take_note(note);
    }

    fn note(&self) -> Option<Note<J>> {
        self.seat.note()
    }

    fn place(&self) -> u64 {
        self.seat.place()
    }

    fn made(&self) -> u64 {
        self.seat.made()
    }

    fn last(&self) -> u64 {
        self.seat.last()
    }

    fn seat(&self) -> u8 {
        self.seat.number()
    }
}
