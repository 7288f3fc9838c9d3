//! What a view of a bus counts and notes.

use crate::batches::hellos;
use crate::plain::open;
use bus_view::{BusView, CheapCopy};
use seq_bus::SeqBus;
use seq_bus_core::Change;
use std::process::Abort;
use test_support::once_more;

/// How many changes a view saw and made, and where the last of its own stands.
fn counts<V: BusView>(view: &V) -> (u64, u64, u64) {
    (view.place(), view.made(), view.last())
}

/// Makes a batch, once more where one allocation failed, and then a change.
fn counts_after<V: BusView>(
    view: &mut V,
    right: &V::Right,
    changes: Vec<Change>,
) -> Option<(u64, u64, u64)> {
    if count_made(view, right, changes)? != view.made() {
        return None;
    }
    let hello = Change::Hello { privileged: false };
    if let Err(refused) = view.change(right, hello) {
        view.change(right, refused.change).ok()?;
    }
    Some(counts(view))
}

/// Makes a batch, once more where one allocation failed: how many changes are told.
fn count_made<V: BusView>(view: &mut V, right: &V::Right, changes: Vec<Change>) -> Option<u64> {
    let made = match view.change_all(right, changes) {
        Ok(made) => made,
        Err(refused) => view.change_all(right, refused.changes).ok()?,
    };
    Some(made.0.len() as u64)
}

/// Takes the note that a plain bus made last, and says of which seat it is.
fn seat_noted(bus: &mut SeqBus) -> Option<u8> {
    let note = bus.note()?;
    bus.take_note(&note.copy());
    Some(BusView::seat(bus))
}

#[test]
fn view_counts_and_notes_its_changes(rt: HostRuntime) {
    let mut bus = open(&rt, rt.alloc(), &[], 1);
    let is_new = counts(&bus) == (0, 0, 0) && seat_noted(&mut bus).is_none();
    let changes = once_more!(&rt; hellos(rt.alloc(), 2));
    let after = counts_after(&mut bus, &(), changes);
    let seat = seat_noted(&mut bus);
    assert!(rt; is_new && after == Some((3, 3, 3)) && seat == Some(1));
    drop(bus);
}
