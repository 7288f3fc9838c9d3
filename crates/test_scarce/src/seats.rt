//! A registry, changed over the seats of two routers.

use crate::changes::{CHANGES, are_replied, batch, change, clock, maker, reply};
use bus_view::{BatchCause, Cause};
use names::BusName;
use registry_snapshots::{Naming, Seat, Serve, Shared, StartFault, start};
use seq_bus_core::{Change, Conn, Reply};
use std::alloc::Global;
use std::sync::Wait;

/// The second connection, at the second router.
const SECOND: Conn = Conn {
    number: 2,
    slot: 128,
    router: 2,
};

/// The one that comes by a batch of the second router, when the second has left.
const THIRD: Conn = Conn {
    number: 3,
    slot: 128,
    router: 2,
};

/// Whether a registry is opened, changed and read as it should be.
pub fn are_answered<R: Wait>(rt: &R, alloc: Global) -> Option<bool> {
    let served = start(rt, alloc, &[], 2, Changes { rt, alloc });
    if let Err(StartFault::NoMemory) = served {
        start(rt, alloc, &[], 2, Changes { rt, alloc }).ok()?
    } else {
        served.ok()?
    }
}

/// Makes the changes, each connection's at the seat of its router.
#[derive(Drop)]
struct Changes<'a, R> {
    rt: &'a R,
    alloc: Global,
}

impl<'a, R: Wait> Serve for Changes<'a, R> {
    ghost use Rattle.std.specs.Prelude.{[]};
    ghost use Rattle.owner_queues.specs.declared.request.Profile.TheVariants.{Two};
    ghost use Rattle.seq_bus_core.specs.Tickets.{opening_bus};

    type Out = Option<bool>;

    ghost bus = { λ s. opening_bus Two 2 [] };

    fn serve<J: Naming + Send + Sync>(
        self,
        shared: Shared<J>,
        seats: Vec<Seat<J>>,
    ) -> Option<bool> {
        let answered = are_made(self.rt, self.alloc, &shared, seats);
        shared.end(self.rt);
        answered
    }
}

fn are_made<J: Naming, R: Wait>(
    rt: &R,
    alloc: Global,
    shared: &Shared<J>,
    mut seats: Vec<Seat<J>>,
) -> Option<bool> {
    let clock = clock()?;
    let mut second = seats.pop()?;
    let mut first = seats.pop()?;
    for place in 0..CHANGES {
        let change = change(place, clock);
        let told = if maker(place) == 1 {
            made(rt, shared, &second, &mut first, change, &clock)?
        } else {
            made(rt, shared, &first, &mut second, change, &clock)?
        };
        if told != reply(place, SECOND) {
            return Some(false);
        }
    }
    if shown(&mut first, &clock)? != (true, false, Some(1), 1, false) {
        return Some(false);
    }
    are_made_at_once(rt, alloc, shared, &first, &mut second, &clock)
}

/// Whether a batch of the second seat, which sees what the first saw, is told and seen as it should
/// be.
fn are_made_at_once<J: Naming, R: Wait>(
    rt: &R,
    alloc: Global,
    shared: &Shared<J>,
    first: &Seat<J>,
    second: &mut Seat<J>,
    name: &BusName,
) -> Option<bool> {
    if let Some(note) = first.note() {
        second.take_note(&note);
    }
    let before = shown(second, name)?;
    let changes = batch(alloc, *name)?;
    let are_told = told_at_once(rt, shared, second, changes, name)?;
    Some(are_told && shown(second, name)? == before && second.present(3).ok()?)
}

/// Whether the changes of a batch have their replies. One that is refused is made again, and till
/// then the seat reads what it read before.
fn told_at_once<J: Naming, R: Wait>(
    rt: &R,
    shared: &Shared<J>,
    seat: &mut Seat<J>,
    changes: Vec<Change>,
    name: &BusName,
) -> Option<bool> {
    let before = shown(seat, name)?;
    match seat.change_all(rt, shared, changes) {
        Ok((outcomes, _)) => Some(are_replied(&outcomes, THIRD)),
        Err(refused) => {
            let is_for_memory = refused.cause == BatchCause::Refused(Cause::NoMemory);
            if !is_for_memory || shown(seat, name)? != before || seat.present(3).ok()? {
                return None;
            }
            let (outcomes, _) = seat.change_all(rt, shared, refused.changes).ok()?;
            Some(are_replied(&outcomes, THIRD))
        }
    }
}

/// The reply to a change at a seat that sees what the other saw. One that is refused is made again,
/// and till then the seat reads what it read before.
fn made<J: Naming, R: Wait>(
    rt: &R,
    shared: &Shared<J>,
    other: &Seat<J>,
    seat: &mut Seat<J>,
    change: Change,
    name: &BusName,
) -> Option<Reply> {
    if let Some(note) = other.note() {
        seat.take_note(&note);
    }
    let before = shown(seat, name)?;
    match seat.change(rt, shared, change) {
        Ok((outcome, _)) => Some(outcome.reply),
        Err(refused) => {
            if refused.cause != Cause::NoMemory || shown(seat, name)? != before {
                return None;
            }
            let (outcome, _) = seat.change(rt, shared, refused.change).ok()?;
            Some(outcome.reply)
        }
    }
}

/// Whether the two connections are there, who owns the name, how many stand in its queue, and
/// whether the second has a rule.
fn shown<J: Naming>(
    seat: &mut Seat<J>,
    name: &BusName,
) -> Option<(bool, bool, Option<u64>, usize, bool)> {
    seat.open(|snap| {
        (
            snap.present(1),
            snap.present(2),
            snap.owner(name),
            snap.queue(name).len(),
            snap.rules(2).next().is_some(),
        )
    })
    .ok()
}
