//! What the seats of a registry share.

ghost use Rattle.std.specs.Prelude.{◌≡◌, ◌+◌, ◌<◌, ◌≤◌, ◌^◌, [], ◌∷◌, ◌++◌, length, OnOk, OnErr, IfOk, IfErr, ◌↔◌};
ghost use Rattle.std.specs.List.{AllByRecursion};
ghost use Rattle.owner_queues.specs.declared.request.Profile.TheVariants.{Two};
ghost use Rattle.seq_bus_core.specs.Batches.{IsBatch};
ghost use Rattle.seq_bus_core.specs.Bounds.{IsBounded};
ghost use Rattle.seq_bus_core.specs.Histories.{Begins, CanOpen, max_routers};
ghost use Rattle.seq_bus_core.specs.Tickets.{opening_bus};
ghost use Rattle.registry_snapshots.specs.Seats.{fresh, fresh_to, AreSeatChanged, IsSeatChanged};
ghost use Rattle.registry_snapshots.specs.Tallies.{AreAllSeats, made_by, tallied};
ghost use Rattle.registry_snapshots_core.specs.Copies.{identity};
ghost use Rattle.registry_snapshots_core.specs.Seating.{all_parts, parts_of};
ghost use Rattle.registry_snapshots.specs.declared.refusal.StartFault.TheVariants.{Routers, Services};

use crate::refusal::StartFault;
use crate::registrar::Registrar;
use crate::seat::Seat;
use crate::tally::Tally;
use bus_view::{BatchCause, Cause, Gone, RefusedAll, can_open};
use names::WellKnown;
use registry_snapshots_core::{Naming, NewHistory, Note, Prefix};
use seq_bus_core::limits::{MAX_BATCH, MAX_ROUTERS};
use seq_bus_core::{Change, Outcome};
use std::alloc::{AllocError, Global};
use std::marker::Model;
use std::sync::ledger::Share;
use std::sync::{Mutex, MutexGuard, Wait};

/// What the seats of a registry share to make changes.
///
/// Contracts see the number of its routers, which is 1 to 8.
pub struct Shared<J: Naming> {
    alloc: Global,
    routers: u8,
    registrar: Mutex<Registrar<J>>,
}

impl<J: Naming> Model for Shared<J> {
    ghost use Rattle.std.specs.Prelude.{◌≡◌, ◌≤◌, ℕ};
    ghost use Rattle.seq_bus_core.specs.Histories.{max_routers};
    ghost use Rattle.registry_snapshots_core.specs.Seating.{all_parts};

    ghost Value = { ℕ };

    ghost view = { λ s. s.routers };

    ghost invariant = { λ s. (s.routers ≡ J.opening.state.routers) × (1 ≤ s.routers)
        × (s.routers ≤ max_routers) × (J.parts ≡ all_parts) };
}

// One seat more, with the next number, and its part of the ledger.
fn add_seat<J: Naming>(
    seats: &mut Vec<Seat<J>>,
    registrar: &Registrar<J>,
    number: u8,
    prefix: &Prefix,
    share: Share<J>,
) -> Result<(), AllocError>
    requires prefix { (prefix.now.book ≡ J.book) × (prefix.now.log ≡ []) }
    requires share { (share.parts ≡ parts_of J.opening.state.routers number)
        × (0 < share.parts) × (share.amount ≡ 0) }
    ensures { OnOk result (seats.new.items ≡ seats.old.items ++ fresh number ∷ []) }
{
    let seat = Seat::new(
        number,
        registrar.reader()?,
        prefix.copy(),
        Tally::new(share),
    );
    match seats.push(seat) {
        Ok(()) => Ok(()),
        Err(_) => Err(AllocError),
    }
}

// A seat for each router behind seat 0. They divide the whole ledger.
fn new_seats<J: Naming>(
    alloc: Global,
    registrar: &Registrar<J>,
    prefix: &Prefix,
    routers: u8,
    whole: Share<J>,
) -> Result<Vec<Seat<J>>, AllocError>
    requires prefix { (prefix.now.book ≡ J.book) × (prefix.now.log ≡ []) }
    requires routers { (routers ≡ J.opening.state.routers) × (routers ≤ max_routers) }
    requires whole { (whole.parts ≡ all_parts) × (whole.amount ≡ 0) }
    ensures { IfOk result (λ seats. seats.items ≡ fresh_to (routers + 1)) }
{
    let mut seats = Vec::new(alloc);
    let mut left = whole;
    let first = left.split_off(u64::from(MAX_ROUTERS - routers) + 1, 0);
    add_seat(&mut seats, registrar, 0, prefix, first)?;
    for others in 0..routers {
        let share = left.split_off(1, 0);
        add_seat(&mut seats, registrar, others + 1, prefix, share)?;
    }
    Ok(seats)
}

impl<J: Naming> Shared<J> {
    /// A registry with these services and so many routers, and a seat for each router behind seat
    /// 0, which has no places for connections.
    ///
    /// `NoMemory` comes also where the copies have no place for one more reader.
    pub fn new<R: Wait>(
        rt: &R,
        alloc: Global,
        opened: NewHistory,
        services: &[WellKnown],
        routers: u8,
    ) -> Result<(Shared<J>, Vec<Seat<J>>), StartFault>
        requires named { opened ≡ identity J.book J.name J.parts }
        requires opening { J.opening ≡ opening_bus Two routers services.now }
        ensures shared { IfOk result (λ r. r.0 ≡ routers) }
        ensures seats { IfOk result (λ r. r.1.items ≡ fresh_to (routers + 1)) }
        ensures opened { OnOk result (CanOpen routers services.now) }
        ensures routers { IfErr result (λ e. e ≡ Routers →
            (1 ≤ routers) × (routers ≤ max_routers) → ⊥) }
        ensures services { IfErr result (λ e. e ≡ Services →
            (1 ≤ routers) × (routers ≤ max_routers) × (CanOpen routers services.now → ⊥)) }
    {
        if routers == 0 || routers > MAX_ROUTERS {
            return Err(StartFault::Routers);
        }
        if !can_open(services, routers) {
            return Err(StartFault::Services);
        }
        let (head, prefix, blank) = opened.parts();
        let (ledger, mut whole) = blank.open::<J>();
        let none = whole.empty();
        let Ok(registrar) = Registrar::new(
            rt,
            alloc,
            services,
            routers,
            usize::from(routers) + 1,
            head,
            &prefix,
            ledger,
            none,
        ) else {
            return Err(StartFault::NoMemory);
        };
        match new_seats(alloc, &registrar, &prefix, routers, whole) {
            Ok(seats) => {
                let shared = Shared {
                    alloc,
                    routers,
                    registrar: Mutex::new(registrar),
                };
                Ok((shared, seats))
            }
            Err(_) => {
                registrar.end(rt);
                Err(StartFault::NoMemory)
            }
        }
    }

    /// The number of its routers, 1 to 8.
    pub fn routers(&self) -> u8
        ensures value { result ≡ self.now }
        ensures opened { result ≡ J.opening.state.routers }
        ensures some { 1 ≤ result }
        ensures few { result ≤ max_routers }
    {
        self.routers
    }

    // Makes a change of a seat that knows this much and made so many, and counts it, or refuses it.
    pub(crate) fn change<R: Wait>(
        &self,
        rt: &R,
        seat: u8,
        tally: &mut Tally<J>,
        known: &Prefix,
        change: &Change,
    ) -> Result<(Outcome, Prefix), Cause>
        requires book { known.now.book ≡ J.book }
        requires part { 0 < tally.old.parts }
        ensures made { IfOk result (λ r.
            IsSeatChanged J.book J.opening seat known.now.log tally.old.made change.now
            r.0 r.1.log) }
        ensures few { IfOk result (λ r. IsBounded r.0) }
        ensures next { IfOk result (λ r. r.1.book ≡ J.book) }
        ensures counted { OnOk result (tally.new ≡ tallied (tally.old.made + 1) tally.old.parts) }
        ensures uncounted { OnErr result (tally.new ≡ tally.old) }
    {
        let mut registrar = self.registrar.lock(rt);
        let made = registrar.change(rt, self.alloc, seat, tally, known, change);
        MutexGuard::unlock(registrar);
        made
    }

    // Makes a batch of changes of a seat that knows this much and made so many, and counts them, or
    // refuses it.
    pub(crate) fn change_all<R: Wait>(
        &self,
        rt: &R,
        seat: u8,
        tally: &mut Tally<J>,
        known: &Prefix,
        changes: Vec<Change>,
    ) -> Result<(Vec<Outcome>, Prefix), RefusedAll>
        requires book { known.now.book ≡ J.book }
        requires part { 0 < tally.old.parts }
        ensures made { IfOk result (λ r.
            AreSeatChanged J.book J.opening seat known.now.log tally.old.made changes.items
            r.0.items r.1.log) }
        ensures few { IfOk result (λ r. AllByRecursion IsBounded r.0.items) }
        ensures next { IfOk result (λ r. r.1.book ≡ J.book) }
        ensures counted { OnOk result
            (tally.new ≡ tallied (tally.old.made + length changes.items) tally.old.parts) }
        ensures uncounted { OnErr result (tally.new ≡ tally.old) }
        ensures batch { OnOk result (IsBatch changes.items) }
        ensures refused { IfErr result (λ e. e.changes ≡ changes) }
        ensures cause { IfErr result (λ e. (e.cause ≡ BatchCause.Batch) ↔ ¬ IsBatch changes.items) }
    {
        if changes.is_empty() || changes.len() > MAX_BATCH {
            return Err(RefusedAll {
                changes,
                cause: BatchCause::Batch,
            });
        }
        let mut registrar = self.registrar.lock(rt);
        let made = registrar.change_all(rt, self.alloc, seat, tally, known, changes);
        MutexGuard::unlock(registrar);
        made
    }

    /// All of the history, told by a note, once all seats are in one hand again: it has as many
    /// changes as they made. So there is none in it that was refused, and none that nobody made.
    ///
    /// # Errors
    ///
    /// `Gone` where a seat has seen more than is published, as none does in a running bus.
    pub fn whole_history<R: Wait>(&self, rt: &R, seats: Vec<Seat<J>>) -> Result<Note<J>, Gone>
        requires all { AreAllSeats self.now seats.items }
        ensures made { IfOk result (λ note. length note ≡ made_by seats.items) }
        ensures seen { IfOk result (λ note.
            AllByRecursion (λ seat. Begins seat.seen note) seats.items) }
    {
        let mut registrar = self.registrar.lock(rt);
        let whole = registrar.whole_history(seats);
        MutexGuard::unlock(registrar);
        match whole {
            Ok(whole) => Ok(Note::of(&whole)),
            Err(_) => Err(Gone),
        }
    }

    /// Ends the registry. From then on its seats are `Gone`.
    pub fn end<R: Wait>(self, rt: &R) {
        let Shared {
            alloc: _,
            routers: _,
            registrar,
        } = self;
        registrar.into_inner().end(rt);
    }
}
