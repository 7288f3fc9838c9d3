//! What makes changes, under the lock.

ghost use Rattle.std.specs.List.{AllByRecursion};
ghost use Rattle.std.specs.Prelude.{◌≡◌, ◌≢◌, ◌⊎◌, ◌+◌, ◌<◌, ◌≤◌, ◌^◌, [], length, false, Some, slice_get, IfOk, IfErr, OnOk, OnErr};
ghost use Rattle.owner_queues.specs.declared.request.Profile.TheVariants.{Two};
ghost use Rattle.seq_bus_core.specs.Batches.{IsBatch};
ghost use Rattle.seq_bus_core.specs.Bounds.{IsBounded};
ghost use Rattle.seq_bus_core.specs.Histories.{CanOpen, IsLegal, Begins, max_routers, numbers_of};
ghost use Rattle.seq_bus_core.specs.Tickets.{opening_bus};
ghost use Rattle.seq_bus_core.specs.declared.limits.TheConstants.{MAX_BATCH};
ghost use Rattle.registry_snapshots_core.specs.Copies.{IsSnapOf};
ghost use Rattle.registry_snapshots.specs.Seats.{AreSeatChanged, IsSeatChanged};
ghost use Rattle.registry_snapshots.specs.Tallies.{AreAllSeats, made_by, parts_by, tallied};
ghost use Rattle.registry_snapshots_core.specs.Seating.{all_parts};
ghost use Rattle.bus_view.specs.declared.refusal.Cause.{Cause};
ghost use Rattle.bus_view.specs.declared.refusal.Cause.TheVariants.{ForeignSeat, HistoryFull, Gone};

use crate::copies::{Copies, SnapReader};
use crate::seat::Seat;
use crate::tally::Tally;
use activation::HeldCalls;
use bus_view::{BatchCause, Cause, RefusedAll};
use names::WellKnown;
use owner_queues::{Profile, Queue};
use registry::Registry;
use registry_snapshots_core::{Batch, Head, Naming, NextEntry, Prefix, Snap};
use seq_bus_core::limits::MAX_NUMBER;
use seq_bus_core::{Change, Outcome};
use settling::{prepare, prepare_all};
use std::alloc::{AllocError, Global};
use std::marker::Model;
use std::sync::Wait;
use std::sync::ledger::{Book, Share};

/// It knows all of the history, and what the calls carry that wait after it.
///
/// Contracts see the copy that is published, and whether a publication failed: then it makes no
/// other.
pub struct Registrar<J: Naming> {
    copies: Copies<J>,
    // The bus that is published, where changes are prepared: nobody reads it.
    third: Registry,
    calls: HeldCalls,
    // Room for the queue that a name is about to have.
    queue: Queue,
    // Where each seat counts the changes that it made: all of them are the history.
    ledger: Book<J>,
    // What makes shares of no part.
    none: Share<J>,
}

impl<J: Naming> Model for Registrar<J> {
    ghost use Rattle.std.specs.Prelude.{◌≡◌, Bool, length};
    ghost use Rattle.registry_snapshots_core.specs.Copies.{SnapView};
    ghost use Rattle.registry_snapshots.specs.Settlings.{KeepsUp};

    ghost Value = { SnapView × Bool };

    ghost view = { λ r. r.copies };

    ghost invariant = { λ r. KeepsUp J.opening r.copies r.third r.calls
        × (r.ledger.total ≡ length r.copies.0.prefix.log) };
}

/// Whether a seat that knows this much and made so many changes may make so many more now. It gives
/// all of the history.
#[tactic(auto, using(seq_bus_core::proofs::Extending::numbers_length))]
pub fn judge(shown: &Snap, seat: u8, made: u64, known: &Prefix, more: u64) -> Result<Prefix, Cause>
    requires shown { (opening : _) × IsSnapOf known.now.book opening shown.now }
    requires more { (1 ≤ more) × (more ≤ MAX_BATCH) }
    ensures prefix { IfOk result (λ f. (f ≡ shown.now.prefix) × IsLegal f.log) }
    ensures known { IfOk result (λ f. Begins known.now.log f.log) }
    ensures made { IfOk result (λ f. (made ≡ length (numbers_of seat f.log))
        × (made + more ≤ 2 ^ 63) × (length f.log + more ≤ 2 ^ 63)) }
    ensures cause { IfErr result (λ e. (e ≡ ForeignSeat) ⊎ (e ≡ HistoryFull)) }
    ensures foreign { IfErr result (λ e. e ≡ ForeignSeat →
        (slice_get shown.now.last seat ≢ Some made)
        ⊎ (length shown.now.prefix.log < length known.now.log)) }
    ensures full { IfErr result (λ e. e ≡ HistoryFull →
        2 ^ 63 < length shown.now.prefix.log + more) }
{
    let prefix = shown.prefix().copy();
    if shown.made(seat) != Some(made) || !known.begins(&prefix) {
        return Err(Cause::ForeignSeat);
    }
    if prefix.len() > MAX_NUMBER - more {
        return Err(Cause::HistoryFull);
    }
    Ok(prefix)
}

/// Gathers what seats counted, where what each has seen begins this prefix.
fn gather<J: Naming>(
    mut seats: Vec<Seat<J>>,
    all: &mut Share<J>,
    whole: &Prefix,
) -> Result<(), Cause>
    requires book { whole.now.book ≡ J.book }
    ensures parts { OnOk result (all.new.parts
        ≡ all.old.parts + parts_by J.opening.state.routers seats.items) }
    ensures amount { OnOk result (all.new.amount ≡ all.old.amount + made_by seats.items) }
    ensures seen { OnOk result
        (AllByRecursion (λ seat. Begins seat.seen whole.now.log) seats.items) }
{
    while let Some(seat) = seats.pop() {
        if !seat.hand_in(all, whole) {
            return Err(Cause::Gone);
        }
    }
    Ok(())
}

/// A batch that is handed back.
fn refused_all(changes: Vec<Change>, cause: Cause) -> RefusedAll
    ensures { result ≡ record { changes = changes; cause = BatchCause.Refused cause } }
{
    RefusedAll {
        changes,
        cause: BatchCause::Refused(cause),
    }
}

impl<J: Naming> Registrar<J> {
    /// The registrar of a bus that was just opened, with so many seats.
    pub fn new<R: Wait>(
        rt: &R,
        alloc: Global,
        services: &[WellKnown],
        routers: u8,
        seats: usize,
        head: Head,
        prefix: &Prefix,
        ledger: Book<J>,
        none: Share<J>,
    ) -> Result<Registrar<J>, AllocError>
        requires bus { CanOpen routers services.now
            × (J.opening ≡ opening_bus Two routers services.now) }
        requires seats { (0 < seats) × (seats < 2 ^ 32) }
        requires prefix { (head ≡ J.book) × (prefix.now.book ≡ J.book) × (prefix.now.log ≡ []) }
        requires ledger { ledger.total ≡ 0 }
        ensures { IfOk result (λ r. (r.0.prefix.log ≡ []) × (r.1 ≡ false)) }
    {
        let calls = HeldCalls::new(alloc)?;
        let third = Registry::new(alloc, services, routers, Profile::Two)?;
        let copies = Copies::new(rt, alloc, services, routers, seats, head, prefix)?;
        Ok(Registrar {
            copies,
            third,
            calls,
            queue: Queue::new(),
            ledger,
            none,
        })
    }

    /// One more reader of the copies.
    pub fn reader(&self) -> Result<SnapReader<J>, AllocError> {
        self.copies.reader()
    }

    /// Makes a change of a seat that knows this much and made so many, and counts it, or refuses
    /// it. A change is large, and is not moved.
    ///
    /// What it gives of the history is what is published, and nothing that is refused: no prefix
    /// lies beyond it.
    pub fn change<R: Wait>(
        &mut self,
        rt: &R,
        alloc: Global,
        seat: u8,
        tally: &mut Tally<J>,
        known: &Prefix,
        change: &Change,
    ) -> Result<(Outcome, Prefix), Cause>
        requires book { known.now.book ≡ J.book }
        requires part { 0 < tally.old.parts }
        ensures made { IfOk result (λ r.
            IsSeatChanged J.book J.opening seat known.now.log tally.old.made change.now
            r.0 r.1.log) }
        ensures few { IfOk result (λ r. IsBounded r.0) }
        ensures next { IfOk result (λ r. r.1.book ≡ J.book) }
        ensures counted { OnOk result (tally.new ≡ tallied (tally.old.made + 1) tally.old.parts) }
        ensures uncounted { OnErr result (tally.new ≡ tally.old) }
        ensures published { IfOk result (λ r. (r.1 ≡ self.new.0.prefix) × (self.new.1 ≡ false)) }
        ensures same { OnErr result (self.new.0 ≡ self.old.0) }
        ensures judged { IfErr result (λ e. e ≢ Gone → self.new ≡ self.old) }
        ensures foreign { IfErr result (λ e. e ≡ ForeignSeat →
            (slice_get self.old.0.last seat ≢ Some tally.old.made)
            ⊎ (length self.old.0.prefix.log < length known.now.log)) }
        ensures full { IfErr result (λ e. e ≡ HistoryFull →
            2 ^ 63 ≤ length self.old.0.prefix.log) }
    {
        if self.copies.is_spent() {
            return Err(Cause::Gone);
        }
        let made = tally.made();
        let shown = self.copies.published();
        let prefix = judge(shown, seat, made, known, 1)?;
        let queue = &mut self.queue;
        let Ok((prepared, settling)) = prepare(alloc, &mut self.third, queue, seat, change) else {
            self.third.copy_from(self.copies.published().registry());
            return Err(Cause::NoMemory);
        };
        let entry = NextEntry {
            seat,
            number: made + 1,
            change,
        };
        let Ok(next) = self.copies.publish(rt, &prefix, &entry, prepared) else {
            return Err(Cause::Gone);
        };
        let outcome = settling.settle(&mut self.calls, change);
        tally.add(&mut self.ledger, 1);
        Ok((outcome, next))
    }

    /// Makes a batch of changes of a seat that knows this much and made so many, all in one
    /// publication, and counts them, or refuses it.
    ///
    /// What it gives of the history is what is published, and nothing that is refused: no prefix
    /// lies beyond it.
    pub fn change_all<R: Wait>(
        &mut self,
        rt: &R,
        alloc: Global,
        seat: u8,
        tally: &mut Tally<J>,
        known: &Prefix,
        changes: Vec<Change>,
    ) -> Result<(Vec<Outcome>, Prefix), RefusedAll>
        requires book { known.now.book ≡ J.book }
        requires part { 0 < tally.old.parts }
        requires batch { IsBatch changes.items }
        ensures made { IfOk result (λ r.
            AreSeatChanged J.book J.opening seat known.now.log tally.old.made changes.items
            r.0.items r.1.log) }
        ensures few { IfOk result (λ r. AllByRecursion IsBounded r.0.items) }
        ensures next { IfOk result (λ r. r.1.book ≡ J.book) }
        ensures counted { OnOk result
            (tally.new ≡ tallied (tally.old.made + length changes.items) tally.old.parts) }
        ensures uncounted { OnErr result (tally.new ≡ tally.old) }
        ensures published { IfOk result (λ r. (r.1 ≡ self.new.0.prefix) × (self.new.1 ≡ false)) }
        ensures refused { IfErr result (λ e. e.changes ≡ changes) }
        ensures cause { IfErr result (λ e. (cause : Cause) × (e.cause ≡ BatchCause.Refused cause)) }
        ensures same { OnErr result (self.new.0 ≡ self.old.0) }
        ensures judged { IfErr result (λ e. e.cause ≢ BatchCause.Refused Gone →
            self.new ≡ self.old) }
        ensures foreign { IfErr result (λ e. e.cause ≡ BatchCause.Refused ForeignSeat →
            (slice_get self.old.0.last seat ≢ Some tally.old.made)
            ⊎ (length self.old.0.prefix.log < length known.now.log)) }
        ensures full { IfErr result (λ e. e.cause ≡ BatchCause.Refused HistoryFull →
            2 ^ 63 < length self.old.0.prefix.log + length changes.items) }
    {
        if self.copies.is_spent() {
            return Err(refused_all(changes, Cause::Gone));
        }
        let made = tally.made();
        let shown = self.copies.published();
        let prefix = match judge(shown, seat, made, known, changes.len() as u64) {
            Ok(prefix) => prefix,
            Err(cause) => return Err(refused_all(changes, cause)),
        };
        let Ok((prepared, settlings)) = prepare_all(alloc, &mut self.third, seat, &changes) else {
            self.third.copy_from(shown.registry());
            return Err(refused_all(changes, Cause::NoMemory));
        };
        let batch = Batch {
            seat,
            first: made + 1,
            changes,
        };
        let Ok(next) = self.copies.publish_all(rt, &prefix, &batch, prepared) else {
            return Err(refused_all(batch.changes, Cause::Gone));
        };
        let outcomes = settlings.settle(&mut self.calls, &batch.changes);
        tally.add(&mut self.ledger, batch.changes.len() as u64);
        Ok((outcomes, next))
    }

    /// All of the history, once all seats are there, and what each has seen begins it. It has as
    /// many changes as they made.
    pub fn whole_history(&mut self, seats: Vec<Seat<J>>) -> Result<Prefix, Cause>
        requires all { AreAllSeats J.opening.state.routers seats.items }
        requires routers { J.opening.state.routers ≤ max_routers }
        requires parts { J.parts ≡ all_parts }
        ensures book { IfOk result (λ whole. whole.book ≡ J.book) }
        ensures made { IfOk result (λ whole. length whole.log ≡ made_by seats.items) }
        ensures seen { IfOk result (λ whole.
            AllByRecursion (λ seat. Begins seat.seen whole.log) seats.items) }
    {
        let whole = self.copies.published().prefix().copy();
        let mut all = self.none.empty();
        gather(seats, &mut all, &whole)?;
        self.ledger.audit(&mut all);
        Ok(whole)
    }

    /// Ends the copies, once the readers have left.
    pub fn end<R: Wait>(self, rt: &R) {
        let Registrar {
            copies,
            third: _,
            calls: _,
            queue: _,
            ledger: _,
            none: _,
        } = self;
        copies.end(rt);
    }
}
