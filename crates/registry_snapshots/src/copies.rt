//! The copies that readers take, and what publishes changes on them.

ghost use Rattle.std.specs.Prelude.{◌≡◌, ◌+◌, ◌<◌, ◌≤◌, ◌^◌, [], ◌∷◌, ◌++◌, drop, length, false, true, IfOk, OnOk, OnErr};
ghost use Rattle.owner_queues.specs.declared.request.Profile.TheVariants.{Two};
ghost use Rattle.registry.specs.PreparedChanges.{ArePreparedFor, IsPreparedFor, absorbed_along};
ghost use Rattle.seq_bus_core.specs.Batches.{entries_of};
ghost use Rattle.seq_bus_core.specs.Histories.{CanOpen, IsLegal, numbers_of};
ghost use Rattle.seq_bus_core.specs.Steps.{step};
ghost use Rattle.seq_bus_core.specs.Tickets.{opening_bus};
ghost use Rattle.registry_snapshots_core.specs.Copies.{IsSnapOf, prefix_of};
ghost use Rattle.registry_snapshots_core.specs.Pending.{IsReady, Shows, brought_up};

use crate::protocol::{CopyKeepsRule, CopyRule};
use bus_view::Gone;
use core::mem::replace_with;
use left_right::reader::Reader;
use left_right::writer::Writer;
use names::WellKnown;
use registry::Prepared;
use registry_snapshots_core::{Batch, Head, Naming, NextEntry, Op, Prefix, Snap};
use std::alloc::{AllocError, Global};
use std::marker::Model;
use std::sync::Wait;

pub type SnapReader<J> = Reader<Snap, (), CopyRule<J>>;

type SnapWriter<J> = Writer<Snap, Op, (), CopyRule<J>>;

/// The two copies of the registry, and the word of its history.
///
/// Nothing is pending, unless they are spent: a publication failed, and there is no other.
/// Contracts see the copy that is published, and whether they are spent.
pub struct Copies<J: Naming> {
    writer: SnapWriter<J>,
    head: Head,
    spent: bool,
}

impl<J: Naming> Model for Copies<J> {
    ghost use Rattle.std.specs.Prelude.{◌≡◌, Bool, false, [], drop};
    ghost use Rattle.registry_snapshots_core.specs.Copies.{SnapView, IsSnapOf};

    ghost Value = { SnapView × Bool };

    ghost view = { λ c. (c.writer.desk.shown.value, c.spent) };

    ghost invariant = { λ c. (c.head ≡ J.book)
        × IsSnapOf J.book J.opening c.writer.desk.shown.value
        × (c.spent ≡ false → drop c.writer.behind c.writer.log.items ≡ []) };
}

// Shows what is pending.
fn publish<J: Naming, R: Wait>(rt: &R, writer: SnapWriter<J>) -> (SnapWriter<J>, bool)
    requires { IsReady J.book J.opening writer.desk.shown.value
        (drop writer.behind writer.log.items) }
    ensures settled { drop result.0.behind result.0.log.items ≡ [] }
    ensures shown { Shows writer.desk.shown.value
        (drop writer.behind writer.log.items) result.0.desk.shown.value }
{
    let (writer, shown) = writer.publish_as::<CopyKeepsRule<J>, R>(rt);
    (writer, shown.is_ok())
}

// The two copies of a bus that was just opened, with places for so many readers.
fn new_writer<J: Naming>(
    alloc: Global,
    services: &[WellKnown],
    routers: u8,
    seats: usize,
    prefix: &Prefix,
) -> Result<SnapWriter<J>, AllocError>
    requires bus { CanOpen routers services.now
        × (J.opening ≡ opening_bus Two routers services.now) }
    requires seats { (0 < seats) × (seats < 2 ^ 32) }
    requires prefix { (prefix.now.book ≡ J.book) × (prefix.now.log ≡ []) }
    ensures kept { IfOk result (λ w. IsSnapOf J.book J.opening w.desk.shown.value) }
    ensures opened { IfOk result (λ w. (w.desk.shown.value.prefix.log ≡ [])
        × (w.desk.shown.value.bus ≡ J.opening.state)) }
    ensures settled { IfOk result (λ w. drop w.behind w.log.items ≡ []) }
{
    let first = Snap::new(alloc, services, routers, seats, prefix.copy())?;
    let second = Snap::new(alloc, services, routers, seats, prefix.copy())?;
    Writer::new(alloc, first, second, seats)
}

// Shows what is pending, where the writer stands.
fn publish_in_place<J: Naming, R: Wait>(rt: &R, writer: &mut SnapWriter<J>)
    requires { IsReady J.book J.opening writer.old.desk.shown.value
        (drop writer.old.behind writer.old.log.items) }
    ensures settled { drop writer.new.behind writer.new.log.items ≡ [] }
    ensures shown { Shows writer.old.desk.shown.value
        (drop writer.old.behind writer.old.log.items) writer.new.desk.shown.value }
{
    replace_with(
        writer,
        rt,
        |writer: SnapWriter<J>, rt: &R| -> (SnapWriter<J>, bool)
            requires { IsReady J.book J.opening writer.desk.shown.value
                (drop writer.behind writer.log.items) }
            ensures settled { drop result.0.behind result.0.log.items ≡ [] }
            ensures shown { Shows writer.desk.shown.value
                (drop writer.behind writer.log.items) result.0.desk.shown.value }
        { publish(rt, writer) },
    );
}

// Makes room in the writer's queue for the operations that it ever has, so that no later one needs
// memory.
fn warm<J: Naming, R: Wait>(rt: &R, mut writer: SnapWriter<J>) -> Result<SnapWriter<J>, AllocError>
    requires kept { IsSnapOf J.book J.opening writer.desk.shown.value }
    requires settled { drop writer.behind writer.log.items ≡ [] }
    ensures { IfOk result (λ w. (w.desk.shown.value ≡ writer.desk.shown.value)
        × (drop w.behind w.log.items ≡ [])) }
{
    match writer.append(Op::Rest) {
        Ok(()) => Ok(publish(rt, writer).0),
        Err(_) => {
            drop(writer.take(rt));
            Err(AllocError)
        }
    }
}

impl<J: Naming> Copies<J> {
    /// The copies of a bus that was just opened, with so many seats.
    pub fn new<R: Wait>(
        rt: &R,
        alloc: Global,
        services: &[WellKnown],
        routers: u8,
        seats: usize,
        head: Head,
        prefix: &Prefix,
    ) -> Result<Copies<J>, AllocError>
        requires bus { CanOpen routers services.now
            × (J.opening ≡ opening_bus Two routers services.now) }
        requires seats { (0 < seats) × (seats < 2 ^ 32) }
        requires prefix { (head ≡ J.book) × (prefix.now.book ≡ J.book) × (prefix.now.log ≡ []) }
        ensures { IfOk result (λ c. (c.0.prefix.log ≡ []) × (c.1 ≡ false)
            × (c.0.bus ≡ J.opening.state)) }
    {
        let writer = new_writer(alloc, services, routers, seats, prefix)?;
        // An operation that one copy has and the other has not stays in the queue beside the next
        // one, so there are two.
        let writer = warm(rt, warm(rt, writer)?)?;
        Ok(Copies {
            writer,
            head,
            spent: false,
        })
    }

    /// One more reader.
    pub fn reader(&self) -> Result<SnapReader<J>, AllocError> {
        self.writer.factory().reader()
    }

    /// The copy that is published.
    pub fn published(&self) -> &Snap
        ensures value { result.now ≡ self.now.0 }
        ensures kept { IsSnapOf J.book J.opening self.now.0 }
    {
        self.writer.published()
    }

    /// Whether a publication failed.
    pub fn is_spent(&self) -> bool
        ensures { result ≡ self.now.1 }
    {
        self.spent
    }

    /// Publishes the next entry of a seat behind the whole history, with its change as it was
    /// prepared.
    ///
    /// What it gives of the history is what is published from then on. `Gone` where the publication
    /// failed: then what was published stays, and the copies are spent.
    pub fn publish<R: Wait>(
        &mut self,
        rt: &R,
        prefix: &Prefix,
        entry: &NextEntry<'_>,
        prepared: Prepared,
    ) -> Result<Prefix, Gone>
        requires settled { self.old.1 ≡ false }
        requires prefix { prefix.now ≡ self.old.0.prefix }
        requires room { length prefix.now.log < 2 ^ 63 }
        requires legal { IsLegal prefix.now.log }
        requires alone { entry.now.left ≡ 0 }
        requires number { entry.now.number ≡ length (numbers_of entry.now.seat prefix.now.log) + 1 }
        requires prepared { IsPreparedFor entry.now.seat entry.now.change prepared }
        ensures next { IfOk result (λ next.
            next ≡ prefix_of J.book (prefix.now.log ++ entry.now ∷ [])) }
        ensures published { IfOk result (λ next. self.new.0.prefix ≡ next) }
        ensures bus { OnOk result
            (self.new.0.bus ≡ (step self.old.0.bus prepared.seat prepared.change).0) }
        ensures unspent { OnOk result (self.new.1 ≡ false) }
        ensures same { OnErr result (self.new.0 ≡ self.old.0) }
        ensures spent { OnErr result (self.new.1 ≡ true) }
    {
        let Some(next) = prefix.add(&self.head, entry) else {
            self.spent = true;
            return Err(Gone);
        };
        let op = Op::Made {
            seat: entry.seat,
            number: entry.number,
            prepared,
            prefix: next.copy(),
        };
        self.show(rt, op)?;
        Ok(next)
    }

    /// Publishes the next entries of a seat together behind the whole history, with their changes
    /// as they were prepared.
    ///
    /// What it gives of the history is what is published from then on. `Gone` where the publication
    /// failed: then what was published stays, and the copies are spent.
    #[tactic(auto, using(seq_bus_core::proofs::Extending::numbers_length))]
    pub fn publish_all<R: Wait>(
        &mut self,
        rt: &R,
        prefix: &Prefix,
        batch: &Batch,
        prepared: Vec<Prepared>,
    ) -> Result<Prefix, Gone>
        requires settled { self.old.1 ≡ false }
        requires prefix { prefix.now ≡ self.old.0.prefix }
        requires room { length prefix.now.log + length batch.now.changes.items ≤ 2 ^ 63 }
        requires legal { IsLegal prefix.now.log }
        requires first { batch.now.first
            ≡ length (numbers_of batch.now.seat prefix.now.log) + 1 }
        requires prepared { ArePreparedFor batch.now.seat batch.now.changes.items prepared.items }
        ensures next { IfOk result (λ next. next ≡ prefix_of J.book (prefix.now.log
            ++ entries_of batch.now.seat batch.now.first batch.now.changes.items)) }
        ensures published { IfOk result (λ next. self.new.0.prefix ≡ next) }
        ensures bus { OnOk result
            (self.new.0.bus ≡ absorbed_along self.old.0.bus prepared.items) }
        ensures unspent { OnOk result (self.new.1 ≡ false) }
        ensures same { OnErr result (self.new.0 ≡ self.old.0) }
        ensures spent { OnErr result (self.new.1 ≡ true) }
    {
        let Some(next) = prefix.add_all(&self.head, batch) else {
            self.spent = true;
            return Err(Gone);
        };
        let op = Op::MadeAll {
            seat: batch.seat,
            number: batch.first - 1 + batch.changes.len() as u64,
            prepared,
            prefix: next.copy(),
        };
        self.show(rt, op)?;
        Ok(next)
    }

    // Brings the copies up. `Gone` where that failed: then they are spent.
    fn show<R: Wait>(&mut self, rt: &R, op: Op) -> Result<(), Gone>
        requires settled { self.old.1 ≡ false }
        requires kept { IsSnapOf J.book J.opening (brought_up self.old.0 op) }
        ensures shown { OnOk result (self.new.0 ≡ brought_up self.old.0 op) }
        ensures unspent { OnOk result (self.new.1 ≡ false) }
        ensures same { OnErr result (self.new.0 ≡ self.old.0) }
        ensures spent { OnErr result (self.new.1 ≡ true) }
    {
        match self.writer.append(op) {
            Ok(()) => {
                publish_in_place(rt, &mut self.writer);
                Ok(())
            }
            Err(_) => {
                self.spent = true;
                Err(Gone)
            }
        }
    }

    /// Ends the copies, once the readers have left.
    pub fn end<R: Wait>(self, rt: &R) {
        let Copies {
            writer,
            head: _,
            spent: _,
        } = self;
        drop(writer.take(rt));
    }
}
