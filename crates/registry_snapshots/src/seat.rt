//! The seats of a registry, one a router.

ghost use Rattle.std.specs.Prelude.{◌≡◌, ◌+◌, ◌<◌, ◌^◌, length, false, true, [], Some, is_some, OnOk, OnErr, IfOk, IfErr, IfSome, ◌↔◌};
ghost use Rattle.std.specs.Fn.{FnOnceReturnsAt};
ghost use Rattle.std.specs.List.{AllByRecursion};
ghost use Rattle.bus_view.specs.Bodies.{Answers};
ghost use Rattle.bus_view.specs.declared.answer.AskFault.TheVariants.{Gone as AskGone, NoMemory as AskNoMemory};
ghost use Rattle.seq_bus_core.specs.Answers.{answer};
ghost use Rattle.seq_bus_core.specs.Batches.{IsBatch};
ghost use Rattle.seq_bus_core.specs.Bounds.{IsBounded};
ghost use Rattle.seq_bus_core.specs.BusState.{connection_of};
ghost use Rattle.seq_bus_core.specs.Histories.{HasJust, IsLegal, Begins};
ghost use Rattle.seq_bus_core.specs.Recipients.{recipients};
ghost use Rattle.seq_bus_core.specs.Tickets.{bus_after};
ghost use Rattle.registry_snapshots_core.specs.Copies.{IsLastOf, SnapView, prefix_of};
ghost use Rattle.registry_snapshots_core.specs.Seating.{parts_of};
ghost use Rattle.bus_view.specs.Views.{AreChanged, IsChanged, IsNoted, IsRead, IsUnread};
ghost use Rattle.registry_snapshots.specs.Seats.{fresh, knowledge_of, seat_at, IsUnwatched};
ghost use Rattle.registry_snapshots.specs.Tallies.{tallied};

use crate::copies::SnapReader;
use crate::protocol::{CopyKeepsRule, CopyRule};
use crate::shared::Shared;
use crate::tally::Tally;
use bus_view::{AskFault, Asked, BatchCause, CheapCopy, Gone, Refused, RefusedAll};
use left_right::reader::Reading;
use match_rules::Facts;
use registry_snapshots_core::{Naming, Note, Prefix, Snap};
use seq_bus_core::{Change, Outcome, Query, Verdict};
use std::marker::Model;
use std::sync::Wait;
use std::sync::ledger::Share;

/// What one router reads the bus with, and makes changes.
///
/// Contracts see its number, the beginning of the history that it has `seen`, how many changes it
/// `made`, the place of the `last` of them in the history, and the longest beginning that a note
/// tells which it `held`; and by them what it knows as a view of a bus.
pub struct Seat<J: Naming> {
    number: u8,
    tally: Tally<J>,
    last: u64,
    // Gone while it reads.
    reader: Option<SnapReader<J>>,
    prefix: Prefix,
    // Whether there may be a monitor at the end of what was seen.
    watched: bool,
    held: Option<Note<J>>,
}

impl<J: Naming> Model for Seat<J> {
    ghost use Rattle.std.specs.Prelude.{◌≡◌, ◌<◌, false, Some};
    ghost use Rattle.seq_bus_core.specs.Histories.{History, Begins};
    ghost use Rattle.registry_snapshots.specs.Seats.{SeatView, knowledge_of, seat_at, IsUnwatched};
    ghost use Rattle.registry_snapshots_core.specs.Seating.{parts_of};

    ghost Value = { SeatView };

    ghost view = { λ s. seat_at s.number s.prefix.log s.tally.made s.last s.held };

    ghost invariant = { λ s. (s.prefix.book ≡ J.book)
        × ((held : History) → s.held ≡ Some held → Begins held s.prefix.log)
        × (s.watched ≡ false → IsUnwatched (knowledge_of J.book J.opening
        (seat_at s.number s.prefix.log s.tally.made s.last s.held)))
        × (s.tally.parts ≡ parts_of J.opening.state.routers s.number) × (0 < s.tally.parts) };
}

impl<J: Naming> Drop for Seat<J> {
    fn drop(self) {
        let Seat {
            number: _,
            tally,
            last: _,
            reader,
            prefix,
            watched: _,
            held,
        } = self;
        drop(tally);
        drop(reader);
        drop(prefix);
        drop(held);
    }
}

type SnapReading<J> = Reading<Snap, (), CopyRule<J>>;

// Enters the published copy, where it is no less than was seen and has the seat's changes.
fn enter<J: Naming>(
    reader: SnapReader<J>,
    number: u8,
    made: u64,
    seen: &Prefix,
) -> Result<(SnapReading<J>, Prefix), SnapReader<J>>
    requires { seen.now.book ≡ J.book }
    ensures prefix { IfOk result (λ r. (r.1.book ≡ J.book) × Begins seen.now.log r.1.log
        × IsLegal r.1.log × HasJust number made r.1.log) }
    ensures copy { IfOk result (λ r. r.0.part.value.bus ≡ (bus_after J.opening r.1.log).state) }
    ensures whole { IfOk result (λ r. (r.0.part.value.prefix ≡ r.1)
        × IsLastOf r.0.part.value.last r.1.log) }
{
    let reading = reader.enter_as::<CopyKeepsRule<J>>()?;
    let snap = reading.get();
    let prefix = snap.prefix().copy();
    if snap.made(number) != Some(made) || !seen.begins(&prefix) {
        return Err(reading.leave());
    }
    let _legal = prefix.len();
    Ok((reading, prefix))
}

impl<J: Naming> Seat<J> {
    /// The seat of this number, which has seen and made nothing.
    pub(crate) fn new(number: u8, reader: SnapReader<J>, prefix: Prefix, tally: Tally<J>) -> Seat<J>
        requires prefix { (prefix.book ≡ J.book) × (prefix.log ≡ []) }
        requires tally { tally ≡ tallied 0 (parts_of J.opening.state.routers number) }
        requires part { 0 < tally.parts }
        ensures { result ≡ fresh number }
    {
        Seat {
            number,
            tally,
            last: 0,
            reader: Some(reader),
            prefix,
            watched: true,
            held: None,
        }
    }

    /// Its number: 0 for the main thread's, else the number of a router.
    pub fn number(&self) -> u8
        ensures { result ≡ self.now.number }
    {
        self.number
    }

    /// How many changes of the history it has seen.
    pub fn place(&self) -> u64
        ensures { result ≡ length self.now.seen }
    {
        self.prefix.len()
    }

    /// How many of them it made.
    pub fn made(&self) -> u64
        ensures { result ≡ self.now.made }
    {
        self.tally.made()
    }

    /// The place in the history of the last change that it made, from 1; 0 where it made none.
    pub fn last(&self) -> u64
        ensures { result ≡ self.now.last }
    {
        self.last
    }

    // Enters the published copy.
    fn begin_reading(&mut self) -> Result<(SnapReading<J>, Prefix), Gone>
        ensures book { IfOk result (λ r. r.1.book ≡ J.book) }
        ensures read { IfOk result (λ r. IsRead false (knowledge_of J.book J.opening self.old)
            (knowledge_of J.book J.opening (record self.old { seen = r.1.log }))) }
        ensures copy { IfOk result (λ r. r.0.part.value.bus ≡ (bus_after J.opening r.1.log).state) }
        ensures whole { IfOk result (λ r. (r.0.part.value.prefix ≡ prefix_of J.book r.1.log)
            × IsLastOf r.0.part.value.last r.1.log) }
        ensures same { self.new ≡ self.old }
    {
        let Some(reader) = self.reader.take() else {
            return Err(Gone);
        };
        match enter(reader, self.number, self.tally.made(), &self.prefix) {
            Ok(entered) => Ok(entered),
            Err(reader) => {
                self.reader = Some(reader);
                Err(Gone)
            }
        }
    }

    // Leaves the copy, which stood for this prefix.
    fn end_reading(&mut self, reading: SnapReading<J>, prefix: Prefix)
        requires book { prefix.book ≡ J.book }
        requires read { IsRead false (knowledge_of J.book J.opening self.old)
            (knowledge_of J.book J.opening (record self.old { seen = prefix.log })) }
        requires copy { reading.part.value.bus ≡ (bus_after J.opening prefix.log).state }
        ensures { self.new ≡ record self.old { seen = prefix.log } }
    {
        self.watched = reading.get().has_monitors();
        self.reader = Some(reading.leave());
        self.prefix = prefix;
    }

    // Gives what it counted to a share of others. Tells whether what it has seen begins this prefix.
    pub(crate) fn hand_in(self, all: &mut Share<J>, whole: &Prefix) -> bool
        requires book { whole.now.book ≡ J.book }
        ensures parts { all.new.parts
            ≡ all.old.parts + parts_of J.opening.state.routers self.number }
        ensures amount { all.new.amount ≡ all.old.amount + self.made }
        ensures begins { result ≡ true → Begins self.seen whole.now.log }
    {
        let Seat {
            number: _,
            tally,
            last: _,
            reader: _,
            prefix,
            watched: _,
            held: _,
        } = self;
        tally.merge_into(all);
        prefix.begins(whole)
    }

    /// Calls `f` once on the published copy and gives its answer. It waits for no lock and takes no
    /// memory.
    ///
    /// What `f` is lent stays as it is until `f` returns. `Gone` where the registry has ended; then
    /// `f` isn't called.
    pub fn open<R, F: FnOnce(&Snap) -> R + Drop>(&mut self, f: F) -> Result<R, Gone>
        requires { F.IsAlwaysCallable f }
        ensures answer { IfOk result (λ r. (copy : SnapView)
            × (copy.bus ≡ (bus_after J.opening self.new.seen).state)
            × (copy.prefix ≡ prefix_of J.book self.new.seen) × IsLastOf copy.last self.new.seen
            × FnOnceReturnsAt F.FnOnce f copy r) }
        ensures read { OnOk result (IsRead false (knowledge_of J.book J.opening self.old)
            (knowledge_of J.book J.opening self.new)) }
        ensures gone { OnErr result (self.new ≡ self.old) }
    {
        let (reading, prefix) = self.begin_reading()?;
        let answer = f(reading.get());
        self.end_reading(reading, prefix);
        Ok(answer)
    }

    /// Where a message from this connection goes, 0 being the bus, and which monitors are shown it.
    ///
    /// It waits for no lock and takes no memory. `Gone` where the registry has ended.
    pub fn route(&mut self, from: u64, facts: &Facts<'_>) -> Result<Verdict, Gone>
        ensures verdict { IfOk result (λ verdict.
            verdict ≡ recipients (bus_after J.opening self.new.seen).state from facts.now) }
        ensures read { OnOk result (IsRead false (knowledge_of J.book J.opening self.old)
            (knowledge_of J.book J.opening self.new)) }
        ensures gone { OnErr result (self.new ≡ self.old) }
    {
        let mut verdict = Verdict::new();
        self.route_into(from, facts, &mut verdict)?;
        Ok(verdict)
    }

    /// The same as `route`, put where there is room for it: a verdict is large, and is not moved.
    /// Nothing is put there where the registry has ended.
    pub fn route_into(
        &mut self,
        from: u64,
        facts: &Facts<'_>,
        found: &mut Verdict,
    ) -> Result<(), Gone>
        ensures verdict { OnOk result
            (found.new ≡ recipients (bus_after J.opening self.new.seen).state from facts.now) }
        ensures read { OnOk result (IsRead false (knowledge_of J.book J.opening self.old)
            (knowledge_of J.book J.opening self.new)) }
        ensures gone { OnErr result (self.new ≡ self.old) }
        ensures untold { OnErr result (found.new ≡ found.old) }
    {
        let (reading, prefix) = self.begin_reading()?;
        reading.get().tell_route(from, facts, found);
        self.end_reading(reading, prefix);
        Ok(())
    }

    /// Answers a query: appends the body of the reply, in little-endian order as from offset 0 on,
    /// or says that the name has no owner. After a fault nothing is appended.
    ///
    /// It waits for no lock. For want of memory it has read the bus all the same; `Gone` where the
    /// registry has ended, and then nothing was read.
    pub fn ask(&mut self, query: &Query, body: &mut Vec<u8>) -> Result<Asked, AskFault>
        ensures answered { IfOk result (λ asked.
            Answers asked (answer (bus_after J.opening self.new.seen).state query.now)
            body.old.items body.new.items) }
        ensures read { OnOk result (IsRead false (knowledge_of J.book J.opening self.old)
            (knowledge_of J.book J.opening self.new)) }
        ensures unanswered { OnErr result (body.new.items ≡ body.old.items) }
        ensures unread { OnErr result (IsUnread false (knowledge_of J.book J.opening self.old)
            (knowledge_of J.book J.opening self.new)) }
        ensures memory { IfErr result (λ fault. fault ≡ AskNoMemory →
            IsRead false (knowledge_of J.book J.opening self.old)
            (knowledge_of J.book J.opening self.new)) }
        ensures gone { IfErr result (λ fault. fault ≡ AskGone → self.new ≡ self.old) }
    {
        let Ok((reading, prefix)) = self.begin_reading() else {
            return Err(AskFault::Gone);
        };
        let asked = reading.get().ask(query, body);
        self.end_reading(reading, prefix);
        asked
    }

    /// Whether there is a connection of this number.
    ///
    /// It waits for no lock and takes no memory. `Gone` where the registry has ended.
    pub fn present(&mut self, number: u64) -> Result<bool, Gone>
        ensures present { IfOk result (λ present.
            present ≡ is_some (connection_of (bus_after J.opening self.new.seen).state number)) }
        ensures read { OnOk result (IsRead false (knowledge_of J.book J.opening self.old)
            (knowledge_of J.book J.opening self.new)) }
        ensures gone { OnErr result (self.new ≡ self.old) }
    {
        self.open(|snap| snap.present(number))
    }

    /// Whether a monitor may be shown messages, as far as the seat has seen: where not, there was
    /// none when it read the bus last, which was at the end of what it has seen. It reads nothing,
    /// and takes no memory.
    pub fn is_watched(&self) -> bool
        ensures { result ≡ false → IsUnwatched (knowledge_of J.book J.opening self.now) }
    {
        self.watched
    }

    /// Makes a change, and tells of it in a note.
    ///
    /// It waits for the lock of the registry, and for readers of the copy that it brings up. A
    /// change that is refused is handed back, and is not made, then or later. One that is made
    /// settles 512 tickets at most, which is how many can wait, and brings 194 signals at most.
    pub fn change<R: Wait>(
        &mut self,
        rt: &R,
        shared: &Shared<J>,
        change: Change,
    ) -> Result<(Outcome, Note<J>), Refused>
        ensures changed { IfOk result (λ r. IsChanged false (knowledge_of J.book J.opening self.old)
            change r.0 (knowledge_of J.book J.opening self.new)) }
        ensures few { IfOk result (λ r. IsBounded r.0) }
        ensures note { IfOk result (λ r. r.1 ≡ self.new.seen) }
        ensures refused { IfErr result (λ e. e.change ≡ change) }
        ensures unchanged { OnErr result (self.new ≡ self.old) }
    {
        self.watched = true;
        match shared.change(rt, self.number, &mut self.tally, &self.prefix, &change) {
            Ok((outcome, prefix)) => {
                let note = self.go_on(prefix);
                Ok((outcome, note))
            }
            Err(cause) => Err(Refused { change, cause }),
        }
    }

    /// Makes a batch of 1 to 64 changes, all in one publication, and tells of them in a note.
    /// Nobody ever sees some of them without the others.
    ///
    /// It waits as `change` does. Where one of them is refused, or there are too many or none, all
    /// are handed back, and none is made, then or later.
    pub fn change_all<R: Wait>(
        &mut self,
        rt: &R,
        shared: &Shared<J>,
        changes: Vec<Change>,
    ) -> Result<(Vec<Outcome>, Note<J>), RefusedAll>
        ensures changed { IfOk result (λ r.
            AreChanged false (knowledge_of J.book J.opening self.old) changes.items r.0.items
            (knowledge_of J.book J.opening self.new)) }
        ensures few { IfOk result (λ r. AllByRecursion IsBounded r.0.items) }
        ensures note { IfOk result (λ r. r.1 ≡ self.new.seen) }
        ensures batch { OnOk result (IsBatch changes.items) }
        ensures refused { IfErr result (λ e. e.changes ≡ changes) }
        ensures cause { IfErr result (λ e. (e.cause ≡ BatchCause.Batch) ↔ ¬ IsBatch changes.items) }
        ensures unchanged { OnErr result (self.new ≡ self.old) }
    {
        self.watched = true;
        let (outcomes, prefix) = shared.change_all(
            rt,
            self.number,
            &mut self.tally,
            &self.prefix,
            changes,
        )?;
        let note = self.go_on(prefix);
        Ok((outcomes, note))
    }

    // Goes on to the end of what it changed last, and tells of it in a note.
    fn go_on(&mut self, prefix: Prefix) -> Note<J>
        requires book { prefix.book ≡ J.book }
        ensures note { result ≡ prefix.log }
        ensures seen { self.new ≡ seat_at self.old.number prefix.log self.old.made
            (length prefix.log) (Some prefix.log) }
    {
        let note = Note::of(&prefix);
        self.last = prefix.len();
        self.prefix = prefix;
        self.watched = true;
        self.held = Some(note.copy());
        note
    }

    /// Takes in what a seat of this registry told: from now on this one sees no less. It takes no
    /// memory.
    pub fn take_note(&mut self, note: &Note<J>)
        ensures { IsNoted false (knowledge_of J.book J.opening self.old) note.now
            (knowledge_of J.book J.opening self.new) }
    {
        let held = match &self.held {
            Some(held) => held.or_longer(note),
            None => note.copy(),
        };
        if !note.prefix().begins(&self.prefix) {
            self.prefix = note.prefix().copy();
        }
        let _legal = self.prefix.len();
        self.watched = true;
        self.held = Some(held);
    }

    /// The longest note that it made or took; none where it made and took none. What it tells was
    /// seen.
    pub fn note(&self) -> Option<Note<J>>
        ensures held { result ≡ self.now.held }
        ensures seen { IfSome result (λ note. Begins note self.now.seen) }
    {
        match &self.held {
            Some(held) => Some(held.copy()),
            None => None,
        }
    }
}
