//! A view of a bus that records.

ghost use Rattle.std.specs.Prelude.{◌≡◌, ◌≤◌, ◌↔◌, true, false, [], length, is_some, IfOk, IfErr, OnOk, OnErr};
ghost use Rattle.std.specs.List.{AllByRecursion, list_any};
ghost use Rattle.seq_bus_core.specs.Answers.{answer};
ghost use Rattle.seq_bus_core.specs.Batches.{IsBatch};
ghost use Rattle.seq_bus_core.specs.Bounds.{IsBounded};
ghost use Rattle.seq_bus_core.specs.BusState.{connection_of, is_monitor};
ghost use Rattle.seq_bus_core.specs.Recipients.{recipients};
ghost use Rattle.bus_view.specs.Bodies.{Answers};
ghost use Rattle.bus_view.specs.Views.{bus_seen, AreChanged, IsChanged, IsRead, IsUnread, IsNoted};
ghost use Rattle.bus_view.specs.declared.answer.AskFault.TheVariants.{Gone as AskGone, NoMemory as AskNoMemory};
ghost use Rattle.bus_view.specs.declared.refusal.Cause.TheVariants.{NoMemory};
ghost use Rattle.bus_trace.specs.Recordings.{Records, line_of_change, line_of_query, line_of_route, lines_of_changes};

use crate::recorder::Recorder;
use bus_view::{AskFault, Asked, BatchCause, BusView, Gone, Refused, RefusedAll};
use match_rules::Facts;
use seq_bus_core::{Change, Outcome, Query, Verdict};
use std::alloc::Global;
use std::marker::Model;

/// A view of a bus that keeps a line of each change, query and route.
///
/// Each call is passed on, and answers what the view answers, whether there is memory for its line
/// or not.
#[derive(Drop)]
pub struct Traced<V: BusView> {
    view: V,
    recorder: Recorder,
}

impl<V: BusView> Model for Traced<V> {
    ghost use Rattle.bus_trace.specs.Recordings.{Tracing};

    ghost Value = { Tracing V };

    ghost view = { λ t. record { view = t.view; recording = t.recorder } };
}

impl<V: BusView> Traced<V> {
    /// A view that records. No line is kept yet, and none is lost. It takes no memory.
    pub fn new(alloc: Global, view: V) -> Traced<V>
        ensures view { result.view ≡ view }
        ensures recording { result.recording
            ≡ record { is_on = true; lines = []; is_lost = false } }
    {
        Traced {
            view,
            recorder: Recorder::new(alloc, true),
        }
    }

    /// A view that records nothing. It takes no memory.
    pub fn silent(alloc: Global, view: V) -> Traced<V>
        ensures view { result.view ≡ view }
        ensures recording { result.recording
            ≡ record { is_on = false; lines = []; is_lost = false } }
    {
        Traced {
            view,
            recorder: Recorder::new(alloc, false),
        }
    }

    /// Hands out the lines that are kept, each ended by a line feed, and keeps none. It takes no
    /// memory.
    pub fn take_lines(&mut self) -> Vec<u8>
        ensures lines { result.items ≡ self.old.recording.lines }
        ensures kept { self.new ≡ record self.old {
          recording = record self.old.recording { lines = [] };
        } }
    {
        self.recorder.take_lines()
    }

    /// Whether a line found no memory: then the lines do not tell all that was done.
    pub fn lost(&self) -> bool
        ensures { result ≡ self.now.recording.is_lost }
    {
        self.recorder.is_lost()
    }
}

impl<V: BusView> BusView for Traced<V> {
    type Note = V::Note;

    type Right = V::Right;

    ghost alone = { V.alone };

    ghost knows = { λ t. V.knows t.view };

    ghost told = { V.told };

    ghost registry_of = { V.registry_of };

    fn change(&mut self, right: &V::Right, change: Change) -> Result<(Outcome, V::Note), Refused>
        ensures made { IfOk result (λ r.
            IsChanged V.alone (V.knows self.old.view) change r.0 (V.knows self.new.view)) }
        ensures few { IfOk result (λ r. IsBounded r.0) }
        ensures note { IfOk result (λ r.
            V.registry_of r.1 ≡ (V.knows self.new.view).registry) }
        ensures told { V.alone ≡ false →
            IfOk result (λ r. V.told r.1 ≡ (V.knows self.new.view).seen) }
        ensures handed_back { IfErr result (λ refused. refused.change ≡ change) }
        ensures cause { V.alone ≡ true → IfErr result (λ refused. refused.cause ≡ NoMemory) }
        ensures unchanged { OnErr result (V.knows self.new.view ≡ V.knows self.old.view) }
        ensures recorded { IfOk result (λ r. Records self.old.recording
            (line_of_change (V.knows self.new.view) change r.0) self.new.recording) }
        ensures unrecorded { OnErr result (self.new.recording ≡ self.old.recording) }
    {
        let words = self.recorder.words_of(&change);
        match self.view.change(right, change) {
            Ok((outcome, note)) => {
                let place = self.view.last();
                let seat = self.view.seat();
                let number = self.view.made();
                self.recorder
                    .keep_change(&words, place, seat, number, &outcome);
                Ok((outcome, note))
            }
            Err(refused) => Err(refused),
        }
    }

    fn change_all(
        &mut self,
        right: &V::Right,
        changes: Vec<Change>,
    ) -> Result<(Vec<Outcome>, V::Note), RefusedAll>
        ensures made { IfOk result (λ r. AreChanged V.alone (V.knows self.old.view)
            changes.items r.0.items (V.knows self.new.view)) }
        ensures few { IfOk result (λ r. AllByRecursion IsBounded r.0.items) }
        ensures note { IfOk result (λ r.
            V.registry_of r.1 ≡ (V.knows self.new.view).registry) }
        ensures told { V.alone ≡ false →
            IfOk result (λ r. V.told r.1 ≡ (V.knows self.new.view).seen) }
        ensures batch { OnOk result (IsBatch changes.items) }
        ensures handed_back { IfErr result (λ refused. refused.changes ≡ changes) }
        ensures no_batch { IfErr result (λ refused.
            (refused.cause ≡ BatchCause.Batch) ↔ ¬ IsBatch changes.items) }
        ensures cause { V.alone ≡ true → IfErr result (λ refused. IsBatch changes.items →
            refused.cause ≡ BatchCause.Refused NoMemory) }
        ensures unchanged { OnErr result (V.knows self.new.view ≡ V.knows self.old.view) }
        ensures recorded { IfOk result (λ r. Records self.old.recording
            (lines_of_changes (V.knows self.new.view) changes.items r.0.items)
            self.new.recording) }
        ensures unrecorded { OnErr result (self.new.recording ≡ self.old.recording) }
    {
        let words = self.recorder.words_of_all(&changes);
        match self.view.change_all(right, changes) {
            Ok((outcomes, note)) => {
                let others = outcomes.len() as u64 - 1;
                let place = self.view.last() - others;
                let seat = self.view.seat();
                let number = self.view.made() - others;
                self.recorder
                    .keep_changes(&words, place, seat, number, &outcomes);
                Ok((outcomes, note))
            }
            Err(refused_all) => Err(refused_all),
        }
    }

    fn ask(&mut self, query: &Query, body: &mut Vec<u8>) -> Result<Asked, AskFault>
        ensures answered { IfOk result (λ asked. Answers asked
            (answer (bus_seen (V.knows self.new.view)).state query.now)
            body.old.items body.new.items) }
        ensures read { OnOk result
            (IsRead V.alone (V.knows self.old.view) (V.knows self.new.view)) }
        ensures unanswered { OnErr result (body.new.items ≡ body.old.items) }
        ensures unread { OnErr result
            (IsUnread V.alone (V.knows self.old.view) (V.knows self.new.view)) }
        ensures read_no_less { IfErr result (λ fault. fault ≡ AskNoMemory →
            IsRead V.alone (V.knows self.old.view) (V.knows self.new.view)) }
        ensures gone { IfErr result (λ fault. fault ≡ AskGone →
            V.knows self.new.view ≡ V.knows self.old.view) }
        ensures there { V.alone ≡ true → IfErr result (λ fault. fault ≡ AskGone → ⊥) }
        ensures recorded { OnOk result (Records self.old.recording
            (line_of_query (V.knows self.new.view) query.now) self.new.recording) }
        ensures unrecorded { OnErr result (self.new.recording ≡ self.old.recording) }
    {
        let start = body.len();
        match self.view.ask(query, body) {
            Ok(asked) => {
                let place = self.view.place();
                let seat = self.view.seat();
                self.recorder
                    .keep_query(place, seat, query, asked, &body[start..]);
                Ok(asked)
            }
            Err(fault) => Err(fault),
        }
    }

    fn route(&mut self, from: u64, facts: &Facts<'_>) -> Result<Verdict, Gone>
        ensures verdict { IfOk result (λ verdict.
            verdict ≡ recipients (bus_seen (V.knows self.new.view)).state from facts.now) }
        ensures read { OnOk result
            (IsRead V.alone (V.knows self.old.view) (V.knows self.new.view)) }
        ensures gone { OnErr result (V.knows self.new.view ≡ V.knows self.old.view) }
        ensures there { V.alone ≡ true → OnErr result ⊥ }
        ensures recorded { IfOk result (λ verdict. Records self.old.recording
            (line_of_route (V.knows self.new.view) from facts.now verdict) self.new.recording) }
        ensures unrecorded { OnErr result (self.new.recording ≡ self.old.recording) }
    {
        match self.view.route(from, facts) {
            Ok(verdict) => {
                let place = self.view.place();
                let seat = self.view.seat();
                self.recorder.keep_route(place, seat, from, facts, &verdict);
                Ok(verdict)
            }
            Err(gone) => Err(gone),
        }
    }

    fn route_into(&mut self, from: u64, facts: &Facts<'_>, found: &mut Verdict) -> Result<(), Gone>
        ensures verdict { OnOk result (found.new
            ≡ recipients (bus_seen (V.knows self.new.view)).state from facts.now) }
        ensures read { OnOk result
            (IsRead V.alone (V.knows self.old.view) (V.knows self.new.view)) }
        ensures gone { OnErr result (V.knows self.new.view ≡ V.knows self.old.view) }
        ensures untold { OnErr result (found.new ≡ found.old) }
        ensures there { V.alone ≡ true → OnErr result ⊥ }
        ensures recorded { OnOk result (Records self.old.recording
            (line_of_route (V.knows self.new.view) from facts.now found.new) self.new.recording) }
        ensures unrecorded { OnErr result (self.new.recording ≡ self.old.recording) }
    {
        match self.view.route_into(from, facts, found) {
            Ok(()) => {
                let place = self.view.place();
                let seat = self.view.seat();
                self.recorder.keep_route(place, seat, from, facts, found);
                Ok(())
            }
            Err(gone) => Err(gone),
        }
    }

    fn present(&mut self, number: u64) -> Result<bool, Gone>
        ensures present { IfOk result (λ present. present
            ≡ is_some (connection_of (bus_seen (V.knows self.new.view)).state number)) }
        ensures read { OnOk result
            (IsRead V.alone (V.knows self.old.view) (V.knows self.new.view)) }
        ensures gone { OnErr result (V.knows self.new.view ≡ V.knows self.old.view) }
        ensures there { V.alone ≡ true → OnErr result ⊥ }
        ensures unrecorded { self.new.recording ≡ self.old.recording }
    {
        self.view.present(number)
    }

    // The routes of the bus's own messages are recorded too, though nobody may be shown them.
    fn is_watched(&self) -> bool
        ensures read { result ≡ false →
            IsRead V.alone (V.knows self.now.view) (V.knows self.now.view) }
        ensures none { result ≡ false →
            list_any is_monitor (bus_seen (V.knows self.now.view)).state.connections ≡ false }
        ensures recorded { self.now.recording.is_on ≡ true → result ≡ true }
    {
        self.recorder.is_on() || self.view.is_watched()
    }

    fn take_note(&mut self, note: &V::Note)
        requires own { V.registry_of note.now ≡ (V.knows self.old.view).registry }
        ensures noted { IsNoted V.alone (V.knows self.old.view) (V.told note.now)
            (V.knows self.new.view) }
        ensures unrecorded { self.new.recording ≡ self.old.recording }
    {
        self.view.take_note(note);
    }

    fn note(&self) -> Option<V::Note> {
        self.view.note()
    }

    fn place(&self) -> u64 {
        self.view.place()
    }

    fn made(&self) -> u64 {
        self.view.made()
    }

    fn last(&self) -> u64 {
        self.view.last()
    }

    fn seat(&self) -> u8 {
        self.view.seat()
    }
}
