//! What serves connections: the view of the bus, the gate, and the actions so far.

ghost use Rattle.std.specs.Prelude.{◌≡◌, ◌↔◌, ◌<◌, ◌≤◌, ◌+◌, ◌++◌, ◌∷◌, [], length, Option, IfOk, IfErr, IfSome, IsTrue, false, OnOk, OnErr};
ghost use Rattle.message_core.specs.Messages.{Message, IsWritten};
ghost use Rattle.std.specs.List.{AllByRecursion, list_any};
ghost use Rattle.seq_bus_core.specs.Answers.{Answer};
ghost use Rattle.seq_bus_core.specs.Batches.{IsBatch};
ghost use Rattle.seq_bus_core.specs.Bounds.{IsBounded};
ghost use Rattle.seq_bus_core.specs.BusState.{is_monitor};
ghost use Rattle.bus_view.specs.Views.{bus_seen, IsRead};
ghost use Rattle.outbox_core.specs.Contents.{said_of};
ghost use Rattle.outbox_core.specs.Deliveries.{deliveries_of};
ghost use Rattle.router_core.specs.Answers.{Heard};
ghost use Rattle.router_core.specs.Deeds.{IsFurthest, Writes, Sends, Puts, Closes, put_of};
ghost use Rattle.router_core.specs.Scripts.{putting, having_done, Changes, ChangesAll, Asks, Routes, AsksPresence, Takes, Passes, Performs, Emits, RunsTo};
ghost use Rattle.router_core.specs.Serving.{nothing, running};
ghost use Rattle.router_steps.specs.Hearing.{heard_change, heard_changes, heard_verdict, heard_present, IsTold};

use crate::room::{blank_verdict, clear_actions, keep_verdict, push_reserved};
use crate::verdicts::{is_for_nobody, is_told_nobody, only_one};
use bus_view::{AskFault, Asked, BusView, Cause, CheapCopy, Gone, RefusedAll};
use driver::Call;
use match_rules::Facts;
use names::BusName;
use outbox_core::{BusMessage, Content};
use router_core::{Action, Addressees, CloseCause, Gate, WrittenBytes};
use seq_bus_core::{AddressedSignal, Change, Outcome, Query, Signals, Verdict};
use std::alloc::{AllocError, Global};
use std::marker::Model;

/// The view, the gate and the actions so far, with room for some more.
#[derive(Drop)]
pub struct Context<V: BusView, G: Gate> {
    pub(crate) alloc: Global,
    pub(crate) view: V,
    gate: G,
    actions: Vec<Action<V::Note>>,
    /// Where the next actions go once these are handed out.
    spare: Vec<Action<V::Note>>,
    /// In these the bus says where messages go. One of a message to several recipients goes out
    /// with its action.
    verdicts: Vec<Box<Verdict>>,
    room: usize,
}

impl<V: BusView, G: Gate> Model for Context<V, G> {
    ghost use Rattle.std.specs.Prelude.{◌≡◌, ◌+◌, ◌≤◌, [], vec_len, vec_capacity};
    ghost use Rattle.router_steps.specs.Work.{Work};

    ghost Value = { Work V.Note G };

    ghost view = { λ h. record {
      world = record { view = V.knows h.view; gate = h.gate; actions = h.actions.items };
      room =
          h.room;
      spare_verdicts = vec_len h.verdicts;
    } };

    ghost invariant = { λ h. (h.room + vec_len h.actions ≤ vec_capacity h.actions) ×
        (h.spare.items ≡ []) };
}

impl<V: BusView + Drop, G: Gate + Drop> Context<V, G> {
    /// A context in which nothing was done yet, with what one message needs that goes to several
    /// recipients.
    pub fn new(alloc: Global, view: V, gate: G) -> Result<Context<V, G>, AllocError>
        ensures { IfOk result
            (λ context. context.world ≡ record { view = V.knows view; gate = gate; actions = [] }) }
    {
        let mut context = Context {
            alloc,
            view,
            gate,
            actions: Vec::new(alloc),
            spare: Vec::new(alloc),
            verdicts: Vec::new(alloc),
            room: 0,
        };
        context.reserve_verdicts(2)?;
        Ok(context)
    }
}

impl<V: BusView, G: Gate> Context<V, G> {
    /// Makes room for so many actions. Without memory there is room as before.
    pub fn reserve(&mut self, count: usize) -> Result<(), AllocError>
        ensures world { self.new.world ≡ self.old.world }
        ensures room { OnOk result (self.new.room ≡ count) }
        ensures kept { OnErr result (self.new.room ≡ self.old.room) }
        ensures spare_verdicts { self.new.spare_verdicts ≡ self.old.spare_verdicts }
    {
        self.actions.reserve(count)?;
        self.room = count;
        Ok(())
    }

    /// Makes room for so many of the actions to have several recipients. What there was stays.
    pub fn reserve_verdicts(&mut self, count: usize) -> Result<(), AllocError>
        ensures world { self.new.world ≡ self.old.world }
        ensures room { self.new.room ≡ self.old.room }
        ensures spare_verdicts { OnOk result (count ≤ self.new.spare_verdicts) }
        ensures kept { self.old.spare_verdicts ≤ self.new.spare_verdicts }
    {
        while self.verdicts.len() < count {
            let verdict = blank_verdict(self.alloc)?;
            self.verdicts.push(verdict)?;
        }
        Ok(())
    }

    /// Hands out the actions. Where there are none, their room stays.
    pub fn take_actions(&mut self) -> Vec<Action<V::Note>>
        ensures actions { result.items ≡ self.old.world.actions }
        ensures world { self.new.world ≡ record self.old.world { actions = [] } }
    {
        self.room = 0;
        if self.actions.is_empty() {
            return Vec::new(self.alloc);
        }
        let next = std::mem::replace(&mut self.spare, Vec::new(self.alloc));
        std::mem::replace(&mut self.actions, next)
    }

    /// Takes back the actions that it handed out, once they are done: later ones go where they
    /// stood, and to several recipients where theirs were. Those of the mail that they bring have a
    /// place beside theirs.
    pub fn give_back(&mut self, actions: Vec<Action<V::Note>>)
        ensures world { self.new.world ≡ self.old.world }
    {
        let mut actions = actions;
        clear_actions(&mut actions, &mut self.verdicts);
        actions.clear();
        if self.actions.capacity() == 0 {
            self.actions = actions;
        } else {
            self.spare = actions;
        }
    }

    /// A place in which the bus says where a message goes. What it said of another is still there.
    pub fn take_verdict(&mut self) -> Box<Verdict>
        requires { 0 < self.old.spare_verdicts }
        ensures world { self.new.world ≡ self.old.world }
        ensures room { self.new.room ≡ self.old.room }
        ensures spare_verdicts { self.new.spare_verdicts + 1 ≡ self.old.spare_verdicts }
    {
        match self.verdicts.pop() {
            Some(verdict) => verdict,
            None => unreachable!(),
        }
    }

    /// Keeps the verdict of a message that is done, for the next one, where there is a place for
    /// it.
    pub(crate) fn keep_verdict(&mut self, verdict: Box<Verdict>)
        ensures world { self.new.world ≡ self.old.world }
        ensures room { self.new.room ≡ self.old.room }
        ensures spare_verdicts { self.old.spare_verdicts ≤ self.new.spare_verdicts }
    {
        keep_verdict(verdict, &mut self.verdicts);
    }

    /// One action more.
    fn act(&mut self, action: Action<V::Note>)
        requires { 0 < self.old.room }
        ensures world { self.new.world ≡ having_done self.old.world (action ∷ []) }
        ensures room { self.new.room + 1 ≡ self.old.room }
        ensures spare_verdicts { self.new.spare_verdicts ≡ self.old.spare_verdicts }
    {
        push_reserved(&mut self.actions, action);
        self.room -= 1;
    }

    /// Writes a message of another connection to the connection of this key.
    pub(crate) fn write(&mut self, key: usize, bytes: WrittenBytes)
        requires { 0 < self.old.room }
        ensures does { Performs V.BusView (Writes key bytes) self.old.world self.new.world }
        ensures room { self.new.room + 1 ≡ self.old.room }
    {
        self.act(Action::Write { key, bytes });
    }

    /// Writes a message of the bus to the connection of this key.
    pub(crate) fn send(&mut self, key: usize, message: WrittenBytes)
        requires { 0 < self.old.room }
        ensures does { (m : Message) → IsWritten message m →
            Performs V.BusView (Sends key m) self.old.world self.new.world }
        ensures room { self.new.room + 1 ≡ self.old.room }
        ensures spare_verdicts { self.new.spare_verdicts ≡ self.old.spare_verdicts }
    {
        self.act(Action::Write {
            key,
            bytes: message,
        });
    }

    /// Closes the connection of this key.
    pub(crate) fn close(&mut self, key: usize, cause: CloseCause)
        requires { 0 < self.old.room }
        ensures does { Performs V.BusView (Closes key cause) self.old.world self.new.world }
        ensures room { self.new.room + 1 ≡ self.old.room }
        ensures spare_verdicts { self.new.spare_verdicts ≡ self.old.spare_verdicts }
    {
        self.act(Action::Close { key, cause });
    }

    /// The furthest note that was made or taken.
    fn note(&self) -> Option<V::Note>
        ensures { IsFurthest V.told V.registry_of V.alone self.now.world.view result }
    {
        self.view.note()
    }

    /// Puts a message to these connections, with the furthest note.
    pub fn put(&mut self, to: Addressees, content: Content)
        requires { 0 < self.old.room }
        ensures does { Performs V.BusView (Puts (deliveries_of to.to to.monitors) (said_of content))
            self.old.world self.new.world }
        ensures room { self.new.room + 1 ≡ self.old.room }
        ensures spare_verdicts { self.new.spare_verdicts ≡ self.old.spare_verdicts }
    {
        let note = self.note();
        self.act(Action::Put { to, note, content });
    }

    /// Puts a message to the recipients of a verdict and to the monitors, each once; to nobody it
    /// is not put. Where they are several, the verdict goes out with it.
    pub(crate) fn put_to(&mut self, verdict: Box<Verdict>, content: Content)
        requires { 0 < self.old.room }
        ensures comes { RunsTo V.BusView G.Gate
            (putting (deliveries_of verdict.value.to verdict.value.monitors) (said_of content)
            nothing) self.old.world tt self.new.world }
        ensures room { self.old.room ≤ self.new.room + 1 }
        ensures spare_verdicts { self.old.spare_verdicts ≤ self.new.spare_verdicts }
    {
        if let Some(conn) = only_one(&verdict) {
            self.keep_verdict(verdict);
            self.put(Addressees::one(conn), content);
            return;
        }
        if is_for_nobody(&verdict) {
            self.keep_verdict(verdict);
            return;
        }
        self.put(Addressees::shown(verdict), content);
    }

    /// Puts a signal to those who get it and to the monitors that are shown it, if there are any.
    fn put_signal(&mut self, addressed: AddressedSignal, note: Option<V::Note>)
        requires { 0 < self.old.room }
        ensures world { self.new.world ≡ having_done self.old.world
            (put_of note addressed (deliveries_of addressed.to addressed.monitors)) }
        ensures room { self.old.room ≤ self.new.room + 1 }
        ensures spare_verdicts { self.new.spare_verdicts ≡ self.old.spare_verdicts }
    {
        if is_told_nobody(&addressed) {
            return;
        }
        let AddressedSignal {
            signal,
            to,
            monitors,
        } = addressed;
        self.act(Action::Put {
            to: Addressees::of_signal(to, monitors),
            note,
            content: Content::Own(BusMessage::Signal(signal)),
        });
    }

    /// Puts the signals of a change, in order, with the furthest note.
    pub fn announce(&mut self, signals: Signals)
        requires { length signals ≤ self.old.room }
        ensures announces { Emits V.BusView signals self.old.world self.new.world }
        ensures room { self.old.room ≤ self.new.room + length signals }
        ensures spare_verdicts { self.new.spare_verdicts ≡ self.old.spare_verdicts }
    {
        let note = self.note();
        for addressed in signals {
            self.put_signal(addressed, note.copy());
        }
    }

    /// Asks for the program of a service to be run, where the bus asks for a start.
    pub fn run(&mut self, name: Box<BusName>, start: Option<u64>)
        requires { 0 < self.old.room }
        ensures comes { RunsTo V.BusView G.Gate (running name.value start) self.old.world tt
            self.new.world }
        ensures room { self.old.room ≤ self.new.room + 1 }
    {
        if let Some(start) = start {
            self.act(Action::Run { name, start });
        }
    }

    /// Makes a change of the bus. One that is made settles 512 tickets and brings 194 signals at
    /// most.
    #[tactic(auto, using(crate::proofs::Refusals::is_lost))]
    pub fn change(&mut self, right: &V::Right, change: Change) -> Result<Outcome, Cause>
        ensures changes { Changes V.alone change self.old.world (heard_change result)
            self.new.world }
        ensures few { IfOk result IsBounded }
        ensures room { self.new.room ≡ self.old.room }
        ensures spare_verdicts { self.new.spare_verdicts ≡ self.old.spare_verdicts }
    {
        match self.view.change(right, change) {
            Ok((outcome, _)) => Ok(outcome),
            Err(refused) => Err(refused.cause),
        }
    }

    /// Makes 1 to 64 changes of the bus together, or hands them back and makes none of them. Each
    /// that is made settles 512 tickets and brings 194 signals at most.
    #[tactic(auto, using(crate::proofs::Refusals::all_lost))]
    pub fn change_all(
        &mut self,
        right: &V::Right,
        changes: Vec<Change>,
    ) -> Result<Vec<Outcome>, RefusedAll>
        requires { IsBatch changes.items }
        ensures changes { ChangesAll V.alone changes.items self.old.world (heard_changes result)
            self.new.world }
        ensures few { IfOk result (λ outcomes. AllByRecursion IsBounded outcomes.items) }
        ensures handed_back { IfErr result (λ refused. refused.changes ≡ changes) }
        ensures room { self.new.room ≡ self.old.room }
        ensures spare_verdicts { self.new.spare_verdicts ≡ self.old.spare_verdicts }
    {
        match self.view.change_all(right, changes) {
            Ok((outcomes, _)) => Ok(outcomes),
            Err(refused) => Err(refused),
        }
    }

    /// Asks who gets a message of the connection of this number, and which monitors are shown it. 0
    /// is the bus. Where the bus does not say, the verdict stays as it is.
    pub fn route(&mut self, from: u64, facts: &Facts<'_>, verdict: &mut Verdict) -> Result<(), Gone>
        ensures routes { Routes V.alone from facts.now self.old.world
            (heard_verdict result verdict.new) self.new.world }
        ensures room { self.new.room ≡ self.old.room }
        ensures spare_verdicts { self.new.spare_verdicts ≡ self.old.spare_verdicts }
    {
        match self.view.route_into(from, facts, verdict) {
            Ok(()) => Ok(()),
            Err(gone) => Err(gone),
        }
    }

    /// Asks whether there is a connection of this number.
    pub(crate) fn is_present(&mut self, number: u64) -> Result<bool, Gone>
        ensures asks { AsksPresence V.alone number self.old.world
            (heard_present result) self.new.world }
        ensures room { self.new.room ≡ self.old.room }
    {
        match self.view.present(number) {
            Ok(present) => Ok(present),
            Err(gone) => Err(gone),
        }
    }

    /// The view of the bus.
    pub fn view(&self) -> &V
        ensures { V.knows result.now ≡ self.now.world.view }
    {
        &self.view
    }

    /// Whether a monitor may be shown messages, as far as the view has seen.
    pub(crate) fn is_watched(&self) -> bool
        ensures read { result ≡ false → IsRead V.alone self.now.world.view self.now.world.view }
        ensures none { result ≡ false →
            list_any is_monitor (bus_seen self.now.world.view).state.connections ≡ false }
    {
        self.view.is_watched()
    }

    /// Takes in what another router told.
    pub(crate) fn take_note(&mut self, note: &V::Note)
        requires { V.registry_of note.now ≡ self.old.world.view.registry }
        ensures takes { Takes V.alone (V.told note.now) self.old.world self.new.world }
        ensures room { self.new.room ≡ self.old.room }
    {
        self.view.take_note(note);
    }

    /// Shows the gate a call.
    pub fn show_gate(&mut self, call: &Call)
        ensures passes { Passes G.passes call.now self.old.world self.new.world }
        ensures room { self.new.room ≡ self.old.room }
        ensures spare_verdicts { self.new.spare_verdicts ≡ self.old.spare_verdicts }
    {
        let seat = self.view.seat();
        self.gate.before(seat, call, &self.view);
    }

    /// Asks the bus: the body of the reply is appended to nothing.
    pub fn ask(&mut self, query: &Query, body: &mut Vec<u8>) -> Result<Asked, AskFault>
        requires { body.old.items ≡ [] }
        ensures asks { (heard : Heard (Option Answer)) ×
            Asks V.alone query.now self.old.world heard self.new.world ×
            IsTold result heard body.new.items }
        ensures room { self.new.room ≡ self.old.room }
        ensures spare_verdicts { self.new.spare_verdicts ≡ self.old.spare_verdicts }
    {
        self.view.ask(query, body)
    }
}
