//! Several messages, one after the other.

ghost use Rattle.std.specs.Prelude.{◌≡◌, ◌⊎◌, ◌<◌, ◌≤◌, ◌+◌, ◌*◌, ◌++◌, ◌∷◌, [], Ok, Some, length, map, is_some, true, false, vec_len, vec_capacity, IfOk, OnOk, OnErr};
ghost use Rattle.std.specs.List.{AllByRecursion};
ghost use Rattle.seq_bus_core.specs.Batches.{IsBatch, max_batch};
ghost use Rattle.message_core.specs.Said.{said};
ghost use Rattle.router_core.specs.Answers.{Says};
ghost use Rattle.router_core.specs.Events.{answering_each, serving_apart, work_for, gathering, after_joining, making_all, making_each, making_if, turning};
ghost use Rattle.router_core.specs.Scripts.{Changing, RunsTo, World, and_then};
ghost use Rattle.router_core.specs.Serving.{OfFate, after_change};
ghost use Rattle.router_core.specs.Standing.{peer_at};
ghost use Rattle.router_core.specs.Together.{change_of_joint, joining, rule_call};
ghost use Rattle.router_core.specs.declared.joint.RuleCall.{RuleCall as Rule_call};
ghost use Rattle.router.specs.Joinings.{RepliesAlone, parting_of};
ghost use Rattle.router.specs.Dues.{IsDue, IsDueAt};
ghost use Rattle.router.specs.Named.{is_named};

use crate::joining::{Joining, Parting, answer, change_of, join, make, part, rule_call_of};
use crate::peers::Peers;
use bus_view::BusView;
use driver::Call;
use message_core::Message;
use router_core::limits::MAX_EFFECTS;
use router_core::{Gate, Joint, PeerFate};
use router_steps::{Peer, Stage, Upcoming};
use seq_bus_core::{Change, Conn, Outcome};
use std::alloc::{AllocError, Global};

/// The most actions that a call brings whose change was made: its answer and a close.
const ANSWER: usize = 2;

/// The changes of calls, in order.
fn changes_of(alloc: Global, joints: &[Joint]) -> Result<Vec<Change>, AllocError>
    ensures { IfOk result (λ changes. changes.items ≡ map change_of_joint joints.now) }
{
    let mut changes = Vec::with_capacity(alloc, joints.len())?;
    for joint in joints {
        changes.push(change_of(joint))?;
    }
    Ok(changes)
}

/// One call more, for which there is room.
fn push_reserved(joints: &mut Vec<Joint>, joint: Joint)
    requires { vec_len joints.old < vec_capacity joints.old }
    ensures items { joints.new.items ≡ joints.old.items ++ joint ∷ [] }
    ensures capacity { vec_capacity joints.old ≤ vec_capacity joints.new }
{
    let _ = joints.push(joint);
}

/// Whether the connection has a name.
fn is_named(peer: &Peer) -> bool
    ensures { result ≡ is_named (Some peer.now) }
{
    match peer.stage() {
        Stage::Named(_) => true,
        Stage::Authenticating(_) => false,
        Stage::Unnamed { privileged: _ } => false,
        Stage::Closing(_) => false,
    }
}

/// What is next of a connection.
#[derive(Drop)]
enum Due {
    /// Nothing that can be served.
    Nothing,
    /// What is served by itself.
    Apart,
    /// A call of a connection that has a name, which adds or removes a rule and reads well. It was
    /// taken off the bytes.
    Rule(Conn, Message, Call),
}

/// What is next of a connection. Without memory to read it nothing changes.
fn due_of(peer: &mut Peer) -> Result<Due, AllocError>
    ensures due { IfOk result (λ due. IsDue due peer.old peer.new) }
    ensures err { OnErr result (peer.new ≡ peer.old) }
{
    match peer.stage() {
        Stage::Authenticating(_) | Stage::Closing(_) => Ok(Due::Nothing),
        Stage::Unnamed { privileged: _ } => {
            if peer.is_coming()? {
                Ok(Due::Apart)
            } else {
                Ok(Due::Nothing)
            }
        }
        Stage::Named(conn) => {
            let conn = *conn;
            match peer.take_rule()? {
                Upcoming::Waits => Ok(Due::Nothing),
                Upcoming::Other => Ok(Due::Apart),
                Upcoming::Rule(message, call) => Ok(Due::Rule(conn, message, call)),
            }
        }
    }
}

impl<V: BusView, G: Gate> Peers<V, G> {
    /// Takes the next messages of connections off their bytes, as many of each as its key stands
    /// there. Without memory those that were taken off stay its next ones.
    fn read_ahead(&mut self, keys: &[usize]) -> Result<(), AllocError>
        ensures standing { self.new.standing ≡ self.old.standing }
        ensures work { self.new.work ≡ self.old.work }
        ensures keys { self.new.keys ≡ self.old.keys }
    {
        for key in keys {
            self.read_of(*key)?;
        }
        Ok(())
    }

    /// Takes one more message of a connection off its bytes, which stays unserved.
    fn read_of(&mut self, key: usize) -> Result<(), AllocError>
        ensures standing { self.new.standing ≡ self.old.standing }
        ensures work { self.new.work ≡ self.old.work }
        ensures keys { self.new.keys ≡ self.old.keys }
    {
        match self.peers.get_mut(key) {
            None => Ok(()),
            Some(peer) => peer.read_ahead(),
        }
    }

    /// Whether the connection of a key has a name, if there is one.
    fn has_name(&self, key: usize) -> bool
        ensures { result ≡ is_named (peer_at self.now.standing key) }
    {
        match self.peers.get(key) {
            None => false,
            Some(peer) => is_named(peer),
        }
    }

    /// Does to the connection of a key, which has a name, what is to become of it.
    fn settle(&mut self, key: usize, fate: PeerFate)
        requires named { is_named (peer_at self.old.standing key) ≡ true }
        requires room { 0 < self.old.work.room }
        ensures comes { (work : OfFate) (w : World V.Note G) →
            RunsTo V.BusView G.Gate work w fate self.old.work.world →
            RunsTo V.BusView G.Gate (work_for self.old.standing key work)
            w self.new.standing self.new.work.world }
        ensures room { self.old.work.room ≤ self.new.work.room + 1 }
        ensures spare_verdicts { self.new.work.spare_verdicts ≡ self.old.work.spare_verdicts }
        ensures keys { self.new.keys ≡ self.old.keys }
    {
        self.context.settle(key, &mut self.peers[key], fate);
    }

    /// Makes the change of a call by itself, unless its connection was closed in the meantime.
    fn make_one(&mut self, right: &V::Right, joint: &Joint)
        requires room { 1 < self.old.work.room }
        requires spare_verdicts { 0 < self.old.work.spare_verdicts }
        ensures comes { RunsTo V.BusView G.Gate
            (work_for self.old.standing joint.now.key
            (Changing (change_of_joint joint.now)
            (λ heard. after_change (said joint.now.message) joint.now.caller heard)))
            self.old.work.world self.new.standing self.new.work.world }
        ensures room { self.old.work.room ≤ self.new.work.room + 2 }
        ensures spare_verdicts { self.old.work.spare_verdicts ≤ self.new.work.spare_verdicts + 1 }
        ensures keys { self.new.keys ≡ self.old.keys }
    {
        if !self.has_name(joint.key) {
            return;
        }
        let fate = make(&mut self.context, right, joint);
        self.settle(joint.key, fate);
    }

    /// Answers a call whose change was made, unless its connection was closed in the meantime.
    fn answer_one(&mut self, joint: &Joint, outcome: Outcome)
        requires room { 1 < self.old.work.room }
        requires spare_verdicts { 0 < self.old.work.spare_verdicts }
        requires alone { RepliesAlone outcome }
        ensures comes { RunsTo V.BusView G.Gate
            (work_for self.old.standing joint.now.key
            (after_change (said joint.now.message) joint.now.caller (Says outcome)))
            self.old.work.world self.new.standing self.new.work.world }
        ensures room { self.old.work.room ≤ self.new.work.room + 2 }
        ensures spare_verdicts { self.old.work.spare_verdicts ≤ self.new.work.spare_verdicts + 1 }
        ensures keys { self.new.keys ≡ self.old.keys }
    {
        if !self.has_name(joint.key) {
            return;
        }
        let fate = answer(&mut self.context, joint, outcome);
        self.settle(joint.key, fate);
    }

    /// Makes the changes of calls, each by itself.
    fn make_each(&mut self, right: &V::Right, joints: &[Joint])
        requires room { 2 * length joints.now ≤ self.old.work.room }
        requires spare_verdicts { length joints.now ≤ self.old.work.spare_verdicts }
        ensures comes { RunsTo V.BusView G.Gate (making_each joints.now self.old.standing)
            self.old.work.world self.new.standing self.new.work.world }
        ensures room { self.old.work.room ≤ self.new.work.room + 2 * length joints.now }
        ensures spare_verdicts { self.old.work.spare_verdicts
            ≤ self.new.work.spare_verdicts + length joints.now }
        ensures keys { self.new.keys ≡ self.old.keys }
    {
        for joint in joints {
            self.make_one(right, joint);
        }
    }

    /// Answers calls whose changes were made, in order.
    fn answer_each(&mut self, joints: &[Joint], outcomes: Vec<Outcome>)
        requires room { 2 * length joints.now ≤ self.old.work.room }
        requires spare_verdicts { length joints.now ≤ self.old.work.spare_verdicts }
        requires alone { AllByRecursion RepliesAlone outcomes.items }
        ensures comes { RunsTo V.BusView G.Gate
            (answering_each joints.now outcomes.items self.old.standing)
            self.old.work.world self.new.standing self.new.work.world }
        ensures room { self.old.work.room ≤ self.new.work.room + 2 * length joints.now }
        ensures spare_verdicts { self.old.work.spare_verdicts
            ≤ self.new.work.spare_verdicts + length joints.now }
        ensures keys { self.new.keys ≡ self.old.keys }
    {
        let mut place = 0;
        for outcome in outcomes {
            if place < joints.len() {
                self.answer_one(&joints[place], outcome);
                place += 1;
            }
        }
    }

    /// Makes the changes of calls together.
    fn make_batch(&mut self, right: &V::Right, joints: &[Joint], changes: Vec<Change>)
        requires room { 2 * length joints.now ≤ self.old.work.room }
        requires spare_verdicts { length joints.now ≤ self.old.work.spare_verdicts }
        requires changes { changes.items ≡ map change_of_joint joints.now }
        requires batch { IsBatch changes.items }
        ensures comes { RunsTo V.BusView G.Gate (making_if joints.now self.old.standing true)
            self.old.work.world self.new.standing self.new.work.world }
        ensures room { self.old.work.room ≤ self.new.work.room + 2 * length joints.now }
        ensures spare_verdicts { self.old.work.spare_verdicts
            ≤ self.new.work.spare_verdicts + length joints.now }
        ensures keys { self.new.keys ≡ self.old.keys }
    {
        match self.context.change_all(right, changes) {
            Ok(outcomes) => self.answer_each(joints, outcomes),
            Err(_) => self.make_each(right, joints),
        }
    }

    /// Makes the changes of calls, in one publication where they are several.
    fn make_joined(&mut self, right: &V::Right, joints: &[Joint])
        requires few { length joints.now ≤ max_batch }
        requires room { 2 * length joints.now ≤ self.old.work.room }
        requires spare_verdicts { length joints.now ≤ self.old.work.spare_verdicts }
        ensures comes { RunsTo V.BusView G.Gate (making_all joints.now self.old.standing)
            self.old.work.world self.new.standing self.new.work.world }
        ensures room { self.old.work.room ≤ self.new.work.room + 2 * length joints.now }
        ensures spare_verdicts { self.old.work.spare_verdicts
            ≤ self.new.work.spare_verdicts + length joints.now }
        ensures keys { self.new.keys ≡ self.old.keys }
    {
        if joints.len() < 2 {
            self.make_each(right, joints);
            return;
        }
        let Ok(changes) = changes_of(self.alloc, joints) else {
            self.make_each(right, joints);
            return;
        };
        self.make_batch(right, joints, changes);
    }

    /// Makes the changes of the calls that were gathered, which are done then.
    fn make_all(&mut self, right: &V::Right, joints: &mut Vec<Joint>)
        requires few { length joints.old.items ≤ max_batch }
        requires room { 2 * length joints.old.items ≤ self.old.work.room }
        requires spare_verdicts { length joints.old.items ≤ self.old.work.spare_verdicts }
        ensures comes { RunsTo V.BusView G.Gate (making_all joints.old.items self.old.standing)
            self.old.work.world self.new.standing self.new.work.world }
        ensures none { joints.new.items ≡ [] }
        ensures capacity { vec_capacity joints.old ≤ vec_capacity joints.new }
        ensures room { self.old.work.room ≤ self.new.work.room + 2 * length joints.old.items }
        ensures spare_verdicts { self.old.work.spare_verdicts
            ≤ self.new.work.spare_verdicts + length joints.old.items }
        ensures keys { self.new.keys ≡ self.old.keys }
    {
        self.make_joined(right, joints);
        joints.clear();
    }

    /// Does what is to be done for a call that did not join others, unless its connection was
    /// closed in the meantime.
    fn part_one(
        &mut self,
        right: &V::Right,
        key: usize,
        message: &Message,
        caller: Conn,
        parting: Parting,
    )
        requires room { MAX_EFFECTS + 2 < self.old.work.room }
        requires spare_verdicts { 0 < self.old.work.spare_verdicts }
        ensures comes { RunsTo V.BusView G.Gate
            (work_for self.old.standing key (parting_of (said message.now) caller parting))
            self.old.work.world self.new.standing self.new.work.world }
        ensures keys { self.new.keys ≡ self.old.keys }
    {
        if !self.has_name(key) {
            return;
        }
        let fate = part(
            self.alloc,
            &mut self.context,
            right,
            message,
            caller,
            parting,
        );
        self.settle(key, fate);
    }

    /// Serves the next message of a connection, once the changes of the calls before it are made.
    /// Without memory these alone are made.
    fn serve_apart(
        &mut self,
        right: &V::Right,
        key: usize,
        joints: &mut Vec<Joint>,
    ) -> Result<(), AllocError>
        requires few { length joints.old.items ≤ max_batch }
        requires room { 2 * length joints.old.items ≤ self.old.work.room }
        requires spare_verdicts { length joints.old.items ≤ self.old.work.spare_verdicts }
        ensures comes { OnOk result (RunsTo V.BusView G.Gate
            (serving_apart joints.old.items self.old.standing key)
            self.old.work.world (record {
              joints = joints.new.items;
              standing = self.new.standing;
              served = true;
            }) self.new.work.world) }
        ensures refused { OnErr result (RunsTo V.BusView G.Gate
            (making_all joints.old.items self.old.standing)
            self.old.work.world self.new.standing self.new.work.world) }
        ensures none { joints.new.items ≡ [] }
        ensures capacity { vec_capacity joints.old ≤ vec_capacity joints.new }
        ensures keys { self.new.keys ≡ self.old.keys }
    {
        self.make_all(right, joints);
        self.next(right, key)
    }

    /// Routes a call that adds or removes a rule, and gathers it.
    fn join_one(
        &mut self,
        right: &V::Right,
        key: usize,
        conn: Conn,
        message: Message,
        call: Call,
        joints: &mut Vec<Joint>,
    )
        requires spare { vec_len joints.old < vec_capacity joints.old }
        requires few { length joints.old.items ≤ max_batch }
        requires room { 2 * length joints.old.items + MAX_EFFECTS + 4 ≤ self.old.work.room }
        requires spare_verdicts { length joints.old.items + 1 < self.old.work.spare_verdicts }
        requires rule { is_some (rule_call (Ok call)) ≡ true }
        ensures comes { (c : Rule_call) → rule_call (Ok call) ≡ Some c →
            RunsTo V.BusView G.Gate (and_then (joining (said message) conn c)
            (λ it. after_joining joints.old.items self.old.standing
            (record { key = key; message = message; caller = conn; call = c }) it))
            self.old.work.world (record {
              joints = joints.new.items;
              standing = self.new.standing;
              served = true;
            }) self.new.work.world }
        ensures more { length joints.new.items ≤ length joints.old.items + 1 }
        ensures capacity { vec_capacity joints.old ≤ vec_capacity joints.new }
        ensures room { 2 * length joints.new.items ≤ self.new.work.room }
        ensures spare_verdicts { length joints.new.items ≤ self.new.work.spare_verdicts }
        ensures keys { self.new.keys ≡ self.old.keys }
    {
        match join(&mut self.context, &message, conn, &call) {
            Joining::Joins => {
                let joint = Joint {
                    key,
                    message,
                    caller: conn,
                    call: rule_call_of(call),
                };
                push_reserved(joints, joint);
            }
            Joining::Parts(parting) => {
                self.make_all(right, joints);
                self.part_one(right, key, &message, conn, parting);
            }
        }
    }

    /// What is next of the connection of a key. Without memory to read it nothing changes.
    fn due_at(&mut self, key: usize) -> Result<Due, AllocError>
        ensures due { IfOk result (λ due. IsDueAt due key self.old.standing self.new.standing) }
        ensures err { OnErr result (self.new.standing ≡ self.old.standing) }
        ensures work { self.new.work ≡ self.old.work }
        ensures keys { self.new.keys ≡ self.old.keys }
    {
        let Some(peer) = self.peers.get_mut(key) else {
            return Ok(Due::Nothing);
        };
        due_of(peer)
    }

    /// Makes room for so many actions, and for so many of them to have several recipients. Without
    /// memory there is room as before.
    fn make_room(&mut self, actions: usize, spare_verdicts: usize) -> Result<(), AllocError>
        ensures standing { self.new.standing ≡ self.old.standing }
        ensures world { self.new.work.world ≡ self.old.work.world }
        ensures room { OnOk result (actions ≤ self.new.work.room) }
        ensures kept { OnErr result
            (self.new.work.room ≡ self.old.work.room ⊎ actions ≤ self.new.work.room) }
        ensures spare_verdicts { OnOk result (spare_verdicts ≤ self.new.work.spare_verdicts) }
        ensures spare_kept { self.old.work.spare_verdicts ≤ self.new.work.spare_verdicts }
        ensures keys { self.new.keys ≡ self.old.keys }
    {
        self.context.reserve(actions)?;
        self.context.reserve_verdicts(spare_verdicts)
    }

    /// The next message of a connection: gathers it where it is a call that adds or removes a rule,
    /// and else serves it. Tells whether there was one. Without memory for it the changes of the
    /// calls before it are made, and it stays unserved.
    fn gather(
        &mut self,
        right: &V::Right,
        key: usize,
        joints: &mut Vec<Joint>,
    ) -> Result<bool, AllocError>
        requires spare { vec_len joints.old < vec_capacity joints.old }
        requires few { length joints.old.items ≤ max_batch }
        requires room { 2 * length joints.old.items ≤ self.old.work.room }
        requires spare_verdicts { length joints.old.items ≤ self.old.work.spare_verdicts }
        ensures comes { IfOk result (λ served. RunsTo V.BusView G.Gate
            (gathering joints.old.items self.old.standing key (peer_at self.old.standing key))
            self.old.work.world (record {
              joints = joints.new.items;
              standing = self.new.standing;
              served = served;
            }) self.new.work.world) }
        ensures joints { IfOk result (λ served. served ≡ false →
            joints.new.items ≡ joints.old.items) }
        ensures standing { IfOk result (λ served. served ≡ false →
            self.new.standing ≡ self.old.standing) }
        ensures world { IfOk result (λ served. served ≡ false →
            self.new.work.world ≡ self.old.work.world) }
        ensures refused { OnErr result (RunsTo V.BusView G.Gate
            (making_all joints.old.items self.old.standing)
            self.old.work.world self.new.standing self.new.work.world) }
        ensures more { length joints.new.items ≤ length joints.old.items + 1 }
        ensures capacity { vec_capacity joints.old ≤ vec_capacity joints.new }
        ensures room { 2 * length joints.new.items ≤ self.new.work.room }
        ensures spare_verdicts { length joints.new.items ≤ self.new.work.spare_verdicts }
        ensures keys { self.new.keys ≡ self.old.keys }
    {
        if !self.peers.contains(key) {
            return Ok(false);
        }
        // The answers to the calls that were gathered and to this one, what is shown to monitors,
        // and what it may come to where it does not join them.
        let Ok(()) = self.make_room(ANSWER * joints.len() + MAX_EFFECTS + 4, joints.len() + 2)
        else {
            self.make_all(right, joints);
            return Err(AllocError);
        };
        match self.due_at(key) {
            Err(refused) => {
                self.make_all(right, joints);
                Err(refused)
            }
            Ok(Due::Nothing) => Ok(false),
            Ok(Due::Apart) => {
                self.serve_apart(right, key, joints)?;
                Ok(true)
            }
            Ok(Due::Rule(conn, message, call)) => {
                self.join_one(right, key, conn, message, call, joints);
                Ok(true)
            }
        }
    }

    /// Serves the next messages of connections, one after the other, as many of each as its key
    /// stands there. Neighbouring calls that add and remove rules are routed first, then their
    /// changes are made together, then they are answered. Without memory to read them all, or for
    /// the first, nothing changes; without memory for a later one it and those behind it stay
    /// unserved.
    pub fn turn(&mut self, right: &V::Right, keys: &[usize]) -> Result<(), AllocError>
        requires { length keys.now ≤ max_batch }
        ensures comes { OnOk result (RunsTo V.BusView G.Gate
            (turning [] keys.now false self.old.standing)
            self.old.work.world self.new.standing self.new.work.world) }
        ensures err { OnErr result (self.new.standing ≡ self.old.standing) }
        ensures world { OnErr result (self.new.work.world ≡ self.old.work.world) }
        ensures keys { self.new.keys ≡ self.old.keys }
    {
        self.read_ahead(keys)?;
        let mut joints = Vec::with_capacity(self.alloc, keys.len())?;
        let mut begun = false;
        for key in keys {
            match self.gather(right, *key, &mut joints) {
                Ok(served) => begun = begun || served,
                Err(refused) => return if begun { Ok(()) } else { Err(refused) },
            }
        }
        self.make_all(right, &mut joints);
        Ok(())
    }
}
