//! Connections that say Hello. (D-Bus Specification: "org.freedesktop.DBus.Hello")

ghost use Rattle.std.specs.Prelude.{◌≡◌, ◌<◌, ◌≤◌, ◌+◌, ℕ, false, length, position, slice_set, Some, IfOk, IfSome};
ghost use Rattle.message_core.specs.Said.{said};
ghost use Rattle.seq_bus_core.specs.Bounds.{IsBounded};
ghost use Rattle.seq_bus_core.specs.declared.limits.TheConstants.{MAX_SIGNALS};
ghost use Rattle.router_core.specs.Answers.{error_for, refusal_of};
ghost use Rattle.router_core.specs.Events.{refusing_hello, dismissal, for_peer, closing_former, greeting, after_hello, after_hello_by, serving_hello};
ghost use Rattle.router_core.specs.Scripts.{RunsTo};
ghost use Rattle.router_core.specs.Standing.{Peer as Standing_peer, has_slot, next_serial, peer_at, trimmed};
ghost use Rattle.router_steps.specs.Hearing.{heard_change};
ghost use Rattle.router_steps.specs.Refusing.{IsRefusal, AreRefusals};
ghost use Rattle.router.specs.Indexed.{slot_count, IsIndexed, IsNameless, IsVacant};
ghost use Rattle.router.specs.Welcomes.{welcome_conn};

use crate::peers::{Peers, SLOT_COUNT};
use bus_view::{BusView, Cause};
use driver::{Call, ReplyBody};
use message_core::Message;
use router_core::{CloseCause, Gate, WrittenBytes};
use router_steps::{HelloErrors, Peer, Stage};
use seq_bus_core::{Change, Conn, ErrorKind, Outcome, Reply};
use slab::Slab;

/// The connection that is welcome.
fn welcomed(reply: Reply) -> Option<Conn>
    ensures { result ≡ welcome_conn reply }
{
    match reply {
        Reply::Welcome(conn) => Some(conn),
        _ => None,
    }
}

/// Whether the connection has a name, and this slot.
fn has_slot(peer: &Peer, slot: u16) -> bool
    ensures { result ≡ has_slot slot (Some peer.now) }
{
    match peer.stage() {
        Stage::Named(conn) => conn.slot == slot,
        Stage::Authenticating(_) => false,
        Stage::Unnamed { privileged: _ } => false,
        Stage::Closing(_) => false,
    }
}

/// The key of the connection that has a name, and this slot, by a walk.
fn search_slot(peers: &Slab<Peer>, slot: u16) -> Option<usize>
    ensures { result ≡ position (has_slot slot) (trimmed peers.now.slots) }
{
    for key in 0..peers.capacity() {
        let Some(peer) = peers.get(key) else {
            continue;
        };
        if has_slot(peer, slot) {
            return Some(key);
        }
    }
    None
}

/// The key of the connection that has a name, and this slot.
fn find_slot(peers: &Slab<Peer>, key_of_slot: &[usize; SLOT_COUNT], slot: u16) -> Option<usize>
    requires { IsIndexed peers.now.slots key_of_slot.now }
    ensures { result ≡ position (has_slot slot) (trimmed peers.now.slots) }
{
    let at = usize::from(slot);
    if at >= SLOT_COUNT {
        return search_slot(peers, slot);
    }
    let key = key_of_slot[at];
    let Some(peer) = peers.get(key) else {
        return None;
    };
    if has_slot(peer, slot) {
        return Some(key);
    }
    None
}

/// Keeps the key of the connection that has a slot from now on.
fn keep_key(key_of_slot: &mut [usize; SLOT_COUNT], slot: u16, key: usize)
    ensures set { key_of_slot.new ≡ slice_set key_of_slot.old slot key }
    ensures count { length key_of_slot.old ≡ slot_count }
{
    let at = usize::from(slot);
    if at < SLOT_COUNT {
        key_of_slot[at] = key;
    }
}

impl<V: BusView, G: Gate> Peers<V, G> {
    /// The key of the connection that has a name, and this slot.
    pub fn key_of(&self, slot: u16) -> Option<usize>
        ensures { result ≡ position (has_slot slot) self.now.standing.peers }
    {
        find_slot(&self.peers, &self.key_of_slot, slot)
    }

    /// Whoever had the slot before has left, though its connection is not gone yet: it is closed.
    fn close_former(&mut self, conn: Conn)
        requires { 0 < self.old.work.room }
        ensures comes { RunsTo V.BusView G.Gate (closing_former self.old.standing conn)
            self.old.work.world self.new.standing self.new.work.world }
        ensures room { self.old.work.room ≤ self.new.work.room + 1 }
        ensures spare_verdicts { self.new.work.spare_verdicts ≡ self.old.work.spare_verdicts }
        ensures keys { self.new.keys ≡ self.old.keys }
        ensures vacant { IsVacant conn.slot self.new.standing.peers }
        ensures others { (key : ℕ) → has_slot conn.slot (peer_at self.old.standing key) ≡ false →
            peer_at self.new.standing key ≡ peer_at self.old.standing key }
    {
        if let Some(key) = find_slot(&self.peers, &self.key_of_slot, conn.slot) {
            self.context
                .close_peer(key, &mut self.peers[key], CloseCause::Left);
        }
    }

    /// The connection has its name: the reply comes first, then the signals.
    fn welcome(&mut self, key: usize, hello: &Message, outcome: Outcome, conn: Conn)
        requires room { length outcome.signals < self.old.work.room }
        requires spare_verdicts { 0 < self.old.work.spare_verdicts }
        requires nameless { IsNameless (peer_at self.old.standing key) }
        requires vacant { IsVacant conn.slot self.old.standing.peers }
        ensures comes { (p : Standing_peer) → peer_at self.old.standing key ≡ Some p →
            RunsTo V.BusView G.Gate
            (greeting key (said hello.now) p outcome conn self.old.standing)
            self.old.work.world self.new.standing self.new.work.world }
        ensures keys { self.new.keys ≡ self.old.keys }
    {
        self.context
            .reply_with(hello, conn, ReplyBody::UniqueName(conn.number));
        self.context.announce(outcome.signals);
        self.peers[key].welcome(conn);
        keep_key(&mut self.key_of_slot, conn.slot, key);
    }

    /// The bus refused the Hello: the connection stays without a name.
    fn refuse_at(&mut self, key: usize, hello: &Message, why: Cause, errors: HelloErrors)
        requires room { 1 < self.old.work.room }
        requires spare_verdicts { 0 < self.old.work.spare_verdicts }
        requires nameless { IsNameless (peer_at self.old.standing key) }
        requires written { IfSome (peer_at self.old.standing key)
            (λ p. AreRefusals (said hello.now) (next_serial p.serial) errors) }
        ensures comes { RunsTo V.BusView G.Gate
            (for_peer self.old.standing key (peer_at self.old.standing key)
            (refusing_hello key (said hello.now) (error_for (refusal_of why))))
            self.old.work.world self.new.standing self.new.work.world }
        ensures keys { self.new.keys ≡ self.old.keys }
    {
        self.context
            .refuse_for(key, hello, &mut self.peers[key], why, errors);
    }

    /// The Hello would exceed a limit of the bus: the connection is closed.
    fn turn_away_at(&mut self, key: usize, hello: &Message, bytes: WrittenBytes)
        requires room { 2 < self.old.work.room }
        requires spare_verdicts { 0 < self.old.work.spare_verdicts }
        requires nameless { IsNameless (peer_at self.old.standing key) }
        requires written { IfSome (peer_at self.old.standing key) (λ p. IsRefusal
            (said hello.now) ErrorKind.LimitsExceeded (next_serial p.serial) bytes) }
        ensures comes { RunsTo V.BusView G.Gate
            (for_peer self.old.standing key (peer_at self.old.standing key)
            (dismissal key (said hello.now)))
            self.old.work.world self.new.standing self.new.work.world }
        ensures keys { self.new.keys ≡ self.old.keys }
    {
        self.context
            .turn_away(key, hello, &mut self.peers[key], bytes);
    }

    /// The bus made the Hello: the connection is welcome, or too many are there.
    fn answer_hello(&mut self, key: usize, hello: &Message, outcome: Outcome, errors: HelloErrors)
        requires room { length outcome.signals + 2 < self.old.work.room }
        requires spare_verdicts { 0 < self.old.work.spare_verdicts }
        requires nameless { IsNameless (peer_at self.old.standing key) }
        requires written { IfSome (peer_at self.old.standing key)
            (λ p. AreRefusals (said hello.now) (next_serial p.serial) errors) }
        ensures comes { (p : Standing_peer) → peer_at self.old.standing key ≡ Some p →
            RunsTo V.BusView G.Gate
            (after_hello_by self.old.standing key (said hello.now) p outcome outcome.reply)
            self.old.work.world self.new.standing self.new.work.world }
        ensures keys { self.new.keys ≡ self.old.keys }
    {
        match welcomed(outcome.reply) {
            Some(conn) => {
                self.close_former(conn);
                self.welcome(key, hello, outcome, conn);
            }
            None => self.turn_away_at(key, hello, errors.into_limits()),
        }
    }

    /// What comes of a Hello once the bus has answered.
    fn finish_hello(
        &mut self,
        key: usize,
        hello: &Message,
        heard: Result<Outcome, Cause>,
        errors: HelloErrors,
    )
        requires room { MAX_SIGNALS + 2 < self.old.work.room }
        requires few { IfOk heard IsBounded }
        requires spare_verdicts { 0 < self.old.work.spare_verdicts }
        requires nameless { IsNameless (peer_at self.old.standing key) }
        requires written { IfSome (peer_at self.old.standing key)
            (λ p. AreRefusals (said hello.now) (next_serial p.serial) errors) }
        ensures comes { (p : Standing_peer) → peer_at self.old.standing key ≡ Some p →
            RunsTo V.BusView G.Gate
            (after_hello self.old.standing key (said hello.now) p (heard_change heard))
            self.old.work.world self.new.standing self.new.work.world }
        ensures keys { self.new.keys ≡ self.old.keys }
    {
        match heard {
            Ok(outcome) => self.answer_hello(key, hello, outcome, errors),
            Err(why) => self.refuse_at(key, hello, why, errors),
        }
    }

    /// Serves the Hello of the connection of a key, which has no name yet. The gate is shown the
    /// call, the bus makes the change, and the connection has its name: the reply comes first, then
    /// the signals; whoever had the slot before and has left is closed. Where the bus refuses, the
    /// connection is answered an error; where a limit would be exceeded, it is closed too.
    ///
    /// It takes no memory: room was made, and the errors were made too.
    pub(crate) fn serve_hello(
        &mut self,
        right: &V::Right,
        key: usize,
        hello: &Message,
        privileged: bool,
        errors: HelloErrors,
    )
        requires room { MAX_SIGNALS + 2 < self.old.work.room }
        requires spare_verdicts { 0 < self.old.work.spare_verdicts }
        requires nameless { IsNameless (peer_at self.old.standing key) }
        requires written { IfSome (peer_at self.old.standing key)
            (λ p. AreRefusals (said hello.now) (next_serial p.serial) errors) }
        ensures comes { (p : Standing_peer) → peer_at self.old.standing key ≡ Some p →
            RunsTo V.BusView G.Gate
            (serving_hello self.old.standing key (said hello.now) p privileged)
            self.old.work.world self.new.standing self.new.work.world }
        ensures keys { self.new.keys ≡ self.old.keys }
    {
        self.context.show_gate(&Call::Hello);
        let heard = self.context.change(right, Change::Hello { privileged });
        self.finish_hello(key, hello, heard, errors);
    }
}
