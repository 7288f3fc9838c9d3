//! The ways between the routers of one process.

ghost use Rattle.std.specs.Prelude.{◌≡◌, ◌+◌, ◌-◌, ◌*◌, ◌^◌, ◌<◌, true, length, map, min, IfNone, IfOk, IfSome, OnOk, OnErr};
ghost use Rattle.routers_core.specs.Posts.{AsksFor, IsFullFor, IsOwn, Sends, Waited, new_slot_mail, places_of};

use crate::coordinator::{Coordinator, Wake};
use crate::slot_mail::SlotMail;
use bus_trace::Traced;
use outbox::{EnvelopeOf, Full, Lane, Tap};
use outbox_core::{BusMessage, Content};
use registry_snapshots::{Desk, Naming, Note};
use router_host_core::{NoRoom, Post, StartRequest, TooManyStarts};
use seq_bus_core::Conn;
use std::alloc::{AllocError, Global};
use std::marker::Model;
use std::sync::Wait;

/// How a router reaches the others: its lane into all outboxes, its own places, its lane to whoever
/// runs the programs of services, and the coordinator, where it tells that something was brought to
/// another thread. What it puts for a place of its own passes no outbox.
///
/// Contracts see the lanes, the places and the slot of the first.
pub struct LanePost<'a, J: Naming, W: Wake + Drop> {
    lane: Lane<EnvelopeOf<J>>,
    places: Vec<SlotMail<EnvelopeOf<J>>>,
    starts: Lane<StartRequest>,
    coordinator: &'a Coordinator<W>,
    /// The slot of its first place.
    first: usize,
    /// Whose it is: a router's number, or [`MAIN_THREAD`](crate::MAIN_THREAD).
    me: usize,
    /// How many events were served.
    events: u64,
    /// How many changes of the bus were seen when the last of them was served.
    seen: u64,
    /// Which of these was the last that this router made, counted from 1.
    last: u64,
    /// The event made changes, and what is put tells of them.
    is_telling: bool,
    /// The others have put what comes of their changes up to this position.
    cleared: u64,
    /// How many envelopes were put for other routers since it was looked how many wait.
    puts_since_look: u8,
    /// What another router is behind with.
    backlog: Option<Backlog>,
}

impl<'a, J: Naming, W: Wake + Drop> Drop for LanePost<'a, J, W> {
    fn drop(self) {
        let LanePost {
            lane,
            places,
            starts,
            coordinator: _,
            first: _,
            me: _,
            events: _,
            seen: _,
            last: _,
            is_telling: _,
            cleared: _,
            puts_since_look: _,
            backlog: _,
        } = self;
        drop(lane);
        drop(places);
        drop(starts);
    }
}

/// Much mail that waits for a place of another router.
#[derive(Clone, Copy)]
struct Backlog {
    slot: usize,
    /// How many turns that router had ended when it was seen.
    turns: u64,
}

/// So many envelopes are put for other routers before it is looked how many wait for one of their
/// places: an odd number, so that each of several places has its turn.
const PUTS_PER_LOOK: u8 = 7;

/// So many envelopes that wait for a place are a backlog. Most of its outbox is left for what one
/// event may bring: over a hundred for a monitor, where a connection with 64 names leaves; and for
/// what other routers put until they look.
const MIN_BACKLOG: usize = 80;

impl<'a, J: Naming, W: Wake + Drop> Model for LanePost<'a, J, W> {
    ghost use Rattle.outbox_core.specs.declared.envelope.Envelope.{Envelope};
    ghost use Rattle.router_host_core.specs.declared.post.StartRequest.{StartRequest};
    ghost use Rattle.routers_core.specs.Posts.{Ways};
    ghost use Rattle.seq_bus_core.specs.Histories.{History};

    ghost Value = { Ways (Envelope History) StartRequest };

    ghost view = { λ p. record {
      lane = p.lane;
      places = p.places.items;
      first = p.first;
      starts = p.starts;
    } };
}

fn is_signal(content: &Content) -> bool {
    match content {
        Content::Relayed(_) => false,
        Content::Own(message) => matches!(message, BusMessage::Signal(_)),
    }
}

/// The places of these taps.
fn places_over<E: Drop>(alloc: Global, taps: Vec<Tap<E>>) -> Result<Vec<SlotMail<E>>, AllocError>
    ensures { IfOk result (λ places. places.items ≡ map new_slot_mail taps.items) }
{
    let mut places = Vec::with_capacity(alloc, taps.len())?;
    for tap in taps {
        places.push(SlotMail::new(alloc, tap)?)?;
    }
    Ok(places)
}

impl<'a, J: Naming, W: Wake + Drop> LanePost<'a, J, W> {
    /// The post of router `me` of the coordinator, or of [`MAIN_THREAD`](crate::MAIN_THREAD), with
    /// its lane and the taps of its places, and its lane to whoever runs the programs of services.
    ///
    /// # Errors
    ///
    /// There may not be memory for what it puts for its own places.
    pub fn new(
        alloc: Global,
        me: usize,
        lane: Lane<EnvelopeOf<J>>,
        taps: Vec<Tap<EnvelopeOf<J>>>,
        starts: Lane<StartRequest>,
        coordinator: &'a Coordinator<W>,
    ) -> Result<LanePost<'a, J, W>, AllocError>
        ensures lane { IfOk result (λ post. post.lane ≡ lane) }
        ensures places { IfOk result (λ post. post.places ≡ map new_slot_mail taps.items) }
        ensures first { IfOk result (λ post.
            post.first ≡ min (me * places_of coordinator.now) (2 ^ 64 - 1)) }
        ensures starts { IfOk result (λ post. post.starts ≡ starts) }
    {
        let places = places_over(alloc, taps)?;
        Ok(LanePost {
            lane,
            places,
            starts,
            coordinator,
            first: coordinator.first_slot(me),
            me,
            events: 0,
            seen: 0,
            last: 0,
            is_telling: false,
            cleared: 0,
            puts_since_look: 0,
            backlog: None,
        })
    }

    /// The place of its own that a slot is.
    fn own_place(&self, slot: usize) -> Option<usize>
        ensures own { IfSome result (λ place. (slot ≡ self.now.first + place)
            × (place < length self.now.places)) }
        ensures others { IfNone result (IsOwn self.now slot → ⊥) }
    {
        let place = slot.checked_sub(self.first)?;
        if place < self.places.len() {
            Some(place)
        } else {
            None
        }
    }

    /// How many envelopes that others put wait for a slot.
    fn waiting<R: Wait>(&mut self, right: &R, slot: usize) -> usize
        ensures same { self.new ≡ self.old }
        ensures count { Waited self.old slot result }
    {
        if slot < self.lane.slots() {
            self.lane.len(right, slot)
        } else {
            0
        }
    }

    /// Up to which change the others are to have put what comes of theirs, before an envelope is
    /// put: the last that the event saw, or where it made changes itself, the one before that which
    /// the envelope tells.
    fn earlier_than(&self, envelope: &EnvelopeOf<J>) -> u64 {
        if !self.is_telling {
            return self.seen;
        }
        match &envelope.note {
            Some(note) => note.prefix().len().saturating_sub(1),
            None => 0,
        }
    }

    /// What comes of a change is put before what comes later: waits until the others have put what
    /// comes of their changes.
    fn await_earlier<R: Wait>(&mut self, right: &R, envelope: &EnvelopeOf<J>)
        ensures same { self.new ≡ self.old }
    {
        let position = self.earlier_than(envelope);
        if position <= self.cleared {
            return;
        }
        self.cleared = position;
        self.coordinator.tellings().tell_up_to(self.me, position);
        self.coordinator
            .tellings()
            .await_others(right, self.me, position);
    }

    /// Puts an envelope for a place of its own, which this slot is, behind those that others have
    /// put there.
    fn put_own<R: Wait>(
        &mut self,
        right: &R,
        slot: usize,
        place: usize,
        envelope: EnvelopeOf<J>,
    ) -> Result<(), NoRoom>
        requires { (slot ≡ self.old.first + place) × (place < length self.old.places) }
        ensures put { OnOk result (Sends self.old slot envelope self.new) }
        ensures refused { OnErr result (self.new ≡ self.old) }
        ensures full { OnErr result (IsFullFor self.old slot) }
    {
        let waiting = self.waiting(right, slot);
        match self.places[place].put(envelope, waiting, self.events) {
            Ok(()) => Ok(()),
            Err(Full(_envelope)) => Err(NoRoom),
        }
    }

    /// Puts an envelope into the outbox of a slot of another router, and tells that one. It is
    /// refused only where that was full at some moment.
    fn put_away<R: Wait>(
        &mut self,
        right: &R,
        slot: usize,
        envelope: EnvelopeOf<J>,
    ) -> Result<(), NoRoom>
        requires { IsOwn self.old slot → ⊥ }
        ensures put { OnOk result (Sends self.old slot envelope self.new) }
        ensures refused { OnErr result (self.new ≡ self.old) }
        ensures full { OnErr result (IsFullFor self.old slot) }
    {
        if slot >= self.lane.slots() {
            return Err(NoRoom);
        }
        if let Err(Full(_envelope)) = self.lane.put(right, slot, envelope) {
            return Err(NoRoom);
        }
        self.coordinator.tell_of_mail(slot);
        Ok(())
    }

    /// Whether it is to be looked how many envelopes wait for a slot of another router.
    fn is_to_look(&mut self) -> bool
        ensures same { self.new ≡ self.old }
    {
        self.puts_since_look = self.puts_since_look.saturating_add(1);
        if self.puts_since_look < PUTS_PER_LOOK {
            return false;
        }
        self.puts_since_look = 0;
        true
    }

    /// Looks now and then whether much mail waits for a slot of another router, which is let go
    /// first once what is served is served. Who has no places serves nobody, and lets it go first
    /// at once, before it puts what need not come before what others put.
    fn look<R: Wait>(&mut self, right: &R, slot: usize, envelope: &EnvelopeOf<J>)
        ensures same { self.new ≡ self.old }
    {
        if self.places.is_empty() {
            if !is_signal(&envelope.content) {
                self.await_room(right, slot);
            }
        } else if self.is_to_look() && self.has_much(right, slot) {
            self.note_backlog(slot);
        }
    }

    /// Where much mail waits for a slot of another router, waits until that one has had a turn, but
    /// not for ever.
    fn await_room<R: Wait>(&mut self, right: &R, slot: usize)
        ensures same { self.new ≡ self.old }
    {
        if !self.has_much(right, slot) {
            return;
        }
        let Some(turns) = self.coordinator.turns_of(slot) else {
            return;
        };
        // That one may wait for this thread.
        self.coordinator.tellings().end(self.me, self.seen);
        let had_turn = self.coordinator.await_had_turn(right, slot, turns);
        if !had_turn || self.has_much(right, slot) {
            self.coordinator.note_stuck(slot);
        }
    }

    /// Notes that much mail waits for a slot of another router.
    fn note_backlog(&mut self, slot: usize)
        ensures same { self.new ≡ self.old }
    {
        if self.backlog.is_some() {
            return;
        }
        if let Some(turns) = self.coordinator.turns_of(slot) {
            self.backlog = Some(Backlog { slot, turns });
        }
    }

    /// Whether much mail waits for a slot of another router.
    fn has_much<R: Wait>(&mut self, right: &R, slot: usize) -> bool
        ensures same { self.new ≡ self.old }
    {
        self.waiting(right, slot) >= MIN_BACKLOG
    }

    /// Whether a backlog is no reason to wait any more: it is gone, or its connection does not take
    /// its mail.
    fn is_settled<R: Wait>(&mut self, right: &R, backlog: Backlog) -> bool
        ensures same { self.new ≡ self.old }
    {
        if !self.has_much(right, backlog.slot) {
            return true;
        }
        if !self.coordinator.has_had_turn(backlog.slot, backlog.turns) {
            return false;
        }
        self.coordinator.note_stuck(backlog.slot);
        true
    }
}

impl<'a, 'b, J: Naming, W: Wake + Drop, R: Wait> Post<Traced<Desk<'b, J, R>>>
    for LanePost<'a, J, W> {
    ghost use Rattle.routers_core.specs.Posts.{AsksFor, Receives, Sends, HasNoneFor, IsFullFor};

    ghost registry = { λ _. J.book.number };

    ghost puts = { λ before to envelope after. Sends before to.slot envelope after };

    ghost starts = { λ before start after. AsksFor before start after };

    ghost takes = { λ before slot envelope after. Receives before slot envelope after };

    ghost refuses = { λ before to. IsFullFor before to.slot };

    ghost lacks = { λ before slot. HasNoneFor before slot };

    fn put(&mut self, right: &R, to: Conn, envelope: EnvelopeOf<J>) -> Result<(), NoRoom>
        ensures put { OnOk result (Sends self.old to.slot envelope self.new) }
        ensures refused { OnErr result (self.new ≡ self.old) }
        ensures full { OnErr result (IsFullFor self.old to.slot) }
    {
        self.await_earlier(right, &envelope);
        let slot = usize::from(to.slot);
        match self.own_place(slot) {
            Some(place) => self.put_own(right, slot, place, envelope),
            None => {
                self.look(right, slot, &envelope);
                self.put_away(right, slot, envelope)
            }
        }
    }

    fn start(&mut self, right: &R, request: StartRequest) -> Result<(), TooManyStarts>
        ensures asked { OnOk result (AsksFor self.old request self.new) }
        ensures refused { OnErr result (self.new ≡ self.old) }
    {
        if self.starts.slots() == 0 {
            return Err(TooManyStarts);
        }
        if let Err(Full(_request)) = self.starts.put(right, 0, request) {
            return Err(TooManyStarts);
        }
        self.coordinator.wake_main();
        Ok(())
    }

    fn take(&mut self, right: &R, slot: u16) -> Option<EnvelopeOf<J>> {
        let place = self.own_place(usize::from(slot))?;
        self.coordinator.note_taking(usize::from(slot));
        self.places[place].take(right)
    }

    fn event_begins(&mut self) {
        self.coordinator.tellings().begin(self.me);
    }

    fn event_served(&mut self, seen: u64, last: u64, tells: bool) {
        self.events = self.events.wrapping_add(1);
        self.is_telling = tells && last > self.last;
        self.seen = seen;
        self.last = last;
    }

    fn event_carried_out(&mut self) {
        self.is_telling = false;
        self.coordinator.tellings().end(self.me, self.seen);
    }

    fn wake_others(&mut self, _right: &R) {
        // An event that there was no memory for made no change.
        self.coordinator.tellings().end(self.me, self.seen);
        self.coordinator.wake_owed();
    }

    fn is_behind(&self) -> bool {
        self.backlog.is_some()
    }

    fn let_go_first(&mut self, right: &R) {
        let Some(backlog) = self.backlog else {
            return;
        };
        if !self.is_settled(right, backlog) {
            self.coordinator.await_turn(right, backlog.slot);
        }
        if self.is_settled(right, backlog) {
            self.backlog = None;
        }
    }

    fn ask_check(&mut self, _right: &R, at: Conn) {
        let slot = usize::from(at.slot);
        if self.own_place(slot).is_none() {
            self.coordinator.ask_check(slot);
        }
    }

    fn ask_checks(&mut self, _right: &R) {
        self.coordinator.ask_checks_of_others(self.first);
    }
}
