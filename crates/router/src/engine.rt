//! The engine: what serves the events of a router.

ghost use Rattle.std.specs.Prelude.{◌≡◌, ◌≢◌, ◌↔◌, [], IsTrue, true, false, is_some, OnOk, OnErr, IfOk, position, count_by};
ghost use Rattle.std.specs.List.{AllByRecursion};
ghost use Rattle.router_core.specs.Acts.{BringsBy, CanHappen, IsNextKey};
ghost use Rattle.router_core.specs.Deeds.{CarriesOwn};
ghost use Rattle.router_core.specs.Standing.{IsFree, fresh, has_slot, is_unnamed, peer_at};
ghost use Rattle.router_core.specs.declared.event.Event.TheVariants.{Opened, Bytes, Next, Turn, Mail, Closed, Full, Tick};
ghost use Rattle.router.specs.NextKeys.{HasNextKey, key_after};
ghost use Rattle.router.specs.Numbers.{number_at};
ghost use Rattle.router.specs.OneEvent.{IsServedWellBy};
ghost use Rattle.router.specs.Upcoming.{HasNoNext};

use crate::login::Login;
use crate::peers::Peers;
use bus_view::BusView;
use outbox_core::Envelope;
use router_core::{Action, Event, Gate};
use std::alloc::{AllocError, Global};
use std::marker::Model;

/// An engine serves one event after another, and hands out the actions that each brings. An event
/// that there is no memory for changes nothing.
pub struct Engine<V: BusView, G: Gate> {
    pub(crate) peers: Peers<V, G>,
}

impl<V: BusView, G: Gate> Model for Engine<V, G> {
    ghost use Rattle.std.specs.Prelude.{◌≡◌, []};
    ghost use Rattle.router_core.specs.Acts.{State};

    ghost Value = { State G };

    ghost view = { λ e. record {
      standing = e.peers.standing;
      next_key = e.peers.keys.next;
      view = e.peers.work.world.view;
      gate =
          e.peers.work.world.gate;
    } };

    ghost invariant = { λ e. e.peers.work.world.actions ≡ [] };
}

impl<V: BusView + Drop, G: Gate + Drop> Drop for Engine<V, G> {
    fn drop(self) {
        let Engine { peers } = self;
        drop(peers);
    }
}

impl<V: BusView + Drop, G: Gate + Drop> Engine<V, G> {
    /// An engine without connections. Connections that come with a challenge are asked who they
    /// are, by the login. It takes some memory.
    pub fn new(
        alloc: Global,
        view: V,
        gate: G,
        login: Option<Login>,
    ) -> Result<Engine<V, G>, AllocError>
        ensures { IfOk result
            (λ engine. engine ≡ record {
              standing = fresh login;
              next_key = 0;
              view = V.knows view;
              gate = gate;
            }) }
    {
        Ok(Engine {
            peers: Peers::new(alloc, view, gate, login)?,
        })
    }
}

impl<V: BusView, G: Gate> Engine<V, G> {
    /// The view of the bus, of which a host asks what was seen and made.
    pub fn view(&self) -> &V
        ensures { V.knows result.now ≡ self.now.view }
    {
        self.peers.view()
    }

    /// The key of the next connection, which none has: that of the one that was gone last, unless
    /// another came since.
    pub fn free_key(&self) -> usize
        ensures { IsNextKey self.now result }
    {
        self.peers.free_key()
    }

    /// Whether connections can be asked who they are: with a login one may come with a challenge.
    pub fn has_login(&self) -> bool
        ensures { result ≡ is_some self.now.standing.login }
    {
        self.peers.has_login()
    }

    /// A connection came, and has the key that was next.
    fn opened(&mut self, challenge: Option<[u8; 16]>) -> Result<Vec<Action<V::Note>>, AllocError>
        ensures brings { IfOk result
            (λ actions. BringsBy V.BusView G.Gate self.old (Opened self.old.next_key challenge)
            actions.items self.new) }
        ensures key { OnOk result (IsFree self.new.standing self.new.next_key) }
        ensures err { OnErr result (self.new ≡ self.old) }
    {
        self.peers.open(challenge)?;
        Ok(self.peers.take_actions())
    }

    /// Bytes of a connection came. Without memory they stay where they were.
    fn bytes(&mut self, key: usize, piece: &mut Vec<u8>) -> Result<Vec<Action<V::Note>>, AllocError>
        ensures brings { IfOk result
            (λ actions. BringsBy V.BusView G.Gate self.old (Bytes key piece.old)
            actions.items self.new) }
        ensures key { OnOk result (self.new.next_key ≡ self.old.next_key) }
        ensures err { OnErr result (self.new ≡ self.old) }
        ensures kept { OnErr result (piece.new ≡ piece.old) }
    {
        self.peers.feed(key, piece)?;
        Ok(self.peers.take_actions())
    }

    /// The key of the connection that has a name and this slot.
    pub fn key_of(&self, slot: u16) -> Option<usize>
        ensures { result ≡ position (has_slot slot) self.now.standing.peers }
    {
        self.peers.key_of(slot)
    }

    /// How many connections have no name yet.
    pub fn unnamed(&self) -> usize
        ensures { result ≡ count_by is_unnamed self.now.standing.peers }
    {
        self.peers.unnamed()
    }

    /// The number of the connection of a key, once its Hello gave it one. A closed one keeps it
    /// until it is gone.
    pub fn number_of(&self, key: usize) -> Option<u64>
        ensures { result ≡ number_at self.now.standing key }
    {
        self.peers.number_of(key)
    }

    /// Whether a Leave was refused, and is due at the next tick.
    pub fn ticks(&self) -> bool
        ensures { IsTrue result ↔ (self.now.standing.due_leaves ≢ []) }
    {
        self.peers.ticks()
    }

    /// Takes back the actions that an event brought, once they are done. Those of the next events
    /// stand where they stood; without this the engine makes room for them anew.
    pub fn give_back(&mut self, actions: Vec<Action<V::Note>>)
        ensures { self.new ≡ self.old }
    {
        self.peers.give_back(actions);
    }

    /// Whether a connection has sent a whole message that was not served, or what is no message:
    /// an event `Next` does nothing where it has not.
    pub fn has_next(&self, key: usize) -> bool
        ensures quiet { result ≡ false → HasNoNext self.now.standing key }
        ensures ready { result ≡ true → HasNoNext self.now.standing key → ⊥ }
    {
        self.peers.has_next(key)
    }

    /// The next whole message of a connection is served. There are no actions where there is none.
    fn next(&mut self, right: &V::Right, key: usize) -> Result<Vec<Action<V::Note>>, AllocError>
        ensures brings { IfOk result
            (λ actions. BringsBy V.BusView G.Gate self.old (Next key)
            actions.items self.new) }
        ensures key { OnOk result (self.new.next_key ≡ self.old.next_key) }
        ensures err { OnErr result (self.new ≡ self.old) }
    {
        self.peers.next(right, key)?;
        Ok(self.peers.take_actions())
    }

    /// The next whole messages of connections are served, one after the other, as many of each as
    /// its key stands there.
    fn turn(
        &mut self,
        right: &V::Right,
        keys: &Vec<usize>,
    ) -> Result<Vec<Action<V::Note>>, AllocError>
        requires { CanHappen V.registry_of self.old (Turn keys.now) }
        ensures brings { IfOk result
            (λ actions. BringsBy V.BusView G.Gate self.old (Turn keys.now)
            actions.items self.new) }
        ensures key { OnOk result (self.new.next_key ≡ self.old.next_key) }
        ensures err { OnErr result (self.new ≡ self.old) }
    {
        self.peers.turn(right, keys)?;
        Ok(self.peers.take_actions())
    }

    /// An envelope came for the connection in a slot.
    fn mail(
        &mut self,
        slot: u16,
        envelope: &Envelope<V::Note>,
    ) -> Result<Vec<Action<V::Note>>, AllocError>
        requires { CanHappen V.registry_of self.old (Mail slot envelope.now) }
        ensures brings { IfOk result
            (λ actions. BringsBy V.BusView G.Gate self.old
            (Mail slot envelope.now) actions.items self.new) }
        ensures key { OnOk result (self.new.next_key ≡ self.old.next_key) }
        ensures err { OnErr result (self.new ≡ self.old) }
    {
        self.peers.mail(slot, envelope)?;
        Ok(self.peers.take_actions())
    }

    /// A connection is gone, and its key is free.
    fn closed(&mut self, right: &V::Right, key: usize) -> Result<Vec<Action<V::Note>>, AllocError>
        ensures brings { IfOk result
            (λ actions. BringsBy V.BusView G.Gate self.old (Closed key)
            actions.items self.new) }
        ensures key { OnOk result (self.new.next_key
            ≡ key_after self.old.next_key key (peer_at self.old.standing key)) }
        ensures err { OnErr result (self.new ≡ self.old) }
    {
        self.peers.close(right, key)?;
        Ok(self.peers.take_actions())
    }

    /// The connection of a number takes no more mail.
    fn full(&mut self, right: &V::Right, number: u64) -> Result<Vec<Action<V::Note>>, AllocError>
        ensures brings { IfOk result
            (λ actions. BringsBy V.BusView G.Gate self.old (Full number)
            actions.items self.new) }
        ensures key { OnOk result (self.new.next_key ≡ self.old.next_key) }
        ensures err { OnErr result (self.new ≡ self.old) }
    {
        self.peers.leave(right, number)?;
        Ok(self.peers.take_actions())
    }

    /// Time has passed.
    fn tick(&mut self, right: &V::Right) -> Result<Vec<Action<V::Note>>, AllocError>
        ensures brings { IfOk result
            (λ actions. BringsBy V.BusView G.Gate self.old Tick actions.items
            self.new) }
        ensures key { OnOk result (self.new.next_key ≡ self.old.next_key) }
        ensures err { OnErr result (self.new ≡ self.old) }
    {
        self.peers.tick(right)?;
        Ok(self.peers.take_actions())
    }

    /// Serves an event. Without memory nothing changes, and the event neither.
    fn serve(
        &mut self,
        right: &V::Right,
        event: &mut Event<V::Note>,
    ) -> Result<Vec<Action<V::Note>>, AllocError>
        requires { CanHappen V.registry_of self.old event.old }
        ensures brings { IfOk result
            (λ actions. BringsBy V.BusView G.Gate self.old event.old
            actions.items self.new) }
        ensures key { OnOk result (HasNextKey self.old event.old self.new) }
        ensures err { OnErr result (self.new ≡ self.old) }
        ensures kept { OnErr result (event.new ≡ event.old) }
    {
        match event {
            Event::Opened { key: _, challenge } => self.opened(*challenge),
            Event::Bytes { key, piece } => self.bytes(*key, piece),
            Event::Next { key } => self.next(right, *key),
            Event::Turn { keys } => self.turn(right, keys),
            Event::Mail { slot, envelope } => self.mail(*slot, envelope),
            Event::Closed { key } => self.closed(right, *key),
            Event::Full { number } => self.full(right, *number),
            Event::Child(ended) => {
                self.peers.end_start(right, ended)?;
                Ok(self.peers.take_actions())
            }
            Event::Tick => self.tick(right),
        }
    }

    /// Something happened. What it brings, it brings for some answers that the bus may give; over a
    /// bus of one thread, where nothing is refused, it is a function of the event. What its actions
    /// carry is for any engine over a view of the same bus.
    ///
    /// # Errors
    ///
    /// There is no memory for it. Then nothing changed, and the event is as it was: it may be
    /// served again, and brings then what it would have brought. One that was served is of no more
    /// use: its bytes may be gone.
    pub fn event(
        &mut self,
        right: &V::Right,
        event: &mut Event<V::Note>,
    ) -> Result<Vec<Action<V::Note>>, AllocError>
        requires { CanHappen V.registry_of self.old event.old }
        ensures brings { IfOk result
            (λ actions. BringsBy V.BusView G.Gate self.old event.old
            actions.items self.new) }
        ensures served { IfOk result
            (λ actions. IsServedWellBy V.BusView G.Gate self.old event.old actions.items
            self.new) }
        ensures notes { IfOk result
            (λ actions. AllByRecursion (CarriesOwn V.registry_of self.old.view.registry)
            actions.items) }
        ensures registry { self.new.view.registry ≡ self.old.view.registry }
        ensures err { OnErr result (self.new ≡ self.old) }
        ensures handed_back { OnErr result (event.new ≡ event.old) }
    {
        self.serve(right, event)
    }
}
