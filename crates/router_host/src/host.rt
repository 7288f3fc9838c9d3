//! The host of an engine.

ghost use Rattle.std.specs.Prelude.{◌≡◌, ◌≢◌, ◌<◌, [], IfOk, IfErr, IsTrue, None, OnOk, OnErr, count_by, slice_index_or};
ghost use Rattle.router_core.specs.Acts.{IsNextKey};
ghost use Rattle.router_core.specs.Standing.{is_unnamed};
ghost use Rattle.router_host_core.specs.Carrying.{line_at, refusal_of};
ghost use Rattle.router_host_core.specs.Sockets.{unblocked_at};
ghost use Rattle.router_core.specs.declared.event.Event.TheVariants.{Child};
ghost use Rattle.router_host.specs.Doing.{with_lines};
ghost use Rattle.router_host.specs.Happening.{CatchesUp, HappensBy};
ghost use Rattle.router_host.specs.Opening.{IsOpenFault, MakesRoom, OpensBy};
ghost use Rattle.router_host.specs.declared.opening.TheConstants.{MOST_UNNAMED};
ghost use Rattle.router_host.specs.States.{new_host};
ghost use Rattle.router_host_core.specs.States.{new_line};

use crate::kept::Kept;
use crate::opening::{Newcomer, OpenFault, open};
use bus_view::BusView;
use router::Engine;
use router_core::{Action, Event, Gate, StartEnd};
use router_host_core::{Carrier, Ended, Post, Refusal, Slots, Socket};
use std::alloc::{AllocError, Global};
use std::marker::Model;
use std::mem;

/// The most bytes that are read from a socket at once.
const MOST_READ: usize = 262_144;

/// An engine, the connections that it serves, and the mail of their slots.
///
/// Its notes and those of its post are of one registry.
pub struct Host<V: BusView, G: Gate, P: Post<V>, S: Socket> {
    pub(crate) alloc: Global,
    pub(crate) engine: Engine<V, G>,
    pub(crate) carrier: Carrier<V, P, S>,
    /// What events brought that is not carried out yet, the last first.
    pub(crate) undone: Vec<Action<V::Note>>,
    pub(crate) kept: Option<Kept<V::Note>>,
    /// What was read last.
    pub(crate) room: Vec<u8>,
    pub(crate) ended: Vec<Ended>,
    /// How many connections were let go of since this was asked last.
    pub(crate) gone: u64,
    /// Which of these connections are present is to be checked at the next tick.
    pub(crate) check_due: bool,
    /// The last event seems to have added or removed rules. Such calls come in numbers, and share a
    /// publication where they are served at once.
    pub(crate) changes_rules: bool,
    /// How many connections were served since the other routers were told of their mail.
    pub(crate) untold: u8,
}

impl<V: BusView, G: Gate, P: Post<V>, S: Socket> Model for Host<V, G, P, S> {
    ghost use Rattle.std.specs.Prelude.{◌≡◌, reverse};
    ghost use Rattle.std.specs.List.{AllByRecursion};
    ghost use Rattle.router_core.specs.Deeds.{CarriesOwn};
    ghost use Rattle.router_host.specs.States.{Hosted};

    ghost Value = { Hosted P G V.Note };

    ghost use Rattle.router_host.specs.Keeping.{KeepsOwn, waiting};

    ghost view = { λ h. record {
      engine = h.engine;
      carried = h.carrier;
      undone = reverse h.undone.items;
      kept = waiting h.room.items h.kept;
    } };

    ghost invariant = { λ h. (P.registry h.carrier.post ≡ h.engine.view.registry)
        × KeepsOwn V.registry_of h.engine.view.registry h.room.items h.kept
        × AllByRecursion (CarriesOwn V.registry_of h.engine.view.registry)
        (reverse h.undone.items) };
}

impl<V: BusView + Drop, G: Gate + Drop, P: Post<V>, S: Socket> Drop for Host<V, G, P, S> {
    fn drop(self) {
        let Host {
            alloc: _,
            engine,
            carrier,
            undone,
            kept,
            room,
            ended,
            gone: _,
            check_due: _,
            changes_rules: _,
            untold: _,
        } = self;
        drop(engine);
        drop(carrier);
        drop(undone);
        drop(kept);
        drop(room);
        drop(ended);
    }
}

impl<V: BusView + Drop, G: Gate + Drop, P: Post<V>, S: Socket> Host<V, G, P, S> {
    /// A host without connections, whose slots are so many from the first.
    pub fn new(
        alloc: Global,
        engine: Engine<V, G>,
        post: P,
        first: u16,
        count: u16,
    ) -> Result<Self, AllocError>
        requires { P.registry post ≡ engine.view.registry }
        ensures { IfOk result (λ host. host ≡ new_host engine post) }
    {
        let room = Vec::from_elem(alloc, 0u8, MOST_READ)?;
        Ok(Host {
            alloc,
            engine,
            carrier: Carrier::new(alloc, post, Slots::new(alloc, first, count)),
            undone: Vec::new(alloc),
            kept: None,
            room,
            ended: Vec::new(alloc),
            gone: 0,
            check_due: false,
            changes_rules: false,
            untold: 0,
        })
    }
}

impl<V: BusView, G: Gate, P: Post<V>, S: Socket> Host<V, G, P, S> {
    /// The key that the next connection will have.
    pub fn free_key(&self) -> usize
        ensures { IsNextKey self.now.engine result }
    {
        self.engine.free_key()
    }

    /// The socket of the connection of a key, if there is one.
    pub fn socket(&self, key: usize) -> Option<&S> {
        self.carrier.lines.socket(key)
    }

    /// What puts for this router and takes for it.
    pub fn post(&self) -> &P
        ensures { result.now ≡ self.now.carried.post }
    {
        &self.carrier.post
    }

    /// A connection came, and has the key that was next. With a challenge, sixteen bytes that
    /// nobody can guess, it is to say who it is.
    ///
    /// # Errors
    ///
    /// There are 64 connections without a name already, nobody may log in though it is asked to,
    /// more starts of services are asked for than are carried out, or there is no memory.
    pub fn open(
        &mut self,
        right: &V::Right,
        socket: S,
        challenge: Option<[u8; 16]>,
    ) -> Result<usize, OpenFault>
        ensures opens { IfOk result (λ key.
            OpensBy V.BusView G.Gate P.Post self.old
            (new_line (S.remaining socket) (S.taken socket)) key challenge self.new) }
        ensures err { OnErr result (MakesRoom P.puts P.refuses P.starts self.old self.new) }
        ensures few { OnOk result
            (count_by is_unnamed self.old.engine.standing.peers < MOST_UNNAMED) }
        ensures fault { IfErr result (λ fault. IsOpenFault self.old.engine challenge fault) }
    {
        let Ok(()) = self.catch_up(right) else {
            return Err(OpenFault::TooManyStarts);
        };
        let key = self.engine.free_key();
        let Ok(()) = self.carrier.lines.make_room(key) else {
            return Err(OpenFault::NoMemory);
        };
        match open(&mut self.engine, right, challenge) {
            Ok(Newcomer { key, actions }) => {
                self.carrier.lines.open(key, socket);
                self.carry_out(right, actions);
                Ok(key)
            }
            Err(fault) => Err(fault),
        }
    }

    /// A start of a service ended without its name, or did not end in time.
    ///
    /// # Errors
    ///
    /// There was no memory for it, or there is no room for what events before it brought: it is to
    /// be told again.
    pub fn end_start(&mut self, right: &V::Right, end: Box<StartEnd>) -> Result<(), AllocError>
        ensures happens { OnOk result
            (HappensBy V.BusView G.Gate P.Post self.old (Child end) self.new) }
        ensures err { OnErr result (CatchesUp P.puts P.refuses P.starts self.old self.new) }
    {
        self.dispatch(right, &mut Event::Child(end))
    }

    /// The socket of a connection may be read; where it is closing, the other side sends no more.
    pub fn readable(&mut self, key: usize, closing: bool)
        ensures { self.new ≡ self.old }
    {
        self.carrier.lines.note_readable(key, closing);
    }

    /// The socket of a connection takes bytes again.
    pub fn writable(&mut self, key: usize)
        ensures { self.new ≡ with_lines self.old
            (unblocked_at self.old.carried.lines key (line_at self.old.carried.lines key)) }
    {
        if let Some(slot) = self.carrier.lines.note_writable(key) {
            self.carrier.slots.note(slot);
        }
    }

    /// Mail may have come for a slot of this router.
    pub fn mail_came(&mut self, slot: u16)
        ensures { self.new ≡ self.old }
    {
        self.carrier.slots.note_own(slot);
    }

    /// Another router asks to check which connections are present: one of this router took no more
    /// mail, or some that were to leave the bus before have left it.
    pub fn check_came(&mut self)
        ensures { self.new ≡ self.old }
    {
        self.check_due = true;
    }

    /// Lets a router that is behind with its mail have a turn, if there is one. It does not wait
    /// for long.
    pub fn let_others_go_first(&mut self, right: &V::Right)
        ensures { self.new ≡ self.old }
    {
        self.carrier.post.let_go_first(right);
    }

    /// Why the latest connection of a slot that took no more mail did not, if there was one.
    pub fn refusal(&self, slot: u16) -> Option<Refusal>
        ensures { result ≡ refusal_of (slice_index_or self.now.carried.full slot None) }
    {
        self.carrier.put_out.refusal(slot)
    }

    /// Whether something is left for the next turn.
    pub fn is_busy(&self) -> bool {
        self.kept.is_some()
            || !self.undone.is_empty()
            || !self.carrier.lines.is_quiet()
            || !self.carrier.slots.is_empty()
            || !self.carrier.put_out.are_told()
    }

    /// Whether a tick is wanted: whether a connection is present is to be checked, or one could not
    /// leave the bus yet.
    pub fn wants_tick(&self) -> bool
        ensures { self.now.engine.standing.due_leaves ≢ [] → IsTrue result }
    {
        self.check_due || self.engine.ticks()
    }

    /// The connections that were over since this was asked last; at most 1,024, and none that there
    /// was no memory to note.
    pub fn take_ended(&mut self) -> Vec<Ended>
        ensures { self.new ≡ self.old }
    {
        mem::replace(&mut self.ended, Vec::new(self.alloc))
    }

    /// How many connections were let go of since this was asked last, also those that
    /// [`take_ended`](Host::take_ended) does not tell.
    pub fn take_gone(&mut self) -> u64
        ensures { self.new ≡ self.old }
    {
        mem::replace(&mut self.gone, 0)
    }
}
