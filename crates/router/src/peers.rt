//! The connections with what serves them, while an event is served.

ghost use Rattle.std.specs.Prelude.{◌≡◌, ◌<◌, [], is_some, count_by, IfOk, OnOk, OnErr};
ghost use Rattle.router_core.specs.Events.{hearing, for_peer};
ghost use Rattle.router_core.specs.Scripts.{RunsTo};
ghost use Rattle.router_core.specs.Standing.{IsFree, first_stage, fresh, with_newcomer, peer_at};
ghost use Rattle.router_steps.specs.Stages.{stage_of, IsFirst};

use crate::login::Login;
use bus_view::BusView;
use router_core::{Action, Gate};
use router_steps::{Context, Peer, Stage};
use sasl::Server;
use seq_bus_core::limits::MAX_CONNECTIONS;
use slab::Slab;
use std::alloc::{AllocError, Global};
use std::marker::Model;

/// The bus gives slots below this.
pub(crate) const SLOT_COUNT: usize = MAX_CONNECTIONS;

/// The connections by their keys, the numbers of those that left and whose Leave is not made yet,
/// and what is at hand.
#[derive(Drop)]
pub struct Peers<V: BusView, G: Gate> {
    pub(crate) alloc: Global,
    pub(crate) context: Context<V, G>,
    pub(crate) peers: Slab<Peer>,
    /// The key of the connection that has a slot, if there is one.
    pub(crate) key_of_slot: [usize; SLOT_COUNT],
    pub(crate) due_leaves: Vec<u64>,
    /// Who may log in; none where nobody is asked.
    login: Option<Login>,
}

impl<V: BusView, G: Gate> Model for Peers<V, G> {
    ghost use Rattle.router.specs.Indexed.{IsIndexed};
    ghost use Rattle.router.specs.Tables.{Table};
    ghost use Rattle.router_core.specs.Standing.{trimmed};

    ghost Value = { Table V.Note G };

    ghost view = { λ s. record {
      standing = record {
        peers = trimmed s.peers.slots;
        due_leaves = s.due_leaves.items;
        login = s.login;
      };
      keys = record { next = s.peers.vacant_key; capacity = s.peers.capacity };
      work = s.context;
    } };

    ghost invariant = { λ s. IsIndexed s.peers.slots s.key_of_slot };
}

impl<V: BusView + Drop, G: Gate + Drop> Peers<V, G> {
    /// No connections.
    pub fn new(
        alloc: Global,
        view: V,
        gate: G,
        login: Option<Login>,
    ) -> Result<Peers<V, G>, AllocError>
        ensures standing { IfOk result (λ peers. peers.standing ≡ fresh login) }
        ensures first_key { IfOk result (λ peers. peers.keys.next ≡ 0) }
        ensures world { IfOk result
            (λ peers. peers.work.world ≡ record {
              view = V.knows view;
              gate = gate;
              actions = [];
            }) }
    {
        Ok(Peers {
            alloc,
            context: Context::new(alloc, view, gate)?,
            peers: Slab::new(alloc),
            key_of_slot: [0; SLOT_COUNT],
            due_leaves: Vec::new(alloc),
            login,
        })
    }
}

impl<V: BusView, G: Gate> Peers<V, G> {
    /// Hands out the actions.
    pub fn take_actions(&mut self) -> Vec<Action<V::Note>>
        ensures standing { self.new.standing ≡ self.old.standing }
        ensures keys { self.new.keys ≡ self.old.keys }
        ensures actions { result.items ≡ self.old.work.world.actions }
        ensures world { self.new.work.world ≡ record self.old.work.world { actions = [] } }
    {
        self.context.take_actions()
    }

    /// Takes back the actions that it handed out, once they are done.
    pub fn give_back(&mut self, actions: Vec<Action<V::Note>>)
        ensures standing { self.new.standing ≡ self.old.standing }
        ensures keys { self.new.keys ≡ self.old.keys }
        ensures world { self.new.work.world ≡ self.old.work.world }
    {
        self.context.give_back(actions);
    }

    /// The view of the bus.
    pub fn view(&self) -> &V
        ensures { V.knows result.now ≡ self.now.work.world.view }
    {
        self.context.view()
    }

    /// The key of the next connection, which none has.
    pub fn free_key(&self) -> usize
        ensures next { result ≡ self.now.keys.next }
        ensures free { IsFree self.now.standing result }
    {
        self.peers.vacant_key()
    }

    /// Whether connections can be asked who they are.
    pub fn has_login(&self) -> bool
        ensures { result ≡ is_some self.now.standing.login }
    {
        self.login.is_some()
    }

    /// How far a connection has come that has sent nothing: with a challenge it is to say who it
    /// is.
    fn first_stage(&self, challenge: Option<[u8; 16]>) -> Result<Stage, AllocError>
        ensures stage { IfOk result
            (λ stage. stage_of stage ≡ first_stage self.now.standing.login challenge) }
        ensures first { IfOk result IsFirst }
    {
        let Some(challenge) = challenge else {
            return Ok(Stage::Unnamed { privileged: true });
        };
        let Some(login) = &self.login else {
            return Ok(Stage::Closing(None));
        };
        let server = Server::new(
            self.alloc,
            login.guid,
            login.user.clone()?,
            login.cookie.try_clone()?,
            challenge,
            login.allow_anonymous,
        );
        match Box::new(self.alloc, server) {
            Ok(server) => Ok(Stage::Authenticating(server)),
            Err(_) => Err(AllocError),
        }
    }

    /// A connection came, and has the key that was next. Without memory nothing changes, but perhaps
    /// how many fit. The table grows only where it is full.
    pub fn open(&mut self, challenge: Option<[u8; 16]>) -> Result<(), AllocError>
        ensures ok { OnOk result (self.new.standing
            ≡ with_newcomer self.old.standing self.old.keys.next challenge) }
        ensures free { OnOk result (IsFree self.new.standing self.new.keys.next) }
        ensures below { OnOk result (self.old.keys.next < self.new.keys.capacity) }
        ensures err { OnErr result (self.new.standing ≡ self.old.standing) }
        ensures next { OnErr result (self.new.keys.next ≡ self.old.keys.next) }
        ensures growth { count_by is_some self.old.standing.peers < self.old.keys.capacity →
            self.new.keys.capacity ≡ self.old.keys.capacity }
        ensures work { self.new.work ≡ self.old.work }
    {
        let peer = Peer::new(self.alloc, self.first_stage(challenge)?);
        let Ok(_) = self.peers.insert(peer) else {
            return Err(AllocError);
        };
        // Contracts see that no connection has it.
        let _next = self.peers.vacant_key();
        Ok(())
    }

    /// Bytes of a connection came. Without memory nothing changes, and they stay where they were.
    pub fn feed(&mut self, key: usize, piece: &mut Vec<u8>) -> Result<(), AllocError>
        ensures comes { OnOk result (RunsTo V.BusView G.Gate
            (for_peer self.old.standing key (peer_at self.old.standing key)
            (λ p. hearing key piece.old.items p p.stage))
            self.old.work.world self.new.standing self.new.work.world) }
        ensures err { OnErr result (self.new.standing ≡ self.old.standing) }
        ensures world { OnErr result (self.new.work.world ≡ self.old.work.world) }
        ensures kept { OnErr result (piece.new ≡ piece.old) }
        ensures keys { self.new.keys ≡ self.old.keys }
    {
        let Some(peer) = self.peers.get_mut(key) else {
            return Ok(());
        };
        self.context.reserve(2)?;
        self.context.hear(key, peer, piece)
    }
}
