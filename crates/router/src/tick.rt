//! What is done as time passes.

ghost use Rattle.std.specs.Prelude.{◌≡◌, ◌≤◌, ◌+◌, ◌*◌, [], IfSome, OnOk, OnErr};
ghost use Rattle.seq_bus_core.specs.declared.limits.TheConstants.{MAX_SIGNALS};
ghost use Rattle.router_core.specs.Events.{checking_each, ticking};
ghost use Rattle.router_core.specs.Scripts.{RunsTo};
ghost use Rattle.router_core.specs.Standing.{trimmed};

use crate::peers::Peers;
use bus_view::BusView;
use router_core::Gate;
use router_steps::{Context, Peer};
use seq_bus_core::limits::MAX_SIGNALS;
use slab::Slab;
use std::alloc::AllocError;

/// How many actions so many Leaves and closes bring at most, unless they are too many to count.
fn room_for(leaves: usize, closes: usize) -> Option<usize>
    ensures { IfSome result (λ room. room ≡ MAX_SIGNALS * leaves + closes) }
{
    leaves.checked_mul(MAX_SIGNALS)?.checked_add(closes)
}

/// Closes the connections with a name that have left, by rising key.
fn check_all<V: BusView, G: Gate>(context: &mut Context<V, G>, peers: &mut Slab<Peer>)
    requires { peers.old.capacity ≤ context.old.room }
    ensures comes { RunsTo V.BusView G.Gate (checking_each [] (trimmed peers.old.slots))
        context.old.world (trimmed peers.new.slots) context.new.world }
    ensures key { peers.new.vacant_key ≡ peers.old.vacant_key }
    ensures capacity { peers.new.capacity ≡ peers.old.capacity }
{
    for key in 0..peers.capacity() {
        let Some(peer) = peers.get_mut(key) else {
            continue;
        };
        context.check_presence(key, peer);
    }
}

impl<V: BusView, G: Gate> Peers<V, G> {
    /// Time has passed: the Leaves that were refused are made, in order, and then each connection
    /// with a name that has left is closed. A Leave that is refused again is kept. Without memory
    /// nothing changes.
    pub fn tick(&mut self, right: &V::Right) -> Result<(), AllocError>
        ensures comes { OnOk result (RunsTo V.BusView G.Gate (ticking self.old.standing)
            self.old.work.world self.new.standing self.new.work.world) }
        ensures err { OnErr result (self.new.standing ≡ self.old.standing) }
        ensures world { OnErr result (self.new.work.world ≡ self.old.work.world) }
        ensures keys { self.new.keys ≡ self.old.keys }
    {
        let room = room_for(self.due_leaves.len(), self.peers.capacity()).ok_or(AllocError)?;
        self.context.reserve(room)?;
        let mut kept = Vec::with_capacity(self.alloc, self.due_leaves.len())?;
        self.context.leave_all(right, &self.due_leaves, &mut kept);
        self.due_leaves = kept;
        check_all(&mut self.context, &mut self.peers);
        Ok(())
    }
}
