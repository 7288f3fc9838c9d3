//! Connections that are gone.

ghost use Rattle.std.specs.Prelude.{◌≡◌, ◌≢◌, ◌↔◌, [], IsTrue, OnOk, OnErr};
ghost use Rattle.router_core.specs.Events.{removing, leaving};
ghost use Rattle.router_core.specs.Scripts.{RunsTo};
ghost use Rattle.router_core.specs.Standing.{peer_at};
ghost use Rattle.router.specs.NextKeys.{key_after};

use crate::peers::Peers;
use bus_view::BusView;
use router_core::Gate;
use seq_bus_core::limits::MAX_SIGNALS;
use std::alloc::AllocError;

impl<V: BusView, G: Gate> Peers<V, G> {
    /// A connection is gone: its key is free, and the Leave of its number is made. A Leave that is
    /// refused is kept, and made at a [`tick`](Peers::tick). Without memory nothing changes.
    pub fn close(&mut self, right: &V::Right, key: usize) -> Result<(), AllocError>
        ensures comes { OnOk result (RunsTo V.BusView G.Gate
            (removing self.old.standing key (peer_at self.old.standing key))
            self.old.work.world self.new.standing self.new.work.world) }
        ensures keys { OnOk result (self.new.keys ≡ record self.old.keys {
          next = key_after self.old.keys.next key (peer_at self.old.standing key);
        }) }
        ensures err { OnErr result (self.new.standing ≡ self.old.standing) }
        ensures err_keys { OnErr result (self.new.keys ≡ self.old.keys) }
        ensures world { OnErr result (self.new.work.world ≡ self.old.work.world) }
    {
        self.context.reserve(MAX_SIGNALS)?;
        self.due_leaves.reserve(1)?;
        let Some(peer) = self.peers.try_remove(key) else {
            return Ok(());
        };
        self.context
            .leave_of(right, peer.stage().conn(), &mut self.due_leaves);
        Ok(())
    }

    /// The Leave of a number is made, whoever has it. One that is refused is kept, and made at a
    /// [`tick`](Peers::tick). Without memory nothing changes.
    pub fn leave(&mut self, right: &V::Right, number: u64) -> Result<(), AllocError>
        ensures comes { OnOk result (RunsTo V.BusView G.Gate (leaving self.old.standing number)
            self.old.work.world self.new.standing self.new.work.world) }
        ensures err { OnErr result (self.new.standing ≡ self.old.standing) }
        ensures world { OnErr result (self.new.work.world ≡ self.old.work.world) }
        ensures keys { self.new.keys ≡ self.old.keys }
    {
        self.context.reserve(MAX_SIGNALS)?;
        self.due_leaves.reserve(1)?;
        self.context.leave(right, number, &mut self.due_leaves);
        Ok(())
    }

    /// Whether a Leave was refused, and is due.
    pub fn ticks(&self) -> bool
        ensures { IsTrue result ↔ (self.now.standing.due_leaves ≢ []) }
    {
        !self.due_leaves.is_empty()
    }
}
