//! What becomes of a connection once a message of it was served.

ghost use Rattle.std.specs.Prelude.{◌≡◌, ◌<◌, ◌≤◌, ◌+◌, true};
ghost use Rattle.router_core.specs.Events.{after_serving};
ghost use Rattle.router_core.specs.Scripts.{RunsTo};

use crate::context::Context;
use crate::peer::Peer;
use bus_view::BusView;
use router_core::{Gate, PeerFate};

impl Peer {
    /// It is a monitor from now on.
    fn watch(&mut self)
        ensures { self.new ≡ record self.old { watches = true } }
    {
        self.watches = true;
    }
}

impl<V: BusView, G: Gate> Context<V, G> {
    /// Leaves a connection as it stays, makes it a monitor, or closes it.
    pub fn settle(&mut self, key: usize, peer: &mut Peer, fate: PeerFate)
        requires { 0 < self.old.room }
        ensures comes { RunsTo V.BusView G.Gate (after_serving key fate peer.old)
            self.old.world peer.new self.new.world }
        ensures room { self.old.room ≤ self.new.room + 1 }
        ensures spare_verdicts { self.new.spare_verdicts ≡ self.old.spare_verdicts }
    {
        match fate {
            PeerFate::Stays => {}
            PeerFate::Watches => peer.watch(),
            PeerFate::Closes(cause) => self.close_peer(key, peer, cause),
        }
    }
}
