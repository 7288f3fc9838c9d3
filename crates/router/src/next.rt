//! Connections whose next message is served.

ghost use Rattle.std.specs.Prelude.{◌≡◌, true, false, OnOk, OnErr};
ghost use Rattle.router_core.specs.Events.{serving_next};
ghost use Rattle.router_core.specs.Scripts.{RunsTo};
ghost use Rattle.router_core.specs.Standing.{peer_at};
ghost use Rattle.router.specs.Upcoming.{HasNoNext};

use crate::messages::next_in;
use crate::peers::Peers;
use bus_view::BusView;
use router_core::Gate;
use router_core::limits::MAX_EFFECTS;
use router_steps::HelloCall;
use std::alloc::AllocError;

impl<V: BusView, G: Gate> Peers<V, G> {
    /// Whether the connection of a key has sent a whole message that was not served, or what is no
    /// message.
    pub fn has_next(&self, key: usize) -> bool
        ensures quiet { result ≡ false → HasNoNext self.now.standing key }
        ensures ready { result ≡ true → HasNoNext self.now.standing key → ⊥ }
    {
        match self.peers.get(key) {
            None => false,
            Some(peer) => peer.has_next(),
        }
    }

    /// Serves the next whole message of a connection, if there is one. A connection without a name
    /// is served where it says Hello, and closed where it says anything else; what is no message
    /// closes each. Without memory nothing changes.
    pub fn next(&mut self, right: &V::Right, key: usize) -> Result<(), AllocError>
        ensures comes { OnOk result (RunsTo V.BusView G.Gate
            (serving_next self.old.standing key (peer_at self.old.standing key))
            self.old.work.world self.new.standing self.new.work.world) }
        ensures err { OnErr result (self.new.standing ≡ self.old.standing) }
        ensures world { OnErr result (self.new.work.world ≡ self.old.work.world) }
        ensures keys { self.new.keys ≡ self.old.keys }
    {
        let Some(peer) = self.peers.get_mut(key) else {
            return Ok(());
        };
        // What is shown to monitors, the signals, the answer and a close, and each call that waited
        // for the name.
        self.context.reserve(MAX_EFFECTS + 3)?;
        self.context.reserve_verdicts(2)?;
        match next_in(self.alloc, &mut self.context, right, key, peer)? {
            None => {}
            Some(
                HelloCall {
                    privileged,
                    hello,
                    errors,
                },
            ) => self.serve_hello(right, key, &hello, privileged, errors),
        }
        Ok(())
    }
}
