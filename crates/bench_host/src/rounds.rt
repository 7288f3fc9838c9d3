//! What is done once.
//!
//! It finds the same each time, which the checksum folds 64 times: of a reply with 16 bytes 80 are
//! written, with 1 KiB 1,088, of a signal 120, of the reply of GetNameOwner 89.

use crate::client::Client;
use crate::scenes::Scene;
use bench_core::Work;
use bus_view::BusView;
use router_core::Gate;
use router_host::{Host, Post};

/// What happens to a host in a round.
#[derive(Clone, Copy)]
pub enum Round {
    /// Each of the first clients sends its message, one after the other, and it is served: what is
    /// found is how many bytes the client of this key was written.
    Sends { senders: usize, watched: usize },
    /// Time passes: 1 is found where there is memory for it.
    Ticks,
}

/// A host, and what happens to it.
#[derive(Drop)]
pub struct Rounds<'a, V: BusView, G: Gate, P: Post<V>> {
    pub scene: Scene,
    pub right: &'a V::Right,
    pub host: Host<V, G, P, Client>,
    pub round: Round,
}

impl<V: BusView, G: Gate, P: Post<V>> Rounds<'_, V, G, P> {
    /// The first clients send their next messages, one after the other.
    pub fn send(&mut self, senders: usize) {
        for key in 0..senders {
            self.host.readable(key, false);
            let _refused = self.host.turn(self.right);
        }
    }

    /// How many bytes a client was written.
    fn taken(&self, key: usize) -> u64 {
        match self.host.socket(key) {
            Some(client) => client.taken,
            None => 0,
        }
    }
}

impl<V: BusView, G: Gate, P: Post<V>> Work for Rounds<'_, V, G, P> {
    fn name(&self) -> &'static str {
        self.scene.name()
    }

    fn once(&mut self, _round: u64) -> u64 {
        match self.round {
            Round::Sends { senders, watched } => {
                let before = self.taken(watched);
                self.send(senders);
                self.taken(watched).wrapping_sub(before)
            }
            Round::Ticks => u64::from(self.host.tick(self.right).is_ok()),
        }
    }
}
