//! Which connections have a name, and which number.

ghost use Rattle.std.specs.Prelude.{◌≡◌, Some, count_by};
ghost use Rattle.router_core.specs.Standing.{is_unnamed};
ghost use Rattle.router.specs.Numbers.{number_in, number_at};

use crate::peers::Peers;
use bus_view::BusView;
use router_core::Gate;
use router_steps::{Peer, Stage};
use slab::Slab;

/// Whether a connection has no name yet.
fn is_unnamed(peer: &Peer) -> bool
    ensures { result ≡ is_unnamed (Some peer.now) }
{
    match peer.stage() {
        Stage::Authenticating(_) => true,
        Stage::Unnamed { privileged: _ } => true,
        Stage::Named(_) | Stage::Closing(_) => false,
    }
}

/// How many connections have no name yet.
fn count_unnamed(peers: &Slab<Peer>) -> usize
    ensures { result ≡ count_by is_unnamed peers.now.slots }
{
    let mut count = 0;
    for key in 0..peers.capacity() {
        let Some(peer) = peers.get(key) else {
            continue;
        };
        if is_unnamed(peer) {
            count += 1;
        }
    }
    count
}

/// The number of a connection, if its Hello gave it one.
fn number_in(peer: &Peer) -> Option<u64>
    ensures { result ≡ number_in (Some peer.now) }
{
    match peer.stage().conn() {
        Some(conn) => Some(conn.number),
        None => None,
    }
}

impl<V: BusView, G: Gate> Peers<V, G> {
    /// How many connections have no name yet.
    pub fn unnamed(&self) -> usize
        ensures { result ≡ count_by is_unnamed self.now.standing.peers }
    {
        count_unnamed(&self.peers)
    }

    /// The number of the connection of a key, once its Hello gave it one. A closed one keeps it
    /// until it is gone.
    pub fn number_of(&self, key: usize) -> Option<u64>
        ensures { result ≡ number_at self.now.standing key }
    {
        match self.peers.get(key) {
            None => None,
            Some(peer) => number_in(peer),
        }
    }
}
