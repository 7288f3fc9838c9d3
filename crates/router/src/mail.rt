//! Mail from other routers.

ghost use Rattle.std.specs.Prelude.{◌≡◌, Some, option_map, position, OnOk, OnErr};
ghost use Rattle.outbox_core.specs.Contents.{said_of};
ghost use Rattle.router_core.specs.Deeds.{IsOwnNote};
ghost use Rattle.router_core.specs.Events.{mail_delivery, after_note};
ghost use Rattle.router_core.specs.Scripts.{RunsTo};
ghost use Rattle.router_core.specs.Standing.{is_conn, trimmed};
ghost use Rattle.router.specs.Indexed.{IsIndexed};

use crate::peers::{Peers, SLOT_COUNT};
use bus_view::BusView;
use outbox_core::Envelope;
use router_core::Gate;
use router_steps::{Peer, Stage};
use slab::Slab;
use std::alloc::AllocError;

/// Whether this is the connection of this slot and this number. One that was closed is not.
fn is_addressed(peer: &Peer, slot: u16, number: u64) -> bool
    ensures { result ≡ is_conn slot number (Some peer.now) }
{
    match peer.stage() {
        Stage::Named(conn) => conn.slot == slot && conn.number == number,
        Stage::Authenticating(_) => false,
        Stage::Unnamed { privileged: _ } => false,
        Stage::Closing(_) => false,
    }
}

/// The key of the connection of this slot and this number, by a walk.
fn search_addressed(peers: &Slab<Peer>, slot: u16, number: u64) -> Option<usize>
    ensures { result ≡ position (is_conn slot number) (trimmed peers.now.slots) }
{
    for key in 0..peers.capacity() {
        let Some(peer) = peers.get(key) else {
            continue;
        };
        if is_addressed(peer, slot, number) {
            return Some(key);
        }
    }
    None
}

/// The key of the connection of this slot and this number.
fn find_addressed(
    peers: &Slab<Peer>,
    key_of_slot: &[usize; SLOT_COUNT],
    slot: u16,
    number: u64,
) -> Option<usize>
    requires { IsIndexed peers.now.slots key_of_slot.now }
    ensures { result ≡ position (is_conn slot number) (trimmed peers.now.slots) }
{
    let at = usize::from(slot);
    if at >= SLOT_COUNT {
        return search_addressed(peers, slot, number);
    }
    let key = key_of_slot[at];
    let Some(peer) = peers.get(key) else {
        return None;
    };
    if is_addressed(peer, slot, number) {
        return Some(key);
    }
    None
}

impl<V: BusView, G: Gate> Peers<V, G> {
    /// Mail came for the connection in a slot: its note is taken, and what it brings is written, a
    /// relayed message as it is, one of the bus with the connection's next serial. Where the
    /// connection of its number is not there, it is dropped: its slot may be another's by now.
    /// Without memory nothing changes.
    pub fn mail(&mut self, slot: u16, envelope: &Envelope<V::Note>) -> Result<(), AllocError>
        requires { IsOwnNote V.registry_of self.old.work.world.view.registry envelope.now.note }
        ensures comes { OnOk result (RunsTo V.BusView G.Gate
            (after_note (option_map V.told envelope.now.note)
            (mail_delivery self.old.standing (said_of envelope.now.content)
            (position (is_conn slot envelope.now.number) self.old.standing.peers)))
            self.old.work.world self.new.standing self.new.work.world) }
        ensures err { OnErr result (self.new.standing ≡ self.old.standing) }
        ensures world { OnErr result (self.new.work.world ≡ self.old.work.world) }
        ensures keys { self.new.keys ≡ self.old.keys }
    {
        self.context.reserve(1)?;
        match find_addressed(&self.peers, &self.key_of_slot, slot, envelope.number) {
            None => {
                self.context.take_note_of(&envelope.note);
                Ok(())
            }
            Some(key) => {
                self.context
                    .deliver(self.alloc, key, &mut self.peers[key], envelope)
            }
        }
    }
}
