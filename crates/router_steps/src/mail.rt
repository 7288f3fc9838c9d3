//! What an envelope brings to its connection.

ghost use Rattle.std.specs.Prelude.{◌≡◌, ◌<◌, ◌≤◌, ◌+◌, option_map, IfOk, OnOk, OnErr};
ghost use Rattle.outbox_core.specs.Contents.{said_of};
ghost use Rattle.router_core.specs.Deeds.{IsOwnNote};
ghost use Rattle.router_core.specs.Events.{writing};
ghost use Rattle.router_core.specs.Scripts.{RunsTo};
ghost use Rattle.router_core.specs.Standing.{next_serial};
ghost use Rattle.router_steps.specs.Noting.{after_noting, IsNoteTaken};
ghost use Rattle.router_steps.specs.Writing.{IsSpelled};

use crate::context::Context;
use crate::peer::Peer;
use bus_view::BusView;
use outbox_core::{Content, Envelope};
use router_core::{Gate, WrittenBytes};
use std::alloc::{AllocError, Global};

/// The serial of the bus's next message to a connection, by that of the last.
pub fn serial_after(serial: u32) -> u32
    ensures value { result ≡ next_serial serial }
    ensures positive { 0 < result }
{
    if serial == u32::MAX { 1 } else { serial + 1 }
}

/// The bytes of a content, whose message has this serial where it is one of the bus's own.
pub fn bytes_of(alloc: Global, content: &Content, serial: u32) -> Result<WrittenBytes, AllocError>
    requires { 0 < serial }
    ensures { IfOk result (λ bytes. IsSpelled (said_of content.now) serial bytes) }
{
    match content {
        Content::Relayed(relayed) => Ok(WrittenBytes::shared(relayed.try_clone()?)),
        Content::Own(message) => {
            let mut bytes = Vec::new(alloc);
            message.write(serial, &mut bytes)?;
            Ok(WrittenBytes::own(bytes))
        }
    }
}

impl<V: BusView, G: Gate> Context<V, G> {
    /// Writes to a connection what an envelope brings.
    #[tactic(auto, using(crate::proofs::Delivering::relays))]
    pub(crate) fn write_mail(
        &mut self,
        key: usize,
        peer: &mut Peer,
        content: &Content,
        bytes: WrittenBytes,
    )
        requires room { 0 < self.old.room }
        requires spelled { IsSpelled (said_of content.now) (next_serial peer.old.serial) bytes }
        ensures comes { RunsTo V.BusView G.Gate (writing key (said_of content.now) peer.old)
            self.old.world peer.new self.new.world }
        ensures room { self.old.room ≤ self.new.room + 1 }
    {
        match content {
            Content::Relayed(_) => self.write(key, bytes),
            Content::Own(_) => {
                peer.count();
                self.send(key, bytes);
            }
        }
    }

    /// Takes in the note that came with an envelope, if there is one.
    pub fn take_note_of(&mut self, note: &Option<V::Note>)
        requires { IsOwnNote V.registry_of self.old.world.view.registry note.now }
        ensures takes_note { IsNoteTaken V.alone (option_map V.told note.now) self.old.world
            self.new.world }
        ensures room { self.new.room ≡ self.old.room }
    {
        if let Some(note) = note {
            self.take_note(note);
        }
    }

    /// Takes the note of an envelope, and writes to its connection what it brings. Without memory
    /// nothing changes.
    pub fn deliver(
        &mut self,
        alloc: Global,
        key: usize,
        peer: &mut Peer,
        envelope: &Envelope<V::Note>,
    ) -> Result<(), AllocError>
        requires room { 0 < self.old.room }
        requires own { IsOwnNote V.registry_of self.old.world.view.registry envelope.now.note }
        ensures comes { OnOk result (RunsTo V.BusView G.Gate
            (after_noting (option_map V.told envelope.now.note)
            (writing key (said_of envelope.now.content) peer.old))
            self.old.world peer.new self.new.world) }
        ensures err { OnErr result (peer.new ≡ peer.old) }
        ensures world { OnErr result (self.new.world ≡ self.old.world) }
    {
        let bytes = bytes_of(alloc, &envelope.content, serial_after(peer.serial()))?;
        self.take_note_of(&envelope.note);
        self.write_mail(key, peer, &envelope.content, bytes);
        Ok(())
    }
}
