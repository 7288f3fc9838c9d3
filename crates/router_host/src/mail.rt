//! The mail of the slots of a router.

ghost use Rattle.std.specs.Prelude.{◌≡◌, None, false, OnOk};
ghost use Rattle.router_host.specs.Doing.{DoesBy};
ghost use Rattle.router_host.specs.Happening.{IsSlotBlocked};

use crate::host::Host;
use bus_view::BusView;
use router_core::{Event, Gate};
use router_host_core::{Post, Socket};
use std::alloc::AllocError;

/// How many envelopes are taken of a slot at once.
const MAIL_AT_ONCE: u32 = 512;

impl<V: BusView, G: Gate, P: Post<V>, S: Socket> Host<V, G, P, S> {
    /// Takes the mail that came for the slots of this router.
    pub(crate) fn take_mail(&mut self, right: &V::Right) -> Result<(), AllocError>
        requires none { self.old.kept ≡ None }
        ensures does { DoesBy V.BusView G.Gate P.Post self.old self.new }
        ensures ok { OnOk result (self.new.kept ≡ None) }
    {
        for _ in 0..self.carrier.slots.begin() {
            if let Some(slot) = self.carrier.slots.next() {
                self.deliver(right, slot)?;
            }
        }
        Ok(())
    }

    /// Takes the mail of a slot. Where its connection has enough, its socket is given that first.
    fn deliver(&mut self, right: &V::Right, slot: u16) -> Result<(), AllocError>
        requires none { self.old.kept ≡ None }
        ensures does { DoesBy V.BusView G.Gate P.Post self.old self.new }
        ensures ok { OnOk result (self.new.kept ≡ None) }
    {
        self.relieve(slot);
        self.take_mail_of(right, slot)
    }

    /// Gives the socket of the connection of a slot what waits for it, where that is enough.
    fn relieve(&mut self, slot: u16)
        ensures does { DoesBy V.BusView G.Gate P.Post self.old self.new }
        ensures same { self.new.kept ≡ self.old.kept }
    {
        let Some(key) = self.engine.key_of(slot) else {
            return;
        };
        if self.carrier.lines.has_enough(key) && !self.carrier.lines.is_blocked(key) {
            self.carrier.lines.flush(key);
        }
    }

    /// Takes the mail of a slot, until there is no more, or its connection has enough. Where its
    /// socket takes no more bytes, none is taken.
    fn take_mail_of(&mut self, right: &V::Right, slot: u16) -> Result<(), AllocError>
        requires none { self.old.kept ≡ None }
        ensures does { DoesBy V.BusView G.Gate P.Post self.old self.new }
        ensures ok { OnOk result (self.new.kept ≡ None) }
        ensures blocked { IsSlotBlocked self.old slot → self.new ≡ self.old }
    {
        self.carrier.slots.look_at(slot);
        for _ in 0..MAIL_AT_ONCE {
            if !self.take_one(right, slot)? {
                return Ok(());
            }
        }
        self.carrier.slots.note(slot);
        Ok(())
    }

    /// Whether mail of a slot is to be taken now. Where its connection has enough, it is looked at
    /// once more later.
    fn may_take(&mut self, slot: u16) -> bool
        ensures blocked { IsSlotBlocked self.old slot → result ≡ false }
        ensures same { self.new ≡ self.old }
    {
        let Some(key) = self.engine.key_of(slot) else {
            return true;
        };
        self.carrier.lines.know_slot(key, slot);
        if self.carrier.lines.is_blocked(key) {
            return false;
        }
        if self.carrier.lines.has_enough(key) {
            self.carrier.slots.note(slot);
            return false;
        }
        true
    }

    /// Takes an envelope of a slot. Tells whether there may be more to be taken now.
    fn take_one(&mut self, right: &V::Right, slot: u16) -> Result<bool, AllocError>
        requires none { self.old.kept ≡ None }
        ensures does { DoesBy V.BusView G.Gate P.Post self.old self.new }
        ensures ok { OnOk result (self.new.kept ≡ None) }
        ensures blocked { IsSlotBlocked self.old slot → self.new ≡ self.old }
    {
        if !self.may_take(slot) {
            return Ok(false);
        }
        let Some(envelope) = self.carrier.post.take(right, slot) else {
            return Ok(false);
        };
        self.serve(right, Event::Mail { slot, envelope })?;
        Ok(true)
    }
}
