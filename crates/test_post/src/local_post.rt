//! Mail in memory.

ghost use Rattle.std.specs.Prelude.{◌≡◌, ◌∷◌, ◌++◌, [], IfNone, IfSome, OnErr, OnOk};
ghost use Rattle.test_post.specs.LocalMail.{IsEmptyAt, Puts, Takes};

use outbox_core::Envelope;
use router_host_core::{NoRoom, Post, SLOTS, StartRequest, TooManyStarts};
use seq_bus::SeqBus;
use seq_bus_core::Conn;
use std::alloc::{AllocError, Global};
use std::collections::VecDeque;
use std::marker::Model;

/// How many envelopes wait for a slot at most.
const MOST: usize = 256;

/// The mail of one slot, the oldest first.
#[derive(Drop)]
struct Mail {
    envelopes: VecDeque<Envelope<()>>,
}

impl Model for Mail {
    ghost use Rattle.std.specs.Prelude.{List};
    ghost use Rattle.outbox_core.specs.declared.envelope.Envelope.{Envelope};

    ghost Value = { List (Envelope (Unit {0})) };

    ghost view = { λ m. m.envelopes.items };
}

impl Mail {
    fn put(&mut self, envelope: Envelope<()>) -> Result<(), NoRoom>
        ensures put { OnOk result (self.new ≡ self.old ++ envelope ∷ []) }
        ensures refused { OnErr result (self.new ≡ self.old) }
    {
        if self.envelopes.len() >= MOST {
            return Err(NoRoom);
        }
        match self.envelopes.push_back(envelope) {
            Ok(()) => Ok(()),
            Err(_failed) => Err(NoRoom),
        }
    }

    fn take(&mut self) -> Option<Envelope<()>>
        ensures taken { IfSome result (λ envelope. self.old ≡ envelope ∷ self.new) }
        ensures none { IfNone result (self.new ≡ self.old) }
        ensures empty { IfNone result (self.old ≡ []) }
    {
        self.envelopes.pop_front()
    }
}

/// The mail of all slots of a bus of one thread, in memory, and the starts that it asks for. Its
/// one router finds its own mail here.
#[derive(Drop)]
pub struct LocalPost {
    mails: Vec<Mail>,
    starts: VecDeque<StartRequest>,
    /// How often the other routers were asked to check.
    checks_asked: u64,
}

impl Model for LocalPost {
    ghost use Rattle.std.specs.Prelude.{List};
    ghost use Rattle.outbox_core.specs.declared.envelope.Envelope.{Envelope};

    ghost Value = { List (List (Envelope (Unit {0}))) };

    ghost view = { λ p. p.mails.items };
}

impl LocalPost {
    /// No mail.
    pub fn new(alloc: Global) -> Result<LocalPost, AllocError> {
        let mut mails = Vec::with_capacity(alloc, SLOTS)?;
        for _slot in 0..SLOTS {
            mails.push(Mail {
                envelopes: VecDeque::new(alloc),
            })?;
        }
        Ok(LocalPost {
            mails,
            starts: VecDeque::new(alloc),
            checks_asked: 0,
        })
    }

    /// How often the other routers were asked to check which of their connections are present.
    pub fn checks_asked(&self) -> u64 {
        self.checks_asked
    }

    /// The start that was asked for first, of those that were not taken yet.
    pub fn take_start(&mut self) -> Option<StartRequest> {
        self.starts.pop_front()
    }
}

impl Post<SeqBus> for LocalPost {
    ghost use Rattle.std.specs.Prelude.{◌≡◌};
    ghost use Rattle.test_post.specs.LocalMail.{IsEmptyAt, Puts, Takes};

    ghost registry = { λ _. 0 };

    ghost puts = { λ before to envelope after. Puts before to.slot envelope after };

    ghost starts = { λ before _ after. after ≡ before };

    ghost takes = { λ before slot envelope after. Takes before slot envelope after };

    ghost refuses = { λ _ _. Unit {0} };

    ghost lacks = { λ before slot. IsEmptyAt before slot };

    fn put(&mut self, _right: &(), to: Conn, envelope: Envelope<()>) -> Result<(), NoRoom>
        ensures put { OnOk result (Puts self.old to.slot envelope self.new) }
        ensures refused { OnErr result (self.new ≡ self.old) }
    {
        let slot = usize::from(to.slot);
        if slot >= self.mails.len() {
            return Err(NoRoom);
        }
        self.mails[slot].put(envelope)
    }

    fn start(&mut self, _right: &(), request: StartRequest) -> Result<(), TooManyStarts>
        ensures asked { OnOk result (self.new ≡ self.old) }
        ensures refused { OnErr result (self.new ≡ self.old) }
    {
        match self.starts.push_back(request) {
            Ok(()) => Ok(()),
            Err(_) => Err(TooManyStarts),
        }
    }

    fn take(&mut self, _right: &(), slot: u16) -> Option<Envelope<()>>
        ensures taken { IfSome result (λ envelope. Takes self.old slot envelope self.new) }
        ensures none { IfNone result (self.new ≡ self.old) }
        ensures empty { IfNone result (IsEmptyAt self.old slot) }
    {
        let slot = usize::from(slot);
        if slot >= self.mails.len() {
            return None;
        }
        self.mails[slot].take()
    }

    fn event_begins(&mut self) {}

    fn event_served(&mut self, _seen: u64, _last: u64, _tells: bool) {}

    fn event_carried_out(&mut self) {}

    fn ask_check(&mut self, _right: &(), _at: Conn) {}

    fn ask_checks(&mut self, _right: &()) {
        self.checks_asked = self.checks_asked.wrapping_add(1);
    }

    fn wake_others(&mut self, _right: &()) {}

    fn is_behind(&self) -> bool {
        false
    }

    fn let_go_first(&mut self, _right: &()) {}
}
