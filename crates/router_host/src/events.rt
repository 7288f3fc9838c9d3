//! Events, and what they bring.

ghost use Rattle.std.specs.Prelude.{◌≡◌, ◌≤◌, [], None, length, take, IfOk, OnOk, OnErr};
ghost use Rattle.std.specs.List.{AllByRecursion};
ghost use Rattle.router_core.specs.Deeds.{CarriesOwn};
ghost use Rattle.router_core.specs.Acts.{CanHappen};
ghost use Rattle.router_core.specs.Changing.{may_change};
ghost use Rattle.router_host_core.specs.Carrying.{GoesOn};
ghost use Rattle.router_host.specs.Doing.{DoesBy, IsBroughtBy};
ghost use Rattle.router_host.specs.Happening.{CatchesUp, HappensBy};
ghost use Rattle.router_host.specs.Keeping.{CanWait};

use crate::host::Host;
use crate::kept::Kept;
use bus_view::BusView;
use driver::ReplyBody;
use outbox_core::{BusMessage, Content};
use router_core::{Action, Event, Gate};
use router_host_core::{Post, Socket};
use std::alloc::{AllocError, Global};

impl<V: BusView, G: Gate, P: Post<V>, S: Socket> Host<V, G, P, S> {
    /// Carries out what events brought that is not carried out yet.
    ///
    /// # Errors
    ///
    /// There is no room for a start yet.
    pub(crate) fn catch_up(&mut self, right: &V::Right) -> Result<(), AllocError>
        ensures catches_up { CatchesUp P.puts P.refuses P.starts self.old self.new }
        ensures ok { OnOk result (self.new.undone ≡ []) }
    {
        if self.undone.is_empty() {
            return Ok(());
        }
        if self.carrier.carry_out(right, &mut self.undone) {
            self.end_event();
            return Ok(());
        }
        Err(AllocError)
    }

    /// Carries out what events brought that is not carried out yet, before one more is served. The
    /// post hears of one that may change the bus.
    fn begin_event(&mut self, right: &V::Right, event: &Event<V::Note>) -> Result<(), AllocError>
        ensures catches_up { CatchesUp P.puts P.refuses P.starts self.old self.new }
        ensures ok { OnOk result (self.new.undone ≡ []) }
    {
        self.catch_up(right)?;
        if may_change(event) {
            self.note_event();
        }
        Ok(())
    }

    /// The post hears that an event is about to be served.
    fn note_event(&mut self)
        ensures { self.new ≡ self.old }
    {
        self.carrier.post.event_begins();
    }

    /// The post hears of the event that was served.
    fn note_served(&mut self, tells: bool)
        ensures { self.new ≡ self.old }
    {
        let view = self.engine.view();
        self.carrier
            .post
            .event_served(view.place(), view.last(), tells);
    }

    /// The post hears that all is put that comes of the event.
    fn end_event(&mut self)
        ensures { self.new ≡ self.old }
    {
        self.carrier.post.event_carried_out();
    }

    /// Carries out what an event brought, and keeps what there is no room for now.
    pub(crate) fn carry_out(&mut self, right: &V::Right, actions: Vec<Action<V::Note>>)
        requires own { AllByRecursion (CarriesOwn V.registry_of self.old.engine.view.registry)
            actions.items }
        requires none { self.old.undone ≡ [] }
        ensures goes_on { GoesOn P.puts P.refuses P.starts actions.items self.old.carried self.new.undone
            self.new.carried }
        ensures engine { self.new.engine ≡ self.old.engine }
        ensures kept { self.new.kept ≡ self.old.kept }
    {
        self.changes_rules = seem_of_rules(&actions);
        self.note_served(tell_of_changes(&actions));
        let mut actions = actions;
        actions.reverse();
        if self.carrier.carry_out(right, &mut actions) {
            self.end_event();
            self.engine.give_back(actions);
        } else {
            self.undone = actions;
        }
    }

    /// Serves an event, and carries out what it brings. Where there is no memory for it, or no room
    /// for what events before it brought, it is as it was.
    pub(crate) fn dispatch(
        &mut self,
        right: &V::Right,
        event: &mut Event<V::Note>,
    ) -> Result<(), AllocError>
        requires { CanHappen V.registry_of self.old.engine event.old }
        ensures happens { OnOk result
            (HappensBy V.BusView G.Gate P.Post self.old event.old self.new) }
        ensures err { OnErr result (CatchesUp P.puts P.refuses P.starts self.old self.new) }
        ensures handed_back { OnErr result (event.new ≡ event.old) }
    {
        self.begin_event(right, event)?;
        let actions = self.engine.event(right, event)?;
        self.carry_out(right, actions);
        Ok(())
    }

    /// Serves an event. Where there is no memory for it, or no room for what events before it
    /// brought, it is kept for the next turn.
    pub(crate) fn serve(
        &mut self,
        right: &V::Right,
        event: Event<V::Note>,
    ) -> Result<(), AllocError>
        requires { CanWait V.registry_of self.old.engine.view.registry event }
        ensures brought { IsBroughtBy V.BusView G.Gate P.Post self.old event self.new }
        ensures ok { OnOk result (self.new.kept ≡ self.old.kept) }
    {
        let mut event = event;
        match self.dispatch(right, &mut event) {
            Ok(()) => Ok(()),
            Err(AllocError) => {
                self.kept = Some(Kept::Happening(event));
                Err(AllocError)
            }
        }
    }

    /// Serves what was kept.
    pub(crate) fn serve_kept(&mut self, right: &V::Right) -> Result<(), AllocError>
        ensures does { DoesBy V.BusView G.Gate P.Post self.old self.new }
        ensures ok { OnOk result (self.new.kept ≡ None) }
    {
        match self.kept.take() {
            None => Ok(()),
            Some(Kept::Happening(event)) => self.serve(right, event),
            Some(Kept::Piece { key, count }) => match front(self.alloc, &self.room, count) {
                Ok(piece) => self.serve(right, Event::Bytes { key, piece }),
                Err(AllocError) => {
                    self.kept = Some(Kept::Piece { key, count });
                    Err(AllocError)
                }
            },
        }
    }
}

/// A copy of the first bytes, so many.
fn front(alloc: Global, bytes: &[u8], count: usize) -> Result<Vec<u8>, AllocError>
    requires { count ≤ length bytes.now }
    ensures { IfOk result (λ piece. piece.items ≡ take count bytes.now) }
{
    Vec::from_slice(alloc, &bytes[..count])
}

/// Whether an event may change the bus. Who comes, bytes and mail never do.
fn may_change<N: Drop>(event: &Event<N>) -> bool
    ensures { result ≡ may_change event.now }
{
    !matches!(
        event,
        Event::Opened { .. } | Event::Bytes { .. } | Event::Mail { .. }
    )
}

/// Whether an event that brought these actions seems to have added or removed rules: it was
/// answered with nothing, or nothing came of it. What is relayed never seems so.
fn seem_of_rules<N: Drop>(actions: &[Action<N>]) -> bool {
    match actions.last() {
        None => true,
        Some(action) => match action {
            Action::Put { content, .. } => is_empty_reply(content),
            _ => false,
        },
    }
}

/// Whether it is a reply of the bus that carries nothing.
fn is_empty_reply(content: &Content) -> bool {
    match content {
        Content::Relayed(_) => false,
        Content::Own(message) => match message {
            BusMessage::Reply { body, .. } => matches!(body, ReplyBody::Empty),
            _ => false,
        },
    }
}

/// Whether actions tell somebody of a change of the bus.
fn tell_of_changes<N: Drop>(actions: &[Action<N>]) -> bool {
    for action in actions {
        if tells_of_change(action) {
            return true;
        }
    }
    false
}

/// Whether an action tells somebody of a change of the bus: its signals do, and the errors to
/// callers that waited for a service.
fn tells_of_change<N: Drop>(action: &Action<N>) -> bool {
    match action {
        Action::Put { content, .. } => match content {
            Content::Relayed(_) => false,
            Content::Own(message) => match message {
                BusMessage::Signal(_) => true,
                BusMessage::Error { .. } => true,
                _ => false,
            },
        },
        _ => false,
    }
}
