//! The ways between routers.

ghost use Rattle.std.specs.Prelude.{◌≡◌, IfSome, IfNone, OnOk, OnErr};
ghost use Rattle.router_core.specs.Deeds.{IsOwnNote};

use bus_view::BusView;
use names::BusName;
use outbox_core::Envelope;
use seq_bus_core::Conn;

/// There is no room for one more envelope for a connection.
#[derive(Clone, Copy, Debug, PartialEq, Eq)]
pub struct NoRoom;

/// That the program of a service is to be run.
#[derive(Clone, Copy, Debug, PartialEq, Eq)]
pub struct StartRequest {
    /// The name of the service.
    pub name: BusName,
    /// The number of the start, which the bus gave it.
    pub start: u64,
}

/// There is no room for one more start that is to be run.
#[derive(Clone, Copy, Debug, PartialEq, Eq)]
pub struct TooManyStarts;

/// The ways between the routers of a bus, and to whoever runs the programs of services, as one
/// router uses them. All notes on them are of one registry.
pub trait Post<V: BusView>: Drop {
    ghost use Rattle.std.specs.Prelude.{ℕ};
    ghost use Rattle.outbox_core.specs.declared.envelope.Envelope.{Envelope};
    ghost use Rattle.seq_bus_core.specs.declared.connection.Conn.{Conn};
    ghost use Rattle.router_host_core.specs.declared.post.StartRequest.{StartRequest};

    /// The registry that the notes are of.
    ghost registry: { Self → ℕ };

    /// What it may be once an envelope for a connection was put.
    ghost puts: { Self → Conn → Envelope V.Note → Self → Type 0 };

    /// What it may be once it was asked to have the program of a service run.
    ghost starts: { Self → StartRequest → Self → Type 0 };

    /// What it may be once an envelope for a slot of this router was taken.
    ghost takes: { Self → ℕ → Envelope V.Note → Self → Type 0 };

    /// When it may refuse an envelope for a connection.
    ghost refuses: { Self → Conn → Type 0 };

    /// When it may have no envelope for a slot of this router.
    ghost lacks: { Self → ℕ → Type 0 };

    /// Puts an envelope for a connection of whatever router. Where there is no room for it, nothing
    /// happens.
    fn put(&mut self, right: &V::Right, to: Conn, envelope: Envelope<V::Note>) -> Result<(), NoRoom>
        requires { IsOwnNote V.registry_of (registry self.old) envelope.note }
        ensures registry { registry self.new ≡ registry self.old }
        ensures put { OnOk result (puts self.old to envelope self.new) }
        ensures refused { OnErr result (self.new ≡ self.old) }
        ensures full { OnErr result (refuses self.old to) };

    /// The program of a service is to be run. Where there is no room to tell of it, nothing
    /// happens: it is to be asked for again.
    fn start(&mut self, right: &V::Right, request: StartRequest) -> Result<(), TooManyStarts>
        ensures registry { registry self.new ≡ registry self.old }
        ensures asked { OnOk result (starts self.old request self.new) }
        ensures refused { OnErr result (self.new ≡ self.old) };

    /// The envelope that came first of those for a slot of this router.
    fn take(&mut self, right: &V::Right, slot: u16) -> Option<Envelope<V::Note>>
        ensures registry { registry self.new ≡ registry self.old }
        ensures own { IfSome result (λ envelope.
            IsOwnNote V.registry_of (registry self.old) envelope.note) }
        ensures taken { IfSome result (λ envelope. takes self.old slot envelope self.new) }
        ensures none { IfNone result (self.new ≡ self.old) }
        ensures empty { IfNone result (lacks self.old slot) };

    /// An event is about to be served that may change the bus, and what comes of that is not put
    /// yet. Of one that can't, the post hears only that it was served.
    fn event_begins(&mut self)
        ensures { self.new ≡ self.old };

    /// The event was served: what is put from now on comes of it. Up to then so many changes of the
    /// bus were seen, the last that this router made has this place among them, from 1, and what is
    /// put tells of changes, or only of messages.
    fn event_served(&mut self, seen: u64, last: u64, tells: bool)
        ensures { self.new ≡ self.old };

    /// All that comes of the event is put.
    fn event_carried_out(&mut self)
        ensures { self.new ≡ self.old };

    /// Asks the router of a connection to check whether it is present: it took no more mail, and
    /// has left the bus.
    fn ask_check(&mut self, right: &V::Right, at: Conn)
        ensures { self.new ≡ self.old };

    /// Asks the other routers to check which of their connections are present: some have left the
    /// bus that were to leave it before, and any of them may be theirs.
    fn ask_checks(&mut self, right: &V::Right)
        ensures { self.new ≡ self.old };

    /// Wakes whoever waits and has something that was put for it. From then on nobody waits for
    /// what is not put yet.
    fn wake_others(&mut self, right: &V::Right)
        ensures { self.new ≡ self.old };

    /// Whether another router is behind with what was put for it: nothing that may put more is to
    /// be served before that one had a turn.
    fn is_behind(&self) -> bool;

    /// Lets a router that is behind have a turn. It does not wait for long.
    fn let_go_first(&mut self, right: &V::Right)
        ensures { self.new ≡ self.old };
}
