//! The run of a list of events.

ghost use Rattle.std.specs.Prelude.{◌≡◌, map, OnOk, IfOk, IfErr};
ghost use Rattle.seq_bus.specs.PlainViews.{knowledge_of};
ghost use Rattle.router_core.specs.Acts.{CanHappen, IsNextKey};
ghost use Rattle.router_core.specs.Events.{CanBeAsked, IsTurnOf};
ghost use Rattle.router_core.specs.Standing.{fresh};
ghost use Rattle.router_core.specs.declared.event.Event.TheVariants.{Opened};
ghost use Rattle.router_laws.specs.declared.fault.EventFault.TheVariants.{NoTurn};
ghost use Rattle.router_laws.specs.Outputs.{IsRefused, IsTurn, no_output};
ghost use Rattle.router_laws.specs.Runs.{CanCome, IsFaultOf, IsRunOf, first_over, fresh_over, occasions_of};

use crate::fault::EventFault;
use crate::outlets::Outlets;
use router::{Engine, Login};
use router_core::{Event, Gate};
use seq_bus::SeqBus;
use seq_bus_core::limits::MAX_BATCH;
use std::alloc::{AllocError, Global};

/// An engine over a plain bus, and what went to its connections.
#[derive(Drop)]
struct Session<G: Gate> {
    engine: Engine<SeqBus, G>,
    outlets: Outlets,
}

impl<G: Gate + Drop> Session<G> {
    /// An engine without connections.
    fn new(
        alloc: Global,
        bus: SeqBus,
        gate: G,
        login: Option<Login>,
    ) -> Result<Session<G>, AllocError>
        ensures engine { IfOk result
            (λ session. session.engine ≡ record {
              standing = fresh login;
              next_key = 0;
              view = knowledge_of bus;
              gate = gate;
            }) }
        ensures outlets { IfOk result (λ session. session.outlets ≡ no_output) }
    {
        Ok(Session {
            engine: Engine::new(alloc, bus, gate, login)?,
            outlets: Outlets::new(alloc),
        })
    }

    /// Whether the event of this index can happen: a connection comes only where its key is the
    /// next, and is asked who it is only where someone may log in; a turn has 1 to 64 keys.
    fn admit(&self, index: usize, event: &Event<()>) -> Result<(), EventFault>
        requires { self.now.engine.view.registry ≡ 0 }
        ensures happens { OnOk result
            (CanHappen (λ _. 0) self.now.engine event.now) }
        ensures fault { IfErr result (λ fault. IsRefused self.now.engine index event.now fault) }
    {
        match event {
            Event::Opened { key, challenge } => self.admit_comer(index, *key, *challenge),
            Event::Turn { keys } => admit_turn(index, keys),
            _ => Ok(()),
        }
    }

    /// Whether a connection can come at the event of this index.
    fn admit_comer(
        &self,
        index: usize,
        key: usize,
        challenge: Option<[u8; 16]>,
    ) -> Result<(), EventFault>
        requires { self.now.engine.view.registry ≡ 0 }
        ensures happens { OnOk result (IsNextKey self.now.engine key
            × CanBeAsked self.now.engine.standing.login challenge) }
        ensures fault { IfErr result (λ fault.
            IsRefused self.now.engine index (Opened key challenge) fault) }
    {
        if key != self.engine.free_key() {
            return Err(EventFault::WrongKey(index));
        }
        if challenge.is_some() && !self.engine.has_login() {
            return Err(EventFault::NoLogin(index));
        }
        Ok(())
    }

    /// Serves the event of this index.
    fn serve(&mut self, index: usize, event: Event<()>) -> Result<(), EventFault>
        requires { self.old.engine.view.registry ≡ 0 }
        ensures turn { OnOk result
            (IsTurn G.passes self.old.engine self.old.outlets event self.new.engine
            self.new.outlets) }
        ensures fault { IfErr result (λ fault. IsRefused self.old.engine index event fault) }
    {
        self.admit(index, &event)?;
        self.outlets.meet(&event)?;
        let mut event = event;
        let actions = self.engine.event(&(), &mut event)?;
        self.outlets.take_all(&actions)?;
        Ok(())
    }
}

/// Whether the event of this index can be a turn of these keys.
fn admit_turn(index: usize, keys: &[usize]) -> Result<(), EventFault>
    ensures happens { OnOk result (IsTurnOf keys.now) }
    ensures fault { IfErr result (λ fault.
        (fault ≡ NoTurn index) × (IsTurnOf keys.now → ⊥)) }
{
    if keys.is_empty() || keys.len() > MAX_BATCH {
        return Err(EventFault::NoTurn(index));
    }
    Ok(())
}

/// Serves events in order over a plain bus, from no connection on, and gives the bytes that go to
/// each connection, the first that came first. Connections that come with a challenge say who they
/// are, by the login.
///
/// What goes to them is what the actions of the events write. It ends early where a connection
/// comes whose key is not the one that the engine has for the next, or that is to say who it is
/// where no one may log in; at a turn of no keys or of more than 64; and without memory.
pub fn run<G: Gate + Drop>(
    alloc: Global,
    bus: SeqBus,
    gate: G,
    login: Option<Login>,
    events: Vec<Event<()>>,
) -> Result<Vec<Vec<u8>>, EventFault>
    ensures run { IfOk result
        (λ all. IsRunOf G.passes gate (fresh_over login bus) (occasions_of events.items)
        (map (λ bytes. bytes.items) all.items)) }
    ensures keys { IfOk result (λ _. CanCome (first_over login bus) events.items) }
    ensures fault { IfErr result (λ fault. IsFaultOf (first_over login bus) events.items fault) }
{
    let mut session = Session::new(alloc, bus, gate, login)?;
    for (index, event) in events.into_iter().enumerate() {
        session.serve(index, event)?;
    }
    Ok(session.outlets.into_bytes()?)
}
