//! An engine of a plain bus with one service, and what its one client sends.

ghost use Rattle.std.specs.Prelude.{◌≡◌, IfOk};
ghost use Rattle.router_core.specs.Acts.{CanHappen};

use crate::authentication::GUID;
use crate::{leaving, logins, mail, turns, waiting};
use bus_view::{BusView, can_open};
use names::WellKnown;
use owner_queues::Profile;
use router::{Engine, Login};
use router_core::{Action, Event, OpenGate};
use sasl::Cookie;
use seq_bus::SeqBus;
use std::alloc::{AllocError, Global};
use std::sync::ArcStr;
use test_support::messages::HELLO;

/// An engine of a plain bus.
pub type Plain = Engine<SeqBus, OpenGate>;

/// What an engine did as it should.
#[derive(Clone, Copy, Default)]
pub struct Served {
    pub mail: bool,
    pub waiting: bool,
    pub in_turn: bool,
    pub leaving: bool,
    pub login: bool,
    pub still: bool,
}

/// What an engine does as it should, one after the other.
pub fn serve(alloc: Global) -> Served {
    let Some(mut engine) = opened(alloc) else {
        return Served::default();
    };
    let come = say_hello(&mut engine, alloc).is_some();
    let served = Served {
        mail: come && mail::is_written(&mut engine, alloc) == Some(true),
        waiting: come && waiting::are_answered(&mut engine, alloc) == Some(true),
        in_turn: come && turns::are_served(&mut engine, alloc) == Some(true),
        leaving: come && leaving::are_gone(&mut engine, alloc) == Some(true),
        login: come && logins::is_let_in(&mut engine, alloc) == Some(true),
        still: come && leaving::is_still_over_all(&mut engine, alloc) == Some(true),
    };
    drop(engine);
    served
}

/// A connection comes, and has its name.
pub fn say_hello(engine: &mut Plain, alloc: Global) -> Option<()> {
    open_named(engine, alloc, 0)
}

/// A connection comes with the next key, which this is, and has its name, though it says Hello once
/// more where there was no memory for it.
pub fn open_named(engine: &mut Plain, alloc: Global, key: usize) -> Option<()> {
    if engine.free_key() != key {
        return None;
    }
    let opened = Event::Opened {
        key,
        challenge: None,
    };
    happens(engine, opened)?;
    sends_at(engine, alloc, key, HELLO)?;
    if engine.number_of(key).is_none() {
        sends_at(engine, alloc, key, HELLO)?;
    }
    Some(())
}

/// Whether the client that said Hello has this number, which says it once more where there was no
/// memory for it.
pub fn has_name(engine: &mut Plain, alloc: Global, number: u64) -> Option<bool> {
    if engine.number_of(0).is_none() {
        sends(engine, alloc, HELLO)?;
    }
    Some(engine.number_of(0) == Some(number))
}

/// An engine of a plain bus with one service, which is opened once more where there is no memory.
fn opened(alloc: Global) -> Option<Plain> {
    match open(alloc) {
        Some(engine) => Some(engine),
        None => open(alloc),
    }
}

fn open(alloc: Global) -> Option<Plain> {
    engine_over(alloc, bus(alloc)?).ok()
}

/// A plain bus with one service.
fn bus(alloc: Global) -> Option<SeqBus> {
    let services = [WellKnown::parse("com.example.Clock").ok()?];
    if !can_open(&services, 1) {
        return None;
    }
    SeqBus::new(alloc, &services, 1, Profile::Two).ok()
}

/// An engine over a view, which asks who logs in.
pub fn engine_over<V: BusView + Drop>(
    alloc: Global,
    view: V,
) -> Result<Engine<V, OpenGate>, AllocError>
    ensures { IfOk result (λ engine. engine.view ≡ V.knows view) }
{
    Engine::new(alloc, view, OpenGate, Some(login(alloc)?))
}

/// Who may log in.
pub fn login(alloc: Global) -> Result<Login, AllocError> {
    Ok(Login {
        guid: GUID,
        user: ArcStr::from_str(alloc, "alice")?,
        cookie: Cookie::new(alloc, b"5", b"c0ffee")?,
        allow_anonymous: true,
    })
}

/// What an event brings, which comes once more where there is no memory for it.
pub fn brought(engine: &mut Plain, mut event: Event<()>) -> Option<Vec<Action<()>>>
    requires { CanHappen (λ _. 0) engine.old event }
{
    let actions = match engine.event(&(), &mut event) {
        Ok(actions) => Some(actions),
        Err(_) => engine.event(&(), &mut event).ok(),
    };
    drop(event);
    actions
}

/// What an event brings that comes once.
pub fn tried(engine: &mut Plain, mut event: Event<()>) -> Result<Vec<Action<()>>, AllocError>
    requires { CanHappen (λ _. 0) engine.old event }
{
    let actions = engine.event(&(), &mut event);
    drop(event);
    actions
}

/// An event happens, whatever it brings.
pub fn happens(engine: &mut Plain, event: Event<()>) -> Option<()>
    requires { CanHappen (λ _. 0) engine.old event }
{
    let actions = brought(engine, event);
    let has_happened = actions.is_some();
    drop(actions);
    has_happened.then_some(())
}

/// A message comes and is served, whatever is done for it.
pub fn sends(engine: &mut Plain, alloc: Global, sent: &[u8]) -> Option<()> {
    sends_at(engine, alloc, 0, sent)
}

/// A message of the connection of a key comes and is served, whatever is done for it.
fn sends_at(engine: &mut Plain, alloc: Global, key: usize, sent: &[u8]) -> Option<()> {
    let fed = feed_at(engine, alloc, key, sent);
    let has_come = fed.is_some();
    drop(fed);
    has_come.then_some(())?;
    happens(engine, Event::Next { key })
}

/// What bytes bring that come.
pub fn feed(engine: &mut Plain, alloc: Global, sent: &[u8]) -> Option<Vec<Action<()>>> {
    feed_at(engine, alloc, 0, sent)
}

/// What bytes bring that come for the connection of a key.
fn feed_at(engine: &mut Plain, alloc: Global, key: usize, sent: &[u8]) -> Option<Vec<Action<()>>> {
    let piece = match Vec::from_slice(alloc, sent) {
        Ok(piece) => piece,
        Err(_) => Vec::from_slice(alloc, sent).ok()?,
    };
    brought(engine, Event::Bytes { key, piece })
}

/// Bytes come, whatever they bring.
pub fn feeds(engine: &mut Plain, alloc: Global, sent: &[u8]) -> Option<()> {
    let actions = feed(engine, alloc, sent);
    let have_come = actions.is_some();
    drop(actions);
    have_come.then_some(())
}

/// What is done for a message, which comes and is served.
pub fn send(engine: &mut Plain, alloc: Global, sent: &[u8]) -> Option<Vec<Action<()>>> {
    feeds(engine, alloc, sent)?;
    brought(engine, Event::Next { key: 0 })
}
