//! Connections that come.

ghost use Rattle.std.specs.Prelude.{◌≡◌, ◌<◌, IfOk, IfErr, OnOk, OnErr, count_by};
ghost use Rattle.std.specs.List.{AllByRecursion};
ghost use Rattle.router_core.specs.Deeds.{CarriesOwn};
ghost use Rattle.router_core.specs.Acts.{BringsBy, IsNextKey};
ghost use Rattle.router_core.specs.Standing.{is_unnamed};
ghost use Rattle.router_core.specs.declared.event.Event.TheVariants as event;
ghost use Rattle.router.specs.OneEvent.{IsServedWellBy};
ghost use Rattle.router_host.specs.Opening.{IsOpenFault};
ghost use Rattle.router_host.specs.declared.opening.TheConstants.{MOST_UNNAMED};

use bus_view::BusView;
use router::Engine;
use router_core::{Action, Event, Gate};
use thiserror::Error;

/// The most connections without a name.
const MOST_UNNAMED: usize = 64;

/// Why a connection that came is not served. Its socket is gone.
#[derive(Clone, Copy, Debug, PartialEq, Eq, Error)]
pub enum OpenFault {
    #[error("too many connections without a name")]
    TooManyUnnamed,
    /// It is asked who it is, and nobody may log in.
    #[error("nobody may log in")]
    NobodyMayLogIn,
    /// More starts of services are asked for than are carried out.
    #[error("too many starts of services wait")]
    TooManyStarts,
    #[error("out of memory")]
    NoMemory,
}

/// A connection that came. Its engine knows it from now on, by the key that was next.
pub(crate) struct Newcomer<N: Drop> {
    pub(crate) key: usize,
    pub(crate) actions: Vec<Action<N>>,
}

/// A connection comes to an engine.
pub(crate) fn open<V: BusView, G: Gate>(
    engine: &mut Engine<V, G>,
    right: &V::Right,
    challenge: Option<[u8; 16]>,
) -> Result<Newcomer<V::Note>, OpenFault>
    ensures notes { IfOk result (λ opened.
        AllByRecursion (CarriesOwn V.registry_of engine.old.view.registry) opened.actions.items) }
    ensures key { IfOk result (λ opened. IsNextKey engine.old opened.key) }
    ensures brings { IfOk result (λ opened. BringsBy V.BusView G.Gate engine.old
        (event.Opened opened.key challenge) opened.actions.items engine.new) }
    ensures served { IfOk result (λ opened. IsServedWellBy V.BusView G.Gate engine.old
        (event.Opened opened.key challenge) opened.actions.items engine.new) }
    ensures registry { engine.new.view.registry ≡ engine.old.view.registry }
    ensures err { OnErr result (engine.new ≡ engine.old) }
    ensures few { OnOk result (count_by is_unnamed engine.old.standing.peers < MOST_UNNAMED) }
    ensures fault { IfErr result (λ fault. IsOpenFault engine.old challenge fault) }
{
    if engine.unnamed() >= MOST_UNNAMED {
        return Err(OpenFault::TooManyUnnamed);
    }
    if challenge.is_some() && !engine.has_login() {
        return Err(OpenFault::NobodyMayLogIn);
    }
    let key = engine.free_key();
    match engine.event(right, &mut Event::Opened { key, challenge }) {
        Ok(actions) => Ok(Newcomer { key, actions }),
        Err(_) => Err(OpenFault::NoMemory),
    }
}
