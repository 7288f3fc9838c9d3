//! A registry of one router, and its clients.

ghost use Rattle.std.specs.Prelude.{◌≡◌};

use crate::client::Client;
use crate::rounds::Rounds;
use crate::scenes::Scene;
use anyhow::Result;
use bench_core::Report;
use bus_view::BusView;
use outbox::{Outboxes, open_queue};
use registry_snapshots::{Desk, Naming, Seat, Serve, Shared};
use router::{Engine, Traced};
use router_core::{Gate, OpenGate};
use router_host::{Host, Post};
use routers::{Coordinator, LanePost, Wake};
use std::alloc::{AllocError, Global};
use std::sync::Wait;
use std::time::Clock;
use test_post::{Ends, EndsOf, Ways};
use thiserror::Error;

/// Wakes nobody: there is one thread.
#[derive(Clone, Copy)]
struct NoWaker;

impl Wake for NoWaker {
    fn wake(&self) {}
}

/// Why a scene can't be measured.
#[derive(Clone, Copy, Debug, PartialEq, Eq, Error)]
enum SceneFault {
    #[error("out of memory")]
    NoMemory(#[from] AllocError),
    #[error("a connection is refused")]
    Refused,
    #[error("the measures can't be written")]
    Report,
}

/// A scene that is measured once there is a registry.
#[derive(Drop)]
pub struct Stage<'a, R> {
    pub report: &'a Report<'a, R>,
    pub alloc: Global,
    pub scene: Scene,
}

impl<'a, R: Print + Clock + Wait> Serve for Stage<'a, R> {
    ghost use Rattle.std.specs.Prelude.{[]};
    ghost use Rattle.owner_queues.specs.declared.request.Profile.TheVariants.{Two};
    ghost use Rattle.seq_bus_core.specs.Tickets.{opening_bus};

    type Out = Result<()>;

    ghost bus = { λ s. opening_bus Two 1 [] };

    fn serve<J: Naming + Send + Sync>(self, shared: Shared<J>, seats: Vec<Seat<J>>) -> Result<()> {
        let measured = over_registry(self.report, self.alloc, self.scene, &shared, seats);
        shared.end(self.report.rt);
        Ok(measured?)
    }
}

/// What the one router serves with, which is the last to have a seat.
fn last_ends<S: Drop, L: Drop, T: Drop, Q: Drop>(
    ways: Result<Ways<S, L, T, Q>, AllocError>,
) -> Option<Ends<S, L, T, Q>> {
    ways.ok()?.pop()
}

/// What a router is made of: a view of the bus, and a post.
#[derive(Drop)]
struct Side<V, P> {
    view: V,
    post: P,
}

/// The same, where there is a post.
fn beside<V: Drop, P: Drop>(view: V, post: Option<P>) -> Option<Side<V, P>> {
    Some(Side { view, post: post? })
}

/// A router of a registry, over a desk of its seat and its lane.
type SideOf<'b, J, R> = Side<Traced<Desk<'b, J, R>>, LanePost<'b, J, NoWaker>>;

/// What the router is made of, if there is memory for it.
fn side_of<'b, J: Naming, R: Wait>(
    alloc: Global,
    ends: Option<EndsOf<J>>,
    shared: &'b Shared<J>,
    coordinator: &'b Coordinator<NoWaker>,
) -> Option<SideOf<'b, J, R>> {
    let Ends {
        seat,
        lane,
        taps,
        starts,
    } = ends?;
    let post = LanePost::new(alloc, 0, lane, taps, starts, coordinator).ok();
    let desk: Desk<'b, J, R> = Desk::new(seat, shared);
    beside(Traced::silent(alloc, desk), post)
}

/// What the one router would tell others by.
fn coordinator(alloc: Global) -> Result<Coordinator<NoWaker>, AllocError> {
    Coordinator::new(alloc, vec![in alloc; NoWaker]?, NoWaker)
}

/// The host of the one router.
fn over_registry<J: Naming, R: Print + Clock + Wait>(
    report: &Report<'_, R>,
    alloc: Global,
    scene: Scene,
    shared: &Shared<J>,
    seats: Vec<Seat<J>>,
) -> Result<(), SceneFault> {
    let coordinator = coordinator(alloc)?;
    let outboxes = Outboxes::new(alloc, shared);
    let ends = last_ends(Ways::new(seats, outboxes, open_queue(alloc, 2)));
    let measured = match side_of(alloc, ends, shared, &coordinator) {
        Some(side) => over_side(report, alloc, scene, report.rt, side),
        None => Err(SceneFault::from(AllocError)),
    };
    drop(coordinator);
    measured
}

/// The host of the one router, over its view and its post.
fn over_side<V: BusView + Drop, P: Post<V> + Drop, R: Print + Clock>(
    report: &Report<'_, R>,
    alloc: Global,
    scene: Scene,
    right: &V::Right,
    side: Side<V, P>,
) -> Result<(), SceneFault>
    requires { P.registry side.post ≡ (V.knows side.view).registry }
{
    let Side { view, post } = side;
    let engine = Engine::new(alloc, view, OpenGate, None)?;
    let mut rounds = Rounds {
        scene,
        right,
        host: Host::new(alloc, engine, post, 0, 256)?,
        round: scene.round(),
    };
    let told = tell(report, alloc, scene, &mut rounds);
    drop(rounds);
    told
}

/// The clients connect, say Hello, and send their messages once. Then it is told what a round takes
/// or finds.
fn tell<V: BusView, G: Gate, P: Post<V>, R: Print + Clock>(
    report: &Report<'_, R>,
    alloc: Global,
    scene: Scene,
    rounds: &mut Rounds<'_, V, G, P>,
) -> Result<(), SceneFault> {
    let count = scene.clients();
    for place in 0..count {
        connect(alloc, scene, rounds, place)?;
    }
    rounds.send(count);
    match report.tell(rounds) {
        Ok(()) => Ok(()),
        Err(_unwritten) => Err(SceneFault::Report),
    }
}

/// A client connects, and says Hello.
fn connect<V: BusView, G: Gate, P: Post<V>>(
    alloc: Global,
    scene: Scene,
    rounds: &mut Rounds<'_, V, G, P>,
    place: usize,
) -> Result<(), SceneFault> {
    let messages = scene.messages(alloc, place)?;
    let Ok(key) = rounds.host.open(rounds.right, Client::new(messages), None) else {
        return Err(SceneFault::Refused);
    };
    rounds.host.readable(key, false);
    rounds.host.turn(rounds.right)?;
    Ok(())
}
