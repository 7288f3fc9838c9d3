//! Routers that follow a scenario.

ghost use Rattle.std.specs.Prelude.{◌≡◌, []};
ghost use Rattle.owner_queues.specs.declared.request.Profile.TheVariants.{Two};
ghost use Rattle.seq_bus_core.specs.Tickets.{opening_bus};
ghost use Rattle.registry_snapshots.specs.Openings.{identity};

use crate::gate::HoldingGate;
use crate::progress::{FlagWaker, MAIN, Progress};
use crate::scenario::{Scenario, Step};
use crate::source::ScenarioSource;
use crate::stopper::Stopper;
use crate::trace_sink::SharedTrace;
use outbox::{Outboxes, open_queue};
use registry_snapshots::{Naming, NewHistory, Seat, Shared};
use routers::{Coordinator, Fault, RouterSetup, SeatSetup, serve};
use std::alloc::{AllocError, Global};
use std::marker::Brand;
use std::process::Abort;
use std::rt::Clock;
use std::sync::Wait;
use std::test::Fail;
use std::thread::Threads;
use test_post::{Ends, EndsOf, Ways, WaysOf};

/// What is told of a scenario.
#[derive(Drop)]
pub(crate) struct Played {
    /// What each client was written, why connections are over, and the fault that the bus ended
    /// with.
    pub(crate) told: String,
    /// The lines that routers recorded.
    pub(crate) trace: String,
}

/// Runs a scenario of 1 to 4 routers.
pub(crate) fn play<R: Threads + Wait + Clock + Sync>(
    rt: &R,
    alloc: Global,
    scenario: &Scenario,
) -> Result<Played, Fail> {
    let routers = u8::try_from(scenario.steps.len()).unwrap_or(0);
    open::<Brand, R>(rt, alloc, NewHistory::new(), routers, scenario)
}

/// Runs a scenario, of which this is to be told.
pub(crate) fn expect_told<R: Threads + Wait + Clock + Abort + Sync>(
    rt: &R,
    alloc: Global,
    scenario: &Scenario,
    told: &str,
) -> Result<(), Fail> {
    let played = play(rt, alloc, scenario)?;
    assert_eq!(rt; played.told.as_str(), told);
    Ok(())
}

/// Opens the registry that the routers share.
fn open<J: Naming + Send + Sync, R: Threads + Wait + Clock + Sync>(
    rt: &R,
    alloc: Global,
    opened: NewHistory,
    routers: u8,
    scenario: &Scenario,
) -> Result<Played, Fail>
    requires { (opened ≡ identity J.book J.name J.parts)
        × (J.opening ≡ opening_bus Two routers []) }
{
    let Ok((shared, seats)) = Shared::<J>::new(rt, alloc, opened, &[], routers) else {
        return Err(Fail::from("no registry"));
    };
    let told = serve_over(rt, alloc, &shared, seats, scenario);
    shared.end(rt);
    told
}

/// Serves over the registry.
fn serve_over<J: Naming + Send + Sync, R: Threads + Wait + Clock + Sync>(
    rt: &R,
    alloc: Global,
    shared: &Shared<J>,
    seats: Vec<Seat<J>>,
    scenario: &Scenario,
) -> Result<Played, Fail> {
    let progress = Progress::new(alloc, scenario.rooms)?;
    let fault = follow(rt, alloc, shared, seats, &progress, scenario)?;
    let mut told = String::new(alloc);
    progress.tell(rt, &mut told)?;
    if let Some(fault) = fault {
        writeln!(told, "fault: {fault}")?;
    }
    let trace = progress.trace(rt)?;
    Ok(Played { told, trace })
}

/// Runs the routers and the main task, until all have ended: the fault that came first.
fn follow<'a, J: Naming + Send + Sync, R: Threads + Wait + Clock + Sync>(
    rt: &'a R,
    alloc: Global,
    shared: &Shared<J>,
    seats: Vec<Seat<J>>,
    progress: &'a Progress,
    scenario: &Scenario,
) -> Result<Option<Fault>, Fail> {
    let outboxes = Outboxes::new(alloc, shared);
    let queue = open_queue(alloc, usize::from(shared.routers()) + 1);
    let ways = Ways::new(seats, outboxes, queue)?;
    let setups = setups_of(rt, alloc, ways, progress, scenario)?;
    let coordinator = coordinator_of(alloc, progress, scenario.steps.len())?;
    let mut stopper = Stopper {
        clock: rt,
        progress,
        coordinator: &coordinator,
        stops: scenario.stops,
    };
    let served = serve(rt, alloc, shared, &coordinator, setups, &mut stopper);
    drop(coordinator);
    Ok(served.err())
}

/// What so many routers and the main thread are woken by.
fn coordinator_of(
    alloc: Global,
    progress: &Progress,
    routers: usize,
) -> Result<Coordinator<FlagWaker<'_>>, AllocError> {
    let mut wakers = Vec::new(alloc);
    for router in 0..routers {
        wakers.push(progress.waker(router))?;
    }
    Coordinator::new(alloc, wakers, progress.waker(MAIN))
}

/// What a router of a scenario begins with.
type SetupOf<'a, J, R> = RouterSetup<
    J,
    ScenarioSource<'a, R>,
    HoldingGate<'a, R>,
    SharedTrace<'a, R>,
>;

/// What each router begins with.
fn setups_of<'a, J: Naming, R: Wait + Clock>(
    rt: &'a R,
    alloc: Global,
    mut ways: WaysOf<J>,
    progress: &'a Progress,
    scenario: &Scenario,
) -> Result<Vec<SetupOf<'a, J, R>>, Fail> {
    let mut setups = Vec::new(alloc);
    for (me, steps) in scenario.steps.iter().enumerate().rev() {
        let setup = setup_of(rt, ways.pop(), progress, scenario, me, steps);
        add(&mut setups, setup)?;
    }
    setups.reverse();
    Ok(setups)
}

/// What a router begins with that follows these steps, if it has its ends.
fn setup_of<'a, J: Naming, R: Wait + Clock>(
    rt: &'a R,
    ends: Option<EndsOf<J>>,
    progress: &'a Progress,
    scenario: &Scenario,
    me: usize,
    steps: &'static [Step],
) -> Option<SetupOf<'a, J, R>> {
    let Ends {
        seat,
        lane,
        taps,
        starts,
    } = ends?;
    let trace = SharedTrace {
        rt,
        progress,
        tracing: scenario.tracing,
    };
    Some(RouterSetup {
        seat: SeatSetup {
            seat,
            lane,
            starts,
            trace,
        },
        taps,
        source: ScenarioSource::new(rt, progress, me, steps),
        gate: HoldingGate::new(rt, progress, scenario.holds),
        login: None,
    })
}

/// One more, where it could be made.
fn add<T: Drop>(items: &mut Vec<T>, item: Option<T>) -> Result<(), Fail> {
    match item {
        Some(item) => items.push(item)?,
        None => return Err(Fail::from("no seat")),
    }
    Ok(())
}
