//! The threads of a bus.

ghost use Rattle.std.specs.Prelude.{◌≡◌, []};
ghost use Rattle.owner_queues.specs.declared.request.Profile.TheVariants.{Two};
ghost use Rattle.seq_bus_core.specs.Tickets.{opening_bus};
ghost use Rattle.registry_snapshots.specs.Openings.{identity};

use crate::bus::{Bus, Listening};
use crate::chores::SeatByClock;
use crate::fault::{fault_of, poll_fault};
use crate::logging::{AcceptLogger, EndLogger};
use crate::programs::start_launcher;
use crate::runtime::DaemonRuntime;
use crate::tracing::TraceFile;
use busd_core::ServeFault;
use busd_sockets::{Acceptor, Chores, EndLog, Entrance, NewConnections, PollWaker, Sockets};
use mio::Poll;
use outbox::{EnvelopeOf, Lane, Outboxes, Tap, open_queue};
use registry_snapshots::{Naming, NewHistory, Seat, Shared};
use router_core::OpenGate;
use router_host::StartRequest;
use routers::{Coordinator, RouterSetup, SeatSetup};
use starter::{MainSeat, Programs};
use std::alloc::AllocError;
use std::io::{Read, Write};
use std::marker::Brand;
use std::net::Net;
use std::rt::Clock;
use std::sync::Wait;
use std::thread::Threads;

/// What the threads of the seats begin with, that of the last router last. What stands by seats has
/// that of the main thread first.
#[derive(Drop)]
struct Parts<J: Naming, F> {
    /// By seats.
    seats: Vec<Seat<J>>,
    /// By seats.
    lanes: Vec<Lane<EnvelopeOf<J>>>,
    /// By seats: lanes to the main thread.
    starts: Vec<Lane<StartRequest>>,
    /// By seats.
    traces: Vec<TraceFile<F>>,
    /// By routers.
    taps: Vec<Vec<Tap<EnvelopeOf<J>>>>,
    /// By routers.
    polls: Vec<Poll>,
}

impl<J: Naming, F: Drop> Parts<J, F> {
    /// Takes what the thread of the last seat begins with that is not taken yet.
    fn take_seat(&mut self) -> Result<SeatSetup<J, TraceFile<F>>, AllocError> {
        let trace = self.traces.pop().ok_or(AllocError)?;
        let lane = self.lanes.pop().ok_or(AllocError)?;
        let starts = self.starts.pop().ok_or(AllocError)?;
        let seat = self.seats.pop().ok_or(AllocError)?;
        Ok(SeatSetup {
            seat,
            lane,
            starts,
            trace,
        })
    }
}

/// Serves the clients of a bus over a registry of its own.
pub(crate) fn serve_bus<F: Read + Write + Send + Drop, R: DaemonRuntime>(
    rt: &R,
    bus: &Bus<'_>,
    listening: Listening<F>,
) -> Result<(), ServeFault> {
    serve_over_registry::<Brand, F, R>(rt, NewHistory::new(), bus, listening)
}

/// Opens a registry with the services of the bus, serves over it, and ends it.
fn serve_over_registry<
    J: Naming + Send + Sync + 'static,
    F: Read + Write + Send + Drop,
    R: DaemonRuntime,
>(rt: &R, opened: NewHistory, bus: &Bus<'_>, listening: Listening<F>) -> Result<(), ServeFault>
    requires { (opened ≡ identity J.book J.name J.parts)
        × (J.opening ≡ opening_bus Two bus.now.options.routers listening.names.items) }
{
    let routers = bus.options.routers;
    let names = listening.names.as_slice();
    let Ok((shared, seats)) = Shared::<J>::new(rt, rt.alloc(), opened, names, routers) else {
        return Err(ServeFault::Memory);
    };
    let served = serve_over_outboxes(rt, &shared, seats, bus, listening);
    shared.end(rt);
    served
}

/// What a router of the daemon begins with.
type Setup<'a, J, F, R> = RouterSetup<J, Sockets<'a, EndLogger<'a, R>, R>, OpenGate, TraceFile<F>>;

/// What its routers begin with.
type Setups<'a, J, F, R> = Vec<Setup<'a, J, F, R>>;

/// What each router begins with. The seat of the main thread is left.
fn router_setups<'a, J: Naming, F: Drop, R: Net + Eprint + Clock + AllocGlobal>(
    rt: &'a R,
    bus: &'a Bus<'_>,
    parts: &mut Parts<J, F>,
) -> Result<Setups<'a, J, F, R>, ServeFault> {
    let mut setups = Vec::with_capacity(rt.alloc(), bus.new_connections.len())?;
    for new_connections in bus.new_connections.iter().rev() {
        let setup = last_router(rt, bus, new_connections, parts)?;
        setups.push(setup)?;
    }
    setups.reverse();
    Ok(setups)
}

/// What the last router begins with that is not taken yet: its seat, its ways to the others, and
/// the connections that come to it.
fn last_router<'a, J: Naming, F: Drop, R: Net + Eprint + Clock + AllocGlobal>(
    rt: &'a R,
    bus: &'a Bus<'_>,
    new_connections: &'a NewConnections,
    parts: &mut Parts<J, F>,
) -> Result<Setup<'a, J, F, R>, ServeFault> {
    let alloc = rt.alloc();
    let login = bus.login.login(alloc)?;
    let poll = parts.polls.pop().ok_or(AllocError)?;
    let log = EndLogger::new(rt, bus.options.is_verbose);
    let source = Sockets::new(rt, alloc, poll, new_connections, log)?;
    let taps = parts.taps.pop().ok_or(AllocError)?;
    Ok(RouterSetup {
        seat: parts.take_seat()?,
        taps,
        source,
        gate: OpenGate,
        login: Some(login),
    })
}

/// The seat of the main thread: it runs the programs of services.
fn main_seat<'a, J: Naming, F: Write + Drop, Q: Programs + Drop, R: Wait + Clock + AllocGlobal>(
    rt: &'a R,
    shared: &'a Shared<J>,
    coordinator: &'a Coordinator<PollWaker>,
    setup: SeatSetup<J, TraceFile<F>>,
    programs: Q,
) -> Result<SeatByClock<'a, J, Q, TraceFile<F>, R>, ServeFault> {
    let seat = MainSeat::new(rt, rt.alloc(), shared, coordinator, setup, programs)?;
    Ok(SeatByClock::new(rt, seat))
}

/// Makes the ways between the threads and what runs the programs of services, and serves over them.
fn serve_over_outboxes<
    'a,
    J: Naming + Send + Sync + 'static,
    F: Read + Write + Send + Drop,
    R: DaemonRuntime,
>(
    rt: &'a R,
    shared: &'a Shared<J>,
    seats: Vec<Seat<J>>,
    bus: &'a Bus<'_>,
    listening: Listening<F>,
) -> Result<(), ServeFault>
    requires { J.opening.state.routers ≡ bus.now.options.routers }
{
    let alloc = rt.alloc();
    let (lanes, taps) = Outboxes::new(alloc, shared)?;
    let (starts, requests) = open_queue(alloc, usize::from(shared.routers()) + 1)?;
    let Listening {
        entrance,
        services,
        names: _,
        traces,
        waker,
        router_polls,
    } = listening;
    let mut parts = Parts {
        seats,
        lanes,
        starts,
        traces,
        taps,
        polls: router_polls,
    };
    let programs = start_launcher(rt, alloc, bus, services, requests, waker)?;
    let served = set_up_and_run(rt, shared, &mut parts, bus, entrance, programs);
    drop(parts);
    served
}

/// Makes what each thread begins with, and runs them.
fn set_up_and_run<
    'a,
    J: Naming + Send + Sync + 'static,
    F: Read + Write + Send + Drop,
    Q: Programs + Drop,
    R: Threads + Wait + Net + Eprint + Clock + AllocGlobal + Sync,
>(
    rt: &'a R,
    shared: &'a Shared<J>,
    parts: &mut Parts<J, F>,
    bus: &'a Bus<'_>,
    entrance: Entrance<F>,
    programs: Q,
) -> Result<(), ServeFault> {
    let setups = router_setups(rt, bus, parts)?;
    let seat = parts.take_seat()?;
    let main = main_seat(rt, shared, &bus.coordinator, seat, programs)?;
    run_threads(rt, shared, bus, setups, entrance, main)
}

/// Runs the routers, and beside them accepts connections and does the chores of the main thread.
fn run_threads<
    J: Naming + Send + Sync,
    L: EndLog + Send + Drop,
    F: Read + Write + Send + Drop,
    C: Chores + Drop,
    R: Threads + Wait + Eprint + Clock + AllocGlobal + Sync,
>(
    rt: &R,
    shared: &Shared<J>,
    bus: &Bus<'_>,
    setups: Vec<RouterSetup<J, Sockets<'_, L, R>, OpenGate, TraceFile<F>>>,
    entrance: Entrance<F>,
    chores: C,
) -> Result<(), ServeFault> {
    let alloc = rt.alloc();
    let coordinator = &bus.coordinator;
    let mut acceptor = Acceptor::new(
        alloc,
        entrance,
        coordinator,
        bus.new_connections.as_slice(),
        AcceptLogger::new(rt, bus.options.is_verbose),
        chores,
    )
    .map_err(poll_fault)?;
    routers::serve(rt, alloc, shared, coordinator, setups, &mut acceptor).map_err(fault_of)
}
