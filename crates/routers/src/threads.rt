//! A thread for each router.

ghost use denote.Param.Send.{IsSend};
ghost use Rattle.std.specs.Prelude.{◌≡◌};

use crate::router_loop::Router;
use crate::source::Source;
use crate::trace_sink::{TraceSink, TraceWriter, traced};
use bus_view::BusView;
use outbox::{EnvelopeOf, Lane, Tap};
use registry_snapshots::{Desk, Naming, Seat, Shared};
use router::{Engine, Login};
use router_core::Gate;
use router_host::{Host, Post, Socket, StartRequest};
use routers_core::{Coordinator, Fault, LanePost, Wake};
use std::alloc::{AllocError, Global};
use std::marker::PhantomData;
use std::sync::Wait;
use std::thread;
use std::thread::{Scope, Threads};

/// What the thread of a seat begins with, a router's or the main thread.
#[derive(Drop)]
pub struct SeatSetup<J: Naming, T> {
    /// Where it makes changes and asks.
    pub seat: Seat<J>,
    /// Into all outboxes.
    pub lane: Lane<EnvelopeOf<J>>,
    /// To whoever runs the programs of services.
    pub starts: Lane<StartRequest>,
    /// Where it writes what it recorded.
    pub trace: T,
}

/// What a router begins with.
#[derive(Drop)]
pub struct RouterSetup<J: Naming, E, G: Gate, T> {
    pub seat: SeatSetup<J, T>,
    /// The outboxes of its places.
    pub taps: Vec<Tap<EnvelopeOf<J>>>,
    /// Where it hears of what happens.
    pub source: E,
    /// What is shown each call to the bus.
    pub gate: G,
    /// Who may log in; none where nobody is asked.
    pub login: Option<Login>,
}

/// What the thread that started the routers does meanwhile: in a daemon it accepts connections.
pub trait MainTask {
    /// Works until all are to end, or there is no more to do.
    fn run<R: Wait>(&mut self, rt: &R) -> Result<(), Fault>;
}

/// What a router is made of: a view of the bus, a way to the other routers, and where it hears of
/// what happens.
#[derive(Drop)]
struct RouterParts<V, P, E, G, T> {
    view: V,
    post: P,
    source: E,
    gate: G,
    login: Option<Login>,
    trace_writer: T,
}

/// Serves as one router, over the desk of its seat and its lane.
fn serve_as_router<
    J: Naming,
    S: Socket,
    E: Source<S> + Drop,
    G: Gate + Drop,
    W: Wake + Drop,
    T: TraceSink + Drop,
    R: Wait,
>(
    rt: &R,
    alloc: Global,
    me: usize,
    shared: &Shared<J>,
    coordinator: &Coordinator<W>,
    setup: RouterSetup<J, E, G, T>,
) -> Result<(), Fault> {
    let RouterSetup {
        seat,
        taps,
        source,
        gate,
        login,
    } = setup;
    let SeatSetup {
        seat,
        lane,
        starts,
        trace,
    } = seat;
    let desk: Desk<'_, J, R> = Desk::new(seat, shared);
    let post = LanePost::new(alloc, me, lane, taps, starts, coordinator)?;
    let parts = RouterParts {
        view: traced(alloc, desk, trace.records()),
        post,
        source,
        gate,
        login,
        trace_writer: trace,
    };
    serve_over_view::<_, _, _, S, _, _, _, _>(rt, rt, alloc, me, coordinator, parts)
}

/// The host of a router, whose slots are those of its places.
fn host_of<V: BusView + Drop, P: Post<V>, G: Gate + Drop, S: Socket, W: Wake + Drop>(
    alloc: Global,
    me: usize,
    coordinator: &Coordinator<W>,
    engine: Engine<V, G>,
    post: P,
) -> Result<Host<V, G, P, S>, AllocError>
    requires { P.registry post ≡ engine.view.registry }
{
    let first = u16::try_from(coordinator.first_slot(me)).unwrap_or(u16::MAX);
    let count = u16::try_from(coordinator.places()).unwrap_or(0);
    Host::new(alloc, engine, post, first, count)
}

/// Serves as one router, over any view of the bus and any post.
fn serve_over_view<
    V: BusView + Drop,
    P: Post<V> + Drop,
    G: Gate + Drop,
    S: Socket,
    E: Source<S> + Drop,
    W: Wake + Drop,
    T: TraceWriter<V, G, P, S> + Drop,
    R: Wait,
>(
    rt: &R,
    right: &V::Right,
    alloc: Global,
    me: usize,
    coordinator: &Coordinator<W>,
    parts: RouterParts<V, P, E, G, T>,
) -> Result<(), Fault>
    requires { P.registry parts.post ≡ (V.knows parts.view).registry }
{
    let RouterParts {
        view,
        post,
        source,
        gate,
        login,
        mut trace_writer,
    } = parts;
    let Ok(engine) = Engine::new(alloc, view, gate, login) else {
        return Err(Fault::Memory);
    };
    let Ok(host) = host_of::<V, P, G, S, W>(alloc, me, coordinator, engine, post) else {
        return Err(Fault::Memory);
    };
    let mut router = Router::new(me, coordinator, host, source);
    let ended = router.run(rt, right, &mut trace_writer);
    drop(router);
    ended
}

/// What one thread does.
trait Task {
    fn run<R: Wait>(self, rt: &R);
}

/// The task to serve as a router.
#[derive(Drop)]
struct RouterTask<'a, J: Naming, S: Socket, E, G: Gate, W: Wake + Drop, T> {
    alloc: Global,
    me: usize,
    shared: &'a Shared<J>,
    coordinator: &'a Coordinator<W>,
    setup: RouterSetup<J, E, G, T>,
    socket: PhantomData<S>,
}

impl<
    'a,
    J: Naming,
    S: Socket,
    E: Source<S> + Drop,
    G: Gate + Drop,
    W: Wake + Drop,
    T: TraceSink + Drop,
> Task for RouterTask<'a, J, S, E, G, W, T> {
    /// Serves as a router, and tells the coordinator where it can't go on.
    fn run<R: Wait>(self, rt: &R) {
        let RouterTask {
            alloc,
            me,
            shared,
            coordinator,
            setup,
            socket: _,
        } = self;
        coordinator.begin_serving(me);
        let served = serve_as_router::<J, S, E, G, W, T, R>(
            rt,
            alloc,
            me,
            shared,
            coordinator,
            setup,
        );
        coordinator.end_serving(me);
        if let Err(fault) = served {
            coordinator.fail(rt, fault);
        }
    }
}

/// Starts a thread, if there can be one more.
fn start<'s, E: 's, T: Task + Send + Drop + 's, R: Wait + Sync + 's>(
    scope: &Scope<'s, E>,
    rt: &'s R,
    task: T,
) -> bool {
    scope.spawn(move || task.run(rt)).is_ok()
}

/// Runs each task in a thread of its own, and the main task in this one, until all have ended.
fn run_all<T: Task + Send + Drop, W: Wake + Drop, M: MainTask, R: Threads + Wait + Sync>(
    rt: &R,
    coordinator: &Coordinator<W>,
    tasks: Vec<T>,
    main: &mut M,
) {
    thread::scope(
        thread::scope_env(),
        rt,
        move |scope|
            requires { IsSend T.row }
        {
            for task in tasks {
                if !start(scope, rt, task) {
                    coordinator.fail(rt, Fault::Memory);
                }
            }
            if let Err(fault) = main.run(rt) {
                coordinator.fail(rt, fault);
            }
        },
    );
}

/// Runs a router for each setup in a thread of its own, and the main task in this one, until all
/// have ended.
///
/// # Errors
///
/// The fault that came first: then all end.
pub fn serve<
    J: Naming + Send + Sync,
    S: Socket + Send,
    E: Source<S> + Send + Drop,
    G: Gate + Send + Drop,
    W: Wake + Sync + Drop,
    T: TraceSink + Send + Drop,
    M: MainTask,
    R: Threads + Wait + Sync,
>(
    rt: &R,
    alloc: Global,
    shared: &Shared<J>,
    coordinator: &Coordinator<W>,
    setups: Vec<RouterSetup<J, E, G, T>>,
    main: &mut M,
) -> Result<(), Fault> {
    let mut tasks = Vec::with_capacity(alloc, setups.len())?;
    for (me, setup) in setups.into_iter().enumerate() {
        let task: RouterTask<'_, J, S, E, G, W, T> = RouterTask {
            alloc,
            me,
            shared,
            coordinator,
            setup,
            socket: PhantomData,
        };
        if tasks.push(task).is_err() {
            return Err(Fault::Memory);
        }
    }
    run_all(rt, coordinator, tasks, main);
    match coordinator.fault() {
        Some(fault) => Err(fault),
        None => Ok(()),
    }
}
