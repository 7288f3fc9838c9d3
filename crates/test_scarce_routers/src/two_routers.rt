//! Two routers of a registry, of which one puts out the client of the other.
//!
//! The client of the second sends mail to that of the first, which has no room for it: so the
//! second makes its Leave, and the first closes it. Where there was no memory for the Leave, it is
//! made later, and the second does not know any more whose client it was: all are to look.

ghost use Rattle.std.specs.Prelude.{◌≡◌};

use crate::beats::{Beats, Client, Fate, Wire};
use crate::relays::{
    FIRST_LEFT, Found, SECOND_ACQUIRED, SECOND_LISTENS, SECOND_WELCOME, are_all, tells_of_memory,
    together,
};
use bus_view::BusView;
use outbox::{EnvelopeOf, Lane, Outboxes, open_queue};
use outbox_core::{Content, Envelope};
use registry_snapshots::{Desk, Naming, Seat, Serve, Shared, start};
use router::{Engine, Traced};
use router_core::{CloseCause, OpenGate};
use router_host::{EndCause, Host, Post};
use routers::{Coordinator, Fault, LanePost, Router, TraceSink, TraceWriter, Wake};
use seq_bus_core::SharedBytes;
use std::alloc::{AllocError, Global};
use std::cell::RefCell;
use std::rc::Rc;
use std::sync::{Arc, Wait};
use test_post::{Ends, EndsOf, Ways};
use test_support::messages::{ACQUIRED, WELCOME};

/// How many places for connections each of two routers has.
const PLACES: usize = 128;

/// How much mail waits for a place at most.
const MOST: u32 = 256;

/// The number of a connection that there is not: mail for it is dropped once it is taken.
const NOBODY: u64 = 99;

/// How often each router goes on, more than it takes.
const ROUNDS: u32 = 3;

/// What the client of the first router is written.
const TO_FIRST: [&[u8]; 2] = [WELCOME, ACQUIRED];

/// What the client of the second router is written.
const TO_SECOND: [&[u8]; 4] = [SECOND_WELCOME, SECOND_ACQUIRED, SECOND_LISTENS, FIRST_LEFT];

/// Wakes nobody: there is one thread.
#[derive(Clone, Copy)]
struct NoWaker;

impl Wake for NoWaker {
    fn wake(&self) {}
}

/// Records nothing.
#[derive(Clone, Copy)]
struct NoTrace;

impl TraceSink for NoTrace {
    fn records(&self) -> bool {
        false
    }

    fn write(&mut self, _lines: &[u8]) -> Result<(), Fault> {
        Ok(())
    }
}

/// Puts mail until there is no room.
trait Fill {
    fn fill(&mut self) -> Result<(), AllocError>;
}

/// What the thread that is no router puts with.
#[derive(Drop)]
struct MainLane<'a, J: Naming, R> {
    rt: &'a R,
    lane: Lane<EnvelopeOf<J>>,
    bytes: SharedBytes,
}

impl<'a, J: Naming, R: Wait> Fill for MainLane<'a, J, R> {
    /// Fills the first place.
    fn fill(&mut self) -> Result<(), AllocError> {
        for _letter in 0..MOST {
            let letter = Envelope {
                number: NOBODY,
                note: None,
                content: Content::Relayed(self.bytes.try_clone()?),
            };
            if self.lane.slots() == 0 || self.lane.put(self.rt, 0, letter).is_err() {
                return Ok(());
            }
        }
        Ok(())
    }
}

/// What a router is made of: a view of the bus, a way to the other router, and its client.
#[derive(Drop)]
struct Side<V, P> {
    view: V,
    post: P,
    source: Beats,
}

/// The same, where there is a way to the other router.
fn beside<V: Drop, P: Drop>(view: V, post: Option<P>, source: Beats) -> Option<Side<V, P>> {
    Some(Side {
        view,
        post: post?,
        source,
    })
}

/// A router of the coordinator.
fn router_of<'c, V: BusView + Drop, P: Post<V> + Drop, W: Wake + Drop>(
    alloc: Global,
    me: usize,
    coordinator: &'c Coordinator<W>,
    side: Side<V, P>,
) -> Result<Router<'c, V, OpenGate, P, Wire, Beats, W>, AllocError>
    requires { P.registry side.post ≡ (V.knows side.view).registry }
{
    let Side { view, post, source } = side;
    let engine = Engine::new(alloc, view, OpenGate, None)?;
    let first = u16::try_from(me.saturating_mul(PLACES)).unwrap_or(u16::MAX);
    let host = Host::new(alloc, engine, post, first, PLACES as u16)?;
    Ok(Router::new(me, coordinator, host, source))
}

/// Both routers go on, one after the other: the first until its client has come, then the queue of
/// that is filled, and the client of the second comes.
fn go_on<
    'c,
    V: BusView,
    P: Post<V>,
    W: Wake + Drop,
    T: TraceWriter<V, OpenGate, P, Wire>,
    F: Fill,
    R: Wait,
>(
    rt: &R,
    right: &V::Right,
    first: &mut Router<'c, V, OpenGate, P, Wire, Beats, W>,
    second: &mut Router<'c, V, OpenGate, P, Wire, Beats, W>,
    trace_writer: &mut T,
    filler: &mut F,
) -> Result<(), AllocError> {
    let mut has_failed = first.run(rt, right, trace_writer).is_err();
    filler.fill()?;
    for _round in 0..ROUNDS {
        has_failed = second.run(rt, right, trace_writer).is_err() || has_failed;
        has_failed = first.run(rt, right, trace_writer).is_err() || has_failed;
    }
    if has_failed { Err(AllocError) } else { Ok(()) }
}

/// What became of a client that was to be written these messages, and whose connection was to end
/// so.
fn seen(fate: &Rc<RefCell<Fate>>, expected: &[&[u8]], end: Option<EndCause>) -> Found {
    let Ok(fate) = fate.try_borrow() else {
        return Found::Wrong;
    };
    let taken = fate.taken.as_slice();
    let has_all = are_all(taken, expected);
    // Nobody is told of an end that there was no memory to note.
    let is_untold = has_all && fate.end.is_none();
    if has_all && fate.end == end {
        Found::All
    } else if is_untold || tells_of_memory(taken) || taken.is_empty() || is_for_memory(fate.end) {
        Found::Short
    } else {
        Found::Wrong
    }
}

/// Whether a connection is over that no router closed: there was no memory for what it was written.
fn is_for_memory(end: Option<EndCause>) -> bool {
    end == Some(EndCause::NoMemory)
}

/// Serves by two routers.
fn serve_both<
    V: BusView + Drop,
    P: Post<V> + Drop,
    W: Wake + Drop,
    T: TraceWriter<V, OpenGate, P, Wire>,
    F: Fill,
    R: Wait,
>(
    rt: &R,
    right: &V::Right,
    alloc: Global,
    coordinator: &Coordinator<W>,
    first: Side<V, P>,
    second: Side<V, P>,
    trace_writer: &mut T,
    filler: &mut F,
) -> Result<(), AllocError>
    requires { (P.registry first.post ≡ (V.knows first.view).registry)
        × (P.registry second.post ≡ (V.knows second.view).registry) }
{
    let mut first = router_of(alloc, 0, coordinator, first)?;
    let served = serve_beside(
        rt,
        right,
        alloc,
        coordinator,
        &mut first,
        second,
        trace_writer,
        filler,
    );
    drop(first);
    served
}

/// Serves by a second router beside the first.
fn serve_beside<
    'c,
    V: BusView + Drop,
    P: Post<V> + Drop,
    W: Wake + Drop,
    T: TraceWriter<V, OpenGate, P, Wire>,
    F: Fill,
    R: Wait,
>(
    rt: &R,
    right: &V::Right,
    alloc: Global,
    coordinator: &'c Coordinator<W>,
    first: &mut Router<'c, V, OpenGate, P, Wire, Beats, W>,
    second: Side<V, P>,
    trace_writer: &mut T,
    filler: &mut F,
) -> Result<(), AllocError>
    requires { P.registry second.post ≡ (V.knows second.view).registry }
{
    let mut second = router_of(alloc, 1, coordinator, second)?;
    let served = go_on(rt, right, first, &mut second, trace_writer, filler);
    drop(second);
    served
}

/// The registry that both are over, and what else they serve with.
#[derive(Drop)]
struct Pair<'a, R> {
    rt: &'a R,
    alloc: Global,
    coordinator: Coordinator<NoWaker>,
    /// What the queue of the first client is filled with.
    bytes: SharedBytes,
    first: Beats,
    second: Beats,
}

impl<'a, R: Wait> Serve for Pair<'a, R> {
    ghost use Rattle.std.specs.Prelude.{[]};
    ghost use Rattle.owner_queues.specs.declared.request.Profile.TheVariants.{Two};
    ghost use Rattle.seq_bus_core.specs.Tickets.{opening_bus};

    /// Whether both served.
    type Out = bool;

    ghost bus = { λ s. opening_bus Two 2 [] };

    fn serve<J: Naming + Send + Sync>(self, shared: Shared<J>, seats: Vec<Seat<J>>) -> bool {
        let rt = self.rt;
        let served = serve_over(self, &shared, seats);
        shared.end(rt);
        served.is_some()
    }
}

/// What the first router serves with, the second, and the lane of the thread that is no router.
fn part<S: Drop, L: Drop, T: Drop, Q: Drop>(
    ways: Result<Ways<S, L, T, Q>, AllocError>,
) -> Option<(Ends<S, L, T, Q>, Ends<S, L, T, Q>, L)> {
    let mut ways = ways.ok()?;
    let second = ways.pop()?;
    let first = ways.pop()?;
    Some((first, second, ways.lanes.pop()?))
}

/// Makes what the routers put and take with, and serves.
fn serve_over<J: Naming, R: Wait>(
    pair: Pair<'_, R>,
    shared: &Shared<J>,
    seats: Vec<Seat<J>>,
) -> Option<()> {
    let alloc = pair.alloc;
    let outboxes = Outboxes::new(alloc, shared);
    let (first, second, lane) = part(Ways::new(seats, outboxes, open_queue(alloc, 3)))?;
    serve_ends(pair, shared, first, second, lane)
}

/// Serves with what the two routers have.
fn serve_ends<J: Naming, R: Wait>(
    pair: Pair<'_, R>,
    shared: &Shared<J>,
    first: EndsOf<J>,
    second: EndsOf<J>,
    lane: Lane<EnvelopeOf<J>>,
) -> Option<()> {
    let Pair {
        rt,
        alloc,
        coordinator,
        bytes,
        first: first_beats,
        second: second_beats,
    } = pair;
    let first = side_of(alloc, 0, first, first_beats, shared, &coordinator);
    let second = side_of(alloc, 1, second, second_beats, shared, &coordinator);
    let mut filler = MainLane { rt, lane, bytes };
    let served = serve_sides(rt, alloc, &coordinator, both(first, second), &mut filler);
    drop(filler);
    served
}

/// A router of a registry.
type SideOf<'b, J, R> = Side<Traced<Desk<'b, J, R>>, LanePost<'b, J, NoWaker>>;

/// What a router is made of, if there is memory for it.
fn side_of<'b, J: Naming, R: Wait>(
    alloc: Global,
    me: usize,
    ends: EndsOf<J>,
    source: Beats,
    shared: &'b Shared<J>,
    coordinator: &'b Coordinator<NoWaker>,
) -> Option<SideOf<'b, J, R>> {
    let Ends {
        seat,
        lane,
        taps,
        starts,
    } = ends;
    let post = LanePost::new(alloc, me, lane, taps, starts, coordinator).ok();
    let desk: Desk<'b, J, R> = Desk::new(seat, shared);
    beside(Traced::silent(alloc, desk), post, source)
}

/// Serves by two routers, if both are there.
fn serve_sides<'b, J: Naming, F: Fill, R: Wait>(
    rt: &R,
    alloc: Global,
    coordinator: &'b Coordinator<NoWaker>,
    sides: Option<(SideOf<'b, J, R>, SideOf<'b, J, R>)>,
    filler: &mut F,
) -> Option<()> {
    let (first, second) = sides?;
    serve_both(
        rt,
        rt,
        alloc,
        coordinator,
        first,
        second,
        &mut NoTrace,
        filler,
    )
    .ok()
}

/// Both, if both are there.
fn both<A: Drop, B: Drop>(a: Option<A>, b: Option<B>) -> Option<(A, B)> {
    Some((a?, b?))
}

/// What two routers tell one another by.
fn coordinator(alloc: Global) -> Option<Coordinator<NoWaker>> {
    let wakers = vec![in alloc; NoWaker, NoWaker].ok()?;
    Coordinator::new(alloc, wakers, NoWaker).ok()
}

/// No bytes.
fn no_bytes(alloc: Global) -> Option<SharedBytes> {
    Some(SharedBytes::new(Arc::new(alloc, Vec::new(alloc)).ok()?))
}

/// What comes of a registry that is opened for two clients.
fn served<R: Wait>(rt: &R, alloc: Global) -> Option<Found> {
    let clients = both(
        Beats::new(alloc, Client::First).ok(),
        Beats::new(alloc, Client::Second).ok(),
    );
    let ways = both(coordinator(alloc), no_bytes(alloc));
    let (((first, first_fate), (second, second_fate)), (coordinator, bytes)) = both(clients, ways)?;
    let pair = Pair {
        rt,
        alloc,
        coordinator,
        bytes,
        first,
        second,
    };
    let is_served = start(rt, alloc, &[], 2, pair).unwrap_or(false);
    let left = Some(EndCause::Closed(CloseCause::Left));
    let at_first = seen(&first_fate, &TO_FIRST, left);
    let at_second = seen(&second_fate, &TO_SECOND, None);
    is_served.then_some(together(at_first, at_second))
}

/// Whether the first router closes its client, and the client of the second is told that it left.
/// Where memory is refused, somebody is told so or closed, and then both are served once more; but
/// a Leave that there is no memory for is made all the same.
pub fn put_out<R: Wait>(rt: &R, alloc: Global) -> bool {
    match served(rt, alloc) {
        Some(Found::All) => true,
        Some(Found::Wrong) => false,
        Some(Found::Short) | None => served(rt, alloc) == Some(Found::All),
    }
}
