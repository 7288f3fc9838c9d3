//! Who plays runs over the seats of a registry with two routers.

use crate::{notes, standings, waiting_calls};
use arrayvec::ArrayString;
use bus_view::AskFault;
use names::WellKnown;
use registry_snapshots::{Desk, Naming, Seat, Serve, Shared, StartFault, start};
use seq_bus_core::Query;
use std::alloc::Global;
use std::fmt::Write;
use std::process::Abort;
use std::sync::Wait;
use test_support::once_more;

/// Which of the two routers.
#[derive(Clone, Copy)]
pub(crate) enum Router {
    First,
    Second,
}

/// What is played.
#[derive(Clone, Copy)]
enum Play {
    /// A seat is told of a connection, and tells of another.
    Notes,
    /// Where the changes of two desks stand.
    Standings,
    /// Calls wait for a service.
    WaitingCalls,
}

/// Plays over the seats of a bus with these services.
#[derive(Drop)]
struct Player<'a, R> {
    rt: &'a R,
    alloc: Global,
    services: &'a [WellKnown],
    routers: u8,
    play: Play,
}

impl<'a, R: Wait> Serve for Player<'a, R> {
    ghost use Rattle.owner_queues.specs.declared.request.Profile.TheVariants.{Two};
    ghost use Rattle.seq_bus_core.specs.Tickets.{opening_bus};

    /// Whether all was as it should be.
    type Out = bool;

    ghost bus = { λ s. opening_bus Two s.routers s.services.now };

    fn serve<J: Naming + Send + Sync>(self, shared: Shared<J>, mut seats: Vec<Seat<J>>) -> bool {
        let Player {
            rt,
            alloc,
            play,
            ..
        } = self;
        let (Some(mut second), Some(mut first)) = (seats.pop(), seats.pop()) else {
            shared.end(rt);
            return false;
        };
        if let Play::Standings = play {
            let is_so = at_desks(rt, alloc, &shared, first, second);
            shared.end(rt);
            return is_so && seats.len() == 1;
        }
        let is_so = at_seats(rt, alloc, &shared, &mut first, &mut second, play);
        let are_two = shared.routers() == 2;
        shared.end(rt);
        is_so && are_two && is_gone(alloc, &mut first) && is_gone(alloc, &mut second)
    }
}

/// Plays at the seats of two routers.
fn at_seats<J: Naming, R: Wait>(
    rt: &R,
    alloc: Global,
    shared: &Shared<J>,
    first: &mut Seat<J>,
    second: &mut Seat<J>,
    play: Play,
) -> bool {
    match play {
        Play::Notes => notes::are_told(rt, alloc, shared, first, second) == Some(true),
        Play::WaitingCalls => {
            waiting_calls::are_settled(rt, alloc, shared, first, second) == Some(true)
        }
        Play::Standings => false,
    }
}

/// Plays at desks with these seats.
fn at_desks<J: Naming, R: Wait>(
    rt: &R,
    alloc: Global,
    shared: &Shared<J>,
    first: Seat<J>,
    second: Seat<J>,
) -> bool {
    let mut first: Desk<'_, J, R> = Desk::new(first, shared);
    let mut second: Desk<'_, J, R> = Desk::new(second, shared);
    let is_so = standings::are_told(rt, alloc, &mut first, &mut second);
    drop(second);
    drop(first);
    is_so
}

/// Whether the registry of a seat has ended, as each of its reads tells.
fn is_gone<J: Naming>(alloc: Global, seat: &mut Seat<J>) -> bool {
    let mut body = Vec::new(alloc);
    let is_unanswered = seat.ask(&Query::ListNames, &mut body) == Err(AskFault::Gone);
    is_unanswered
        && body.is_empty()
        && seat.present(1).is_err()
        && seat.open(|snap| snap.conn(1)).is_err()
}

fn play_with<R: Wait>(
    rt: &R,
    alloc: Global,
    services: &[WellKnown],
    routers: u8,
    play: Play,
) -> Result<bool, StartFault> {
    let player = Player {
        rt,
        alloc,
        services,
        routers,
        play,
    };
    start(rt, alloc, services, routers, player)
}

#[test]
fn plays_over_two_seats(rt: HostRuntime) {
    let service = WellKnown::parse(waiting_calls::SERVICE)
        .ok()
        .expect(&rt, "a well-known name");
    for (name, play) in [
        ("notes", Play::Notes),
        ("standings", Play::Standings),
        ("calls that wait", Play::WaitingCalls),
    ] {
        let mut played = play_with(&rt, rt.alloc(), &[service], 2, play);
        if played != Ok(true) {
            played = play_with(&rt, rt.alloc(), &[service], 2, play);
        }
        assert_eq!(rt; played, Ok(true), "{name}");
    }
}

/// A name of a service, which has its number.
fn numbered(rt: &impl Abort, number: u64) -> WellKnown {
    let mut text = ArrayString::<32>::new();
    write!(text, "com.example.n{number}")
        .ok()
        .and_then(|()| WellKnown::parse(text.as_str()).ok())
        .expect(rt, "a well-known name")
}

/// One service more than there may be.
const TOO_MANY: u64 = 257;

fn too_many(rt: &impl Abort, alloc: Global) -> Vec<WellKnown> {
    let mut services = once_more!(rt; Vec::with_capacity(alloc, TOO_MANY as usize));
    for number in 0..TOO_MANY {
        services
            .push(numbered(rt, number))
            .expect(rt, "there is room");
    }
    services
}

#[test]
fn no_registry_has_too_many_services(rt: HostRuntime) {
    let services = too_many(&rt, rt.alloc());
    let played = play_with(&rt, rt.alloc(), &services, 2, Play::Notes);
    assert_eq!(rt; played.map_err(|fault| fault.code()), Err(59));
}
