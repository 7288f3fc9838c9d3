//! Many clients that connect at once: a turn of the thread that accepts hands over no more than its
//! share of them, and no more than there is room for, and a turn of a router takes no more than its
//! share.

use crate::client::{Client, Wrong, push};
use busd_sockets::{
    AcceptLog, Acceptor, Chores, ClientSocket, EndLog, Entrance, NewConnections, PollWaker, Sockets,
};
use mio::Poll;
use mio::net::UnixListener;
use router_host::Ended;
use routers::{Coordinator, Fault, MainTask, Source, SourceEvent, Timeout};
use std::alloc::Global;
use std::fmt::Display;
use std::net::Net;
use std::rt::{Clock, Files};
use std::sync::Wait;
use std::{fs, io};

/// The path of the socket.
const PATH: &str = "many-at-once";

/// How many clients connect before any is accepted.
const CLIENTS: usize = 100;

/// How many of them a turn is to hand over, or to take.
const SHARE: usize = 64;

/// How many are left for the next turn.
const REST: usize = 36;

/// How many may wait for the router.
const ROOM: usize = 128;

/// How many may wait for each of two routers whose queues are narrow.
const NARROW: usize = 20;

/// In so many turns the second of them takes what the first, which takes none, has no room for.
const TURNS: usize = 4;

/// How long such a turn is waited for at most, in milliseconds.
const PATIENCE: u64 = 2_000;

/// How the chores end the thread that accepts.
const END: Fault = Fault::Trace;

/// Writes nothing down.
#[derive(Drop)]
struct NoLog;

impl AcceptLog for NoLog {
    fn failed(&mut self, _error: &io::Error) {}
}

impl EndLog for NoLog {
    fn ended(&mut self, _ended: Ended) {}

    fn refused<T: Display>(&mut self, _why: &T) {}
}

/// Chores that see how many connections wait for the router.
#[derive(Drop)]
struct Watch<'a> {
    queue: &'a NewConnections,
    /// By turns.
    seen: &'a mut Vec<usize>,
}

impl Chores for Watch<'_> {
    /// Goes on where a share was handed over at the first turn.
    fn turn<R: Wait>(&mut self, rt: &R) -> Result<Option<u64>, Fault> {
        let waiting = self.queue.len(rt);
        push(self.seen, waiting).map_err(|_| Fault::Memory)?;
        match self.seen.as_slice() == [SHARE].as_slice() {
            true => Ok(None),
            false => Err(END),
        }
    }
}

/// Chores that take what waits for a router.
#[derive(Drop)]
struct Taking<'a> {
    queue: &'a NewConnections,
    /// How many they took, by turns.
    taken: &'a mut Vec<usize>,
}

impl Chores for Taking<'_> {
    fn turn<R: Wait>(&mut self, rt: &R) -> Result<Option<u64>, Fault> {
        let waiting = self.queue.len(rt);
        for _ in 0..waiting {
            let _taken = self.queue.pop(rt);
        }
        push(self.taken, waiting).map_err(|_| Fault::Memory)?;
        match self.taken.len() < TURNS {
            true => Ok(Some(PATIENCE)),
            false => Err(END),
        }
    }
}

fn connect_all<R: Net>(rt: &R, alloc: Global) -> Result<Vec<Client>, Wrong> {
    let mut clients = Vec::new(alloc);
    for _ in 0..CLIENTS {
        push(&mut clients, Client::connect(rt, PATH)?)?;
    }
    Ok(clients)
}

/// All clients, and what they connected to.
#[derive(Drop)]
struct Crowd {
    _clients: Vec<Client>,
    coordinator: Coordinator<PollWaker>,
    entrance: Entrance<io::Repeat>,
}

/// Has all clients connect to a bus whose routers have these polls.
fn gather<R: Net + Files>(rt: &R, alloc: Global, router_polls: &[&Poll]) -> Result<Crowd, Wrong> {
    let poll = Poll::new(rt)?;
    let waker = PollWaker::new(alloc, &poll)?;
    let mut router_wakers = Vec::new(alloc);
    for router_poll in router_polls {
        push(&mut router_wakers, PollWaker::new(alloc, router_poll)?)?;
    }
    let coordinator = Coordinator::new(alloc, router_wakers, waker)?;
    let listener = UnixListener::bind(rt, PATH)?;
    let clients = connect_all(rt, alloc)?;
    Ok(Crowd {
        _clients: clients,
        coordinator,
        entrance: Entrance {
            listener,
            random: io::repeat(7),
            poll,
        },
    })
}

/// Accepts the clients until the chores, which see what waits for routers, end that. Then all
/// connections are gone that wait for none.
fn accept<C: Chores + Drop, R: Wait>(
    rt: &R,
    alloc: Global,
    crowd: Crowd,
    queues: &[NewConnections],
    chores: C,
) -> Result<(), Wrong> {
    let Crowd {
        _clients,
        coordinator,
        entrance,
    } = crowd;
    let mut acceptor = Acceptor::new(alloc, entrance, &coordinator, queues, NoLog, chores)?;
    match acceptor.run(rt) == Err(END) {
        true => Ok(()),
        false => Err(Wrong("accepting doesn't end as its chores want")),
    }
}

/// A turn hands over a share of the clients, and the next turn, which waits for nothing, the rest.
fn accept_all<R: Net + Files + Wait>(
    rt: &R,
    alloc: Global,
    router_poll: &Poll,
    queues: &[NewConnections; 1],
) -> Result<(), Wrong> {
    let crowd = gather(rt, alloc, &[router_poll])?;
    let mut seen = Vec::new(alloc);
    let chores = Watch {
        queue: &queues[0],
        seen: &mut seen,
    };
    accept(rt, alloc, crowd, queues, chores)?;
    match seen.as_slice() == [SHARE, CLIENTS].as_slice() {
        true => Ok(()),
        false => Err(Wrong("a turn hands over more than its share, or less")),
    }
}

/// A turn hands over as many of the clients as there is room for, and each later one what a router
/// took meanwhile, until none is left.
fn accept_slowly<R: Net + Files + Wait>(
    rt: &R,
    alloc: Global,
    queues: &[NewConnections; 2],
) -> Result<(), Wrong> {
    let crowd = gather(rt, alloc, &[&Poll::new(rt)?, &Poll::new(rt)?])?;
    let mut taken = Vec::new(alloc);
    let chores = Taking {
        queue: &queues[1],
        taken: &mut taken,
    };
    accept(rt, alloc, crowd, queues, chores)?;
    match taken.as_slice() == [NARROW; TURNS].as_slice() && queues[0].len(rt) == NARROW {
        true => Ok(()),
        false => Err(Wrong("clients are lost where queues have no room")),
    }
}

/// How many connections the router is told of before it is told of nothing.
fn told<E: Source<ClientSocket>, R: Wait>(rt: &R, source: &mut E) -> Result<usize, Wrong> {
    for count in 0..ROOM {
        match source.next(rt) {
            Some(SourceEvent::Accepted { .. }) => {}
            Some(_other) => return Err(Wrong("a router is told of no connection that came")),
            None => return Ok(count),
        }
    }
    Err(Wrong("a router is told of more connections than came"))
}

/// A turn takes a share of the clients, and the next turn, which waits for nothing, the rest.
fn take_all<E: Source<ClientSocket>, R: Wait>(rt: &R, source: &mut E) -> Result<(), Wrong> {
    if told(rt, source)? != SHARE {
        return Err(Wrong("a turn takes more than its share, or less"));
    }
    if source.wait(Timeout::Never).is_err() {
        return Err(Wrong("a router hears no more of its sockets"));
    }
    match told(rt, source)? == REST {
        true => Ok(()),
        false => Err(Wrong("the next turn doesn't take what is left")),
    }
}

/// Over one router, which has room for all clients.
fn play_wide<R: Net + Files + Wait + Clock>(rt: &R, alloc: Global) -> Result<(), Wrong> {
    let poll = Poll::new(rt)?;
    let queues = [NewConnections::new(alloc, ROOM)?];
    accept_all(rt, alloc, &poll, &queues)?;
    let mut sockets = Sockets::new(rt, alloc, poll, &queues[0], NoLog)?;
    take_all(rt, &mut sockets)
}

/// Over two routers, which have not.
fn play_narrow<R: Net + Files + Wait>(rt: &R, alloc: Global) -> Result<(), Wrong> {
    let queues = [
        NewConnections::new(alloc, NARROW)?,
        NewConnections::new(alloc, NARROW)?,
    ];
    accept_slowly(rt, alloc, &queues)
}

/// Each turn has its share, and what is left over, or finds no room, comes in a later one.
pub(crate) fn many_at_once<R: Net + Files + Wait + Clock + AllocGlobal>(
    rt: &R,
) -> Result<(), Wrong> {
    let _absent = fs::remove_file(rt, PATH);
    let wide = play_wide(rt, rt.alloc());
    let _absent = fs::remove_file(rt, PATH);
    let narrow = play_narrow(rt, rt.alloc());
    let _absent = fs::remove_file(rt, PATH);
    wide?;
    narrow
}
