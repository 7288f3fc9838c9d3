//! The thread that accepts connections.

use crate::new_connection::{MAX_WAITING, NewConnection, NewConnections};
use crate::waker::PollWaker;
use mio::net::{UnixListener, UnixStream};
use mio::{Events, Interest, Poll, Token};
use routers::{Coordinator, Fault, MainTask, RETRY_AFTER};
use std::alloc::Global;
use std::io;
use std::io::{BufReader, ErrorKind, Read};
use std::sync::Wait;
use std::time::Duration;

/// The token of the listener.
const LISTENER: Token = Token(0);

/// How long is waited before it is looked whether a router has room again, in milliseconds.
const ROOM_AFTER: u64 = 5;

/// Who is told that connections can't be accepted.
pub trait AcceptLog {
    /// The system refused to accept one.
    fn failed(&mut self, error: &io::Error);
}

/// What the thread that accepts does besides.
pub trait Chores {
    /// Does what there is to do. Tells in how many milliseconds it is to be called again though
    /// nobody wakes the thread.
    ///
    /// # Errors
    ///
    /// The bus is to end.
    fn turn<R: Wait>(&mut self, rt: &R) -> Result<Option<u64>, Fault>;
}

/// Where connections come in.
#[derive(Drop)]
pub struct Entrance<F> {
    pub listener: UnixListener,
    /// Random bytes.
    pub random: F,
    /// The poll of the thread that accepts.
    pub poll: Poll,
}

/// How accepting came to its end for now.
#[derive(Clone, Copy, PartialEq, Eq)]
enum Accepted {
    /// No connection waits.
    All,
    /// More may wait.
    More,
    /// None can be now, as where there are too many open files. Nothing tells when that is over.
    Later,
    /// No router has room for one more. It will once it has had its turn.
    NoRoom,
}

/// Accepts connections and hands them to the routers in turn, beside its chores. A router whose
/// places are taken is passed over while others have some, and one whose queue is full until there
/// is room. While no queue has any, connections wait with the system.
#[derive(Drop)]
pub struct Acceptor<'a, F: Read + Drop, L: AcceptLog + Drop, C: Chores + Drop> {
    poll: Poll,
    events: Events,
    listener: UnixListener,
    /// Random bytes, which are read for many challenges at once.
    random: BufReader<F>,
    coordinator: &'a Coordinator<PollWaker>,
    /// By routers.
    new_connections: &'a [NewConnections],
    /// The router whose turn it is.
    next: usize,
    /// How many connections each router was handed.
    handed: Vec<u64>,
    log: L,
    chores: C,
}

impl<'a, F: Read + Drop, L: AcceptLog + Drop, C: Chores + Drop> Acceptor<'a, F, L, C> {
    /// Accepts what comes in there for the routers of the coordinator, whose main waker wakes the
    /// poll.
    ///
    /// # Errors
    ///
    /// The poll can't tell of the listener, or there is no memory for what is noted of routers.
    pub fn new(
        alloc: Global,
        entrance: Entrance<F>,
        coordinator: &'a Coordinator<PollWaker>,
        new_connections: &'a [NewConnections],
        log: L,
        chores: C,
    ) -> io::Result<Acceptor<'a, F, L, C>> {
        let Entrance {
            mut listener,
            random,
            poll,
        } = entrance;
        let events = Events::with_capacity(alloc, 8)?;
        poll.registry()
            .register(&mut listener, LISTENER, Interest::READABLE)?;
        Ok(Acceptor {
            poll,
            events,
            listener,
            random: BufReader::new(alloc, random)?,
            coordinator,
            new_connections,
            next: 0,
            handed: Vec::from_elem(alloc, 0u64, new_connections.len())?,
            log,
            chores,
        })
    }

    /// Accepts what waits, as many as routers take in a turn, and wakes the routers.
    fn accept_some<R: Wait>(&mut self, rt: &R) -> Result<Accepted, Fault> {
        let mut accepted = Accepted::More;
        for _ in 0..self.new_connections.len().saturating_mul(MAX_WAITING) {
            accepted = self.accept_one(rt)?;
            if accepted != Accepted::More {
                break;
            }
        }
        self.coordinator.wake_owed();
        Ok(accepted)
    }

    /// Accepts a connection, if one waits and a router has room for it.
    fn accept_one<R: Wait>(&mut self, rt: &R) -> Result<Accepted, Fault> {
        let Some(router) = self.next_router() else {
            return Ok(Accepted::NoRoom);
        };
        match self.listener.accept() {
            Ok((stream, _address)) => {
                self.hand_over(rt, router, stream)?;
                Ok(Accepted::More)
            }
            Err(error) => Ok(self.accepted_with(&error)),
        }
    }

    /// How it stands where the system accepted none.
    fn accepted_with(&mut self, error: &io::Error) -> Accepted {
        match error.kind() {
            ErrorKind::WouldBlock => Accepted::All,
            ErrorKind::Interrupted | ErrorKind::ConnectionAborted => Accepted::More,
            _ => {
                self.log.failed(error);
                Accepted::Later
            }
        }
    }

    /// Hands a connection to a router, which has room for it: nobody else puts any into its queue.
    fn hand_over<R: Wait>(
        &mut self,
        rt: &R,
        router: usize,
        stream: UnixStream,
    ) -> Result<(), Fault> {
        let mut challenge = [0; 16];
        if self.random.read_exact(&mut challenge).is_err() {
            return Err(Fault::Random);
        }
        if let Some(new_connections) = self.new_connections.get(router) {
            let new = NewConnection { stream, challenge };
            if new_connections.push(rt, new).is_ok() {
                self.count_handed(router);
            }
            self.coordinator.tell_of_connection(router);
        }
        self.next = router.saturating_add(1);
        Ok(())
    }

    /// The router that the next connection goes to: the first with room in its queue, from the one
    /// on whose turn it is, of those that have a place. Where none has a place it is the first of
    /// all, which answers that the bus is full.
    fn next_router(&self) -> Option<usize> {
        let count = self.handed.len();
        let first = if self.next < count { self.next } else { 0 };
        let any_will_do = !self.has_any_place();
        for steps in 0..count {
            let router = (first.saturating_add(steps)) % count.max(1);
            if self.has_room(router) && (any_will_do || self.has_place(router)) {
                return Some(router);
            }
        }
        None
    }

    fn has_any_place(&self) -> bool {
        (0..self.handed.len()).any(|router| self.has_place(router))
    }

    /// Whether the queue of a router has room for one more.
    fn has_room(&self, router: usize) -> bool {
        self.new_connections
            .get(router)
            .is_some_and(|queue| !queue.is_full())
    }

    fn has_place(&self, router: usize) -> bool {
        self.handed
            .get(router)
            .is_some_and(|handed| self.coordinator.has_place(router, *handed))
    }

    fn count_handed(&mut self, router: usize) {
        if let Some(handed) = self.handed.get_mut(router) {
            *handed = handed.saturating_add(1);
        }
    }
}

/// How long is waited at most, if not for ever.
fn wait_of(accepted: Accepted, due: Option<u64>) -> Option<Duration> {
    let due = match (accepted, due) {
        (Accepted::All, due) => due?,
        (Accepted::More, _) => 0,
        (Accepted::Later, due) => due.map_or(RETRY_AFTER, |due| due.min(RETRY_AFTER)),
        (Accepted::NoRoom, due) => due.map_or(ROOM_AFTER, |due| due.min(ROOM_AFTER)),
    };
    Some(Duration::from_millis(due))
}

impl<'a, F: Read + Drop, L: AcceptLog + Drop, C: Chores + Drop> MainTask for Acceptor<'a, F, L, C> {
    fn run<R: Wait>(&mut self, rt: &R) -> Result<(), Fault> {
        let mut timeout = None;
        for _ in rt.forever() {
            if self.poll.poll(&mut self.events, timeout).is_err() {
                return Err(Fault::Poll);
            }
            if self.coordinator.is_over() {
                return Ok(());
            }
            let accepted = self.accept_some(rt)?;
            timeout = wait_of(accepted, self.chores.turn(rt)?);
        }
        unreachable!()
    }
}
