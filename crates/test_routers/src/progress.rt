//! How far a scenario has come, as all its threads see it.

use crate::client::Client;
use crate::scenario::{ClientIndex, ClientMessage, Condition};
use router_host::{Ended, OpenFault};
use routers::Wake;
use std::alloc::{AllocError, Global};
use std::fmt::Write;
use std::rt::Clock;
use std::sync::atomic::{AtomicBool, Ordering};
use std::sync::{Mutex, Wait};
use std::time::Duration;
use std::{fmt, thread};

/// How often a thread looks, once a millisecond, whether what it waits for holds.
pub(crate) const LOOKS: u32 = 20_000;

/// Leaves other threads some time.
pub(crate) fn pause<R: Clock>(rt: &R) {
    thread::sleep(rt, Duration::from_millis(1));
}

/// Tells one thread to look whether something came for it.
#[derive(Drop)]
pub(crate) struct FlagWaker<'a>(&'a AtomicBool);

impl Wake for FlagWaker<'_> {
    fn wake(&self) {
        self.0.store(true, Ordering::SeqCst);
    }
}

/// The connections that are over.
#[derive(Drop)]
struct Endings {
    count: u32,
    /// A line for each: why.
    causes: String,
}

/// How many threads there are at most: one for each router, by its number, and the main thread.
const THREADS: usize = 5;

/// The main thread.
pub(crate) const MAIN: usize = 4;

/// How far a scenario has come, as all its threads see it.
#[derive(Drop)]
pub(crate) struct Progress {
    clients: Vec<Mutex<Client>>,
    endings: Mutex<Endings>,
    /// Which threads were woken.
    woken: [AtomicBool; THREADS],
    /// The lines that all routers recorded.
    trace: Mutex<String>,
    /// Seat 1 waits in its gate.
    pub(crate) is_held: AtomicBool,
    /// Seat 2 was asked for its third call.
    pub(crate) is_free: AtomicBool,
    /// It was not in time.
    pub(crate) is_late: AtomicBool,
}

impl Progress {
    /// The begin of a scenario with clients whose sockets take so many bytes.
    pub(crate) fn new(alloc: Global, rooms: &[usize]) -> Result<Progress, AllocError> {
        let mut clients = Vec::with_capacity(alloc, rooms.len())?;
        for room in rooms {
            clients.push(Mutex::new(Client::new(alloc, *room)))?;
        }
        Ok(Progress {
            clients,
            endings: Mutex::new(Endings {
                count: 0,
                causes: String::new(alloc),
            }),
            woken: [
                AtomicBool::new(false),
                AtomicBool::new(false),
                AtomicBool::new(false),
                AtomicBool::new(false),
                AtomicBool::new(false),
            ],
            trace: Mutex::new(String::new(alloc)),
            is_held: AtomicBool::new(false),
            is_free: AtomicBool::new(false),
            is_late: AtomicBool::new(false),
        })
    }

    fn flag(&self, thread: usize) -> &AtomicBool {
        &self.woken[thread % THREADS]
    }

    /// What wakes a thread.
    pub(crate) fn waker(&self, thread: usize) -> FlagWaker<'_> {
        FlagWaker(self.flag(thread))
    }

    /// Whether a thread was woken.
    pub(crate) fn is_woken(&self, thread: usize) -> bool {
        self.flag(thread).load(Ordering::SeqCst)
    }

    /// A thread looks whether something came for it.
    pub(crate) fn is_up(&self, thread: usize) {
        self.flag(thread).store(false, Ordering::SeqCst);
    }

    pub(crate) fn client(&self, index: ClientIndex) -> Option<&Mutex<Client>> {
        self.clients.get(index)
    }

    /// A client sends something. False where there is no memory for it.
    pub(crate) fn send<R: Wait>(&self, rt: &R, index: ClientIndex, message: ClientMessage) -> bool {
        match self.clients.get(index) {
            Some(client) => client.lock(rt).send(message),
            None => false,
        }
    }

    /// A client sends no more.
    pub(crate) fn hang_up<R: Wait>(&self, rt: &R, index: ClientIndex) {
        if let Some(client) = self.clients.get(index) {
            client.lock(rt).hang_up();
        }
    }

    /// The socket of a client takes all bytes from now on.
    pub(crate) fn take_all<R: Wait>(&self, rt: &R, index: ClientIndex) {
        if let Some(client) = self.clients.get(index) {
            client.lock(rt).take_all();
        }
    }

    /// A connection is over.
    pub(crate) fn note<R: Wait>(&self, rt: &R, ended: Ended) {
        let mut guard = self.endings.lock(rt);
        let endings = &mut *guard;
        endings.count = endings.count.saturating_add(1);
        let _short = writeln!(endings.causes, "over: {}", ended.cause);
    }

    /// A connection is not served.
    pub(crate) fn note_refused<R: Wait>(&self, rt: &R, fault: OpenFault) {
        let mut guard = self.endings.lock(rt);
        let endings = &mut *guard;
        let _short = writeln!(endings.causes, "refused: {fault}");
    }

    /// Lines of a router are kept behind the others. False where there is no memory for them.
    pub(crate) fn keep<R: Wait>(&self, rt: &R, lines: &str) -> bool {
        self.trace.lock(rt).push_str(lines).is_ok()
    }

    /// The lines that all routers recorded.
    pub(crate) fn trace<R: Wait>(&self, rt: &R) -> Result<String, AllocError> {
        self.trace.lock(rt).clone()
    }

    /// Whether this holds, for a thread.
    pub(crate) fn holds<R: Wait>(&self, rt: &R, thread: usize, condition: Condition) -> bool {
        match condition {
            Condition::Received(index, count) => match self.clients.get(index) {
                Some(client) => client.lock(rt).count() >= count,
                None => false,
            },
            Condition::IsBlocked(index) => match self.clients.get(index) {
                Some(client) => client.lock(rt).is_blocked(),
                None => false,
            },
            Condition::Over(count) => self.endings.lock(rt).count >= count,
            Condition::IsHeld => self.is_held.load(Ordering::SeqCst),
            Condition::IsWoken => self.is_woken(thread),
        }
    }

    /// What each client received, and why connections are over.
    pub(crate) fn tell<R: Wait>(&self, rt: &R, told: &mut String) -> Result<(), AllocError> {
        for (index, client) in self.clients.iter().enumerate() {
            writeln!(told, "client {index}")?;
            told.push_str(client.lock(rt).received())?;
        }
        told.push_str(self.endings.lock(rt).causes.as_str())?;
        match self.is_late.load(Ordering::SeqCst) {
            true => writeln!(told, "a call was held too long"),
            false => Ok(()),
        }
    }
}
