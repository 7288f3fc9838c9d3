//! A client of a router, and what the router hears of it.

use crate::relays::{ADD_FIRST, CALL};
use router_host::{EndCause, Ended, OpenFault, Socket};
use routers::{Fault, Source, SourceEvent, Timeout};
use std::alloc::{AllocError, Global};
use std::cell::RefCell;
use std::io;
use std::io::{ErrorKind, IoSlice};
use std::rc::Rc;
use std::sync::Wait;
use test_support::messages::HELLO;

/// How many bytes a client takes at most.
const ROOM: usize = 2048;

/// How many turns a router takes in one go, more than a client has pieces.
const TURNS: u32 = 8;

/// What the client of the first router sends.
const FIRST: &[&[u8]] = &[HELLO];

/// What the client of the second router sends: it listens to what becomes of the other, and calls
/// it.
const SECOND: &[&[u8]] = &[HELLO, ADD_FIRST, CALL];

/// The client of a router.
#[derive(Clone, Copy)]
pub enum Client {
    First,
    Second,
}

impl Client {
    /// What it sends, one piece a read.
    fn pieces(self) -> &'static [&'static [u8]] {
        match self {
            Client::First => FIRST,
            Client::Second => SECOND,
        }
    }
}

/// What became of a client.
#[derive(Drop)]
pub struct Fate {
    /// What it was written.
    pub taken: Vec<u8>,
    /// Why its connection is over, if it is.
    pub end: Option<EndCause>,
}

/// The socket of a client, which takes what it is written without memory.
#[derive(Drop)]
pub struct Wire {
    client: Client,
    next: usize,
    fate: Rc<RefCell<Fate>>,
}

impl outgoing::Sink for Wire {
    fn write_parts(&mut self, parts: &[IoSlice<'_>]) -> io::Result<usize> {
        let Some(part) = parts.first() else {
            return Ok(0);
        };
        let bytes: &[u8] = part;
        let Ok(mut fate) = self.fate.try_borrow_mut() else {
            return Err(io::Error::from(ErrorKind::WouldBlock));
        };
        let fate = &mut *fate;
        if bytes.len() > ROOM - fate.taken.len().min(ROOM) {
            return Err(io::Error::from(ErrorKind::BrokenPipe));
        }
        fate.taken.extend_from_slice(bytes)?;
        Ok(bytes.len())
    }
}

impl Socket for Wire {
    fn read(&mut self, room: &mut [u8]) -> io::Result<usize> {
        let Some(piece) = self.client.pieces().get(self.next) else {
            return Err(io::Error::from(ErrorKind::WouldBlock));
        };
        self.next = self.next.saturating_add(1);
        let count = piece.len().min(room.len());
        room[..count].copy_from_slice(&piece[..count]);
        Ok(count)
    }
}

/// What happens to a router: its one client comes, and may be read before each of its turns.
#[derive(Drop)]
pub struct Beats {
    comer: Option<Wire>,
    fate: Rc<RefCell<Fate>>,
    /// How many turns are left.
    left: u32,
    is_told: bool,
}

impl Beats {
    /// A client that is to come, and what becomes of it.
    pub fn new(alloc: Global, client: Client) -> Result<(Beats, Rc<RefCell<Fate>>), AllocError> {
        let fate = Fate {
            taken: Vec::with_capacity(alloc, ROOM)?,
            end: None,
        };
        let fate = Rc::new(alloc, RefCell::new(fate))?;
        let wire = Wire {
            client,
            next: 0,
            fate: Rc::clone(&fate)?,
        };
        let beats = Beats {
            comer: Some(wire),
            fate: Rc::clone(&fate)?,
            left: TURNS,
            is_told: false,
        };
        Ok((beats, fate))
    }

    /// Its connection is over.
    fn end(&mut self, cause: EndCause) {
        if let Ok(mut fate) = self.fate.try_borrow_mut() {
            let fate = &mut *fate;
            fate.end = Some(cause);
        }
    }
}

impl Source<Wire> for Beats {
    ghost use Rattle.std.specs.Prelude.{◌≡◌, None};

    ghost asks = { λ _ challenge. challenge ≡ None };

    fn wait(&mut self, _timeout: Timeout) -> Result<(), Fault> {
        self.is_told = false;
        Ok(())
    }

    fn next<R: Wait>(&mut self, _rt: &R) -> Option<SourceEvent<Wire>> {
        if self.is_told {
            return None;
        }
        self.is_told = true;
        if self.left == 0 {
            self.left = TURNS;
            return Some(SourceEvent::Ended);
        }
        self.left = self.left.saturating_sub(1);
        match self.comer.take() {
            Some(socket) => Some(SourceEvent::Accepted {
                socket,
                challenge: None,
            }),
            None => Some(SourceEvent::Readable {
                key: 0,
                closing: false,
            }),
        }
    }

    fn login_time_passes(&mut self, _is_wanted: bool) -> bool {
        false
    }

    fn watch(&mut self, _key: usize, _socket: &mut Wire) -> bool {
        true
    }

    fn refused(&mut self, fault: OpenFault) {
        if fault == OpenFault::NoMemory {
            self.end(EndCause::NoMemory);
        }
    }

    fn ended(&mut self, ended: Ended) {
        self.end(ended.cause);
    }
}
