//! A host, and connections to it whose other sides follow a script.

ghost use Rattle.std.specs.Prelude.{◌≡◌, IfOk};

use crate::authentication::{CHALLENGE, CONVERSATION, SENT};
use crate::engine::engine_over;
use crate::relays::are_all;
use bus_view::{BusView, can_open};
use owner_queues::Profile;
use router_core::OpenGate;
use router_host::{Host, OpenFault, Post, Socket};
use seq_bus::SeqBus;
use std::alloc::{AllocError, Global};
use std::io;
use std::io::{ErrorKind, IoSlice};
use test_post::LocalPost;
use test_support::messages::{ACQUIRED, GET_NAME_OWNER, HELLO, OWNER, WELCOME};

/// How many bytes a socket takes at most.
const ROOM: usize = 2048;

/// A socket whose other side sends these pieces, one a read, and takes what is written without
/// memory. An empty piece is the end of what it sends.
#[derive(Drop)]
pub struct Script {
    pieces: &'static [&'static [u8]],
    next: usize,
    /// How often it takes nothing yet.
    blocks: u32,
    pub taken: Vec<u8>,
}

impl Script {
    fn new(alloc: Global, comer: &Comer) -> Result<Script, AllocError> {
        Ok(Script {
            pieces: comer.pieces,
            next: 0,
            blocks: comer.blocks,
            taken: Vec::with_capacity(alloc, ROOM)?,
        })
    }
}

impl outgoing::Sink for Script {
    fn write_parts(&mut self, parts: &[IoSlice<'_>]) -> io::Result<usize> {
        let Some(part) = parts.first() else {
            return Ok(0);
        };
        if self.blocks > 0 {
            self.blocks = self.blocks.saturating_sub(1);
            return Err(io::Error::from(ErrorKind::WouldBlock));
        }
        let bytes: &[u8] = part;
        if bytes.len() > ROOM - self.taken.len().min(ROOM) {
            return Err(io::Error::from(ErrorKind::BrokenPipe));
        }
        self.taken.extend_from_slice(bytes)?;
        Ok(bytes.len())
    }
}

impl Socket for Script {
    fn read(&mut self, room: &mut [u8]) -> io::Result<usize> {
        let Some(piece) = self.pieces.get(self.next) else {
            return Err(io::Error::from(ErrorKind::WouldBlock));
        };
        self.next = self.next.saturating_add(1);
        let count = piece.len().min(room.len());
        room[..count].copy_from_slice(&piece[..count]);
        Ok(count)
    }
}

/// A client that comes to a host.
#[derive(Clone, Copy)]
pub struct Comer {
    /// What it sends.
    pub pieces: &'static [&'static [u8]],
    /// How often its socket takes nothing at first.
    pub blocks: u32,
    /// What it is asked, where it is to say who it is.
    pub challenge: Option<[u8; 16]>,
}

pub type ScriptedHost = Host<SeqBus, OpenGate, LocalPost, Script>;

/// A host of a bus without services.
pub fn open_host(alloc: Global) -> Result<ScriptedHost, AllocError> {
    if !can_open(&[], 1) {
        return Err(AllocError);
    }
    let bus = SeqBus::new(alloc, &[], 1, Profile::Two);
    host_over(alloc, LocalPost::new(alloc), bus)
}

/// A host of a view, which asks who logs in.
fn host_over<V: BusView + Drop, P: Post<V>>(
    alloc: Global,
    post: Result<P, AllocError>,
    view: Result<V, AllocError>,
) -> Result<Host<V, OpenGate, P, Script>, AllocError>
    requires { IfOk post (λ post. IfOk view (λ view. P.registry post ≡ (V.knows view).registry)) }
{
    let post = post?;
    let engine = engine_over(alloc, view?)?;
    Host::new(alloc, engine, post, 0, 256)
}

/// A client that is asked nothing, and whose socket takes all.
pub fn plain(pieces: &'static [&'static [u8]]) -> Comer {
    Comer {
        pieces,
        blocks: 0,
        challenge: None,
    }
}

/// Opens a connection, once more where there was no memory.
pub fn open(host: &mut ScriptedHost, alloc: Global, comer: &Comer) -> Result<usize, AllocError> {
    let challenge = comer.challenge;
    match host.open(&(), Script::new(alloc, comer)?, challenge) {
        Ok(key) => Ok(key),
        Err(OpenFault::NoMemory) => {
            match host.open(&(), Script::new(alloc, comer)?, challenge) {
                Ok(key) => Ok(key),
                Err(_) => Err(AllocError),
            }
        }
        Err(_) => Err(AllocError),
    }
}

/// Takes turns, of which one may find no memory, until all is served.
fn serve(host: &mut ScriptedHost, key: usize) {
    for _turn in 0..8 {
        host.readable(key, false);
        host.writable(key);
        let _refused = host.turn(&());
    }
}

/// Whether a client without a fault got what it is owed.
fn is_served(host: &ScriptedHost, key: usize, owed: &[&[u8]]) -> bool {
    match host.socket(key) {
        Some(socket) => are_all(socket.taken.as_slice(), owed),
        None => false,
    }
}

/// Serves a client, and then another: whether the first got what it is owed, and the second too.
fn serve_both(
    host: &mut ScriptedHost,
    alloc: Global,
    comer: &Comer,
    owed: &[&[u8]],
) -> Result<(bool, bool), AllocError> {
    let first = open(host, alloc, comer)?;
    serve(host, first);
    let is_first_served = is_served(host, first, owed);
    let second = open(host, alloc, &plain(&[HELLO]))?;
    serve(host, second);
    let Some(socket) = host.socket(second) else {
        return Ok((is_first_served, false));
    };
    // The reply to Hello, whatever number it tells.
    let is_second_served = socket.taken.starts_with(&WELCOME[..5]);
    Ok((is_first_served, is_second_served))
}

/// Opens a host that serves both.
fn both_served(alloc: Global, comer: &Comer, owed: &[&[u8]]) -> Result<(bool, bool), AllocError> {
    let mut host = open_host(alloc)?;
    let served = serve_both(&mut host, alloc, comer, owed);
    drop(host);
    served
}

/// Whether a host serves two clients as it should: where memory is refused while it serves one,
/// that one may be told so, and the other is served; and a host that is opened then serves both.
fn are_both_served(alloc: Global, comer: &Comer, owed: &[&[u8]]) -> bool {
    match both_served(alloc, comer, owed) {
        Ok((true, true)) => true,
        Ok((false, false)) => false,
        Ok(_) | Err(AllocError) => both_served(alloc, comer, owed) == Ok((true, true)),
    }
}

/// What a client sends that calls the bus, and what it is owed.
const CALLS: &[&[u8]] = &[HELLO, GET_NAME_OWNER];

const OWED: &[&[u8]] = &[WELCOME, ACQUIRED, OWNER];

/// Whether clients are served whose sockets take all.
pub fn are_served(alloc: Global) -> bool {
    are_both_served(alloc, &plain(CALLS), OWED)
}

/// The same, where nothing can be written to the first for a while.
pub fn are_served_late(alloc: Global) -> bool {
    let comer = Comer {
        pieces: CALLS,
        blocks: 3,
        challenge: None,
    };
    are_both_served(alloc, &comer, OWED)
}

/// The same, where the first is to say who it is.
pub fn are_let_in(alloc: Global) -> bool {
    let comer = Comer {
        pieces: &CONVERSATION,
        blocks: 0,
        challenge: Some(CHALLENGE),
    };
    are_both_served(alloc, &comer, &[SENT, WELCOME, ACQUIRED])
}

/// What a client sends that says Hello and hangs up.
const GOES: &[&[u8]] = &[HELLO, b""];

/// How many connections a host tells to be gone, once it has served a client that goes.
fn gone_after(host: &mut ScriptedHost, alloc: Global) -> Result<u64, AllocError> {
    let key = open(host, alloc, &plain(GOES))?;
    serve(host, key);
    Ok(host.take_gone())
}

/// Opens a host that serves a client that goes.
fn gone_of_one(alloc: Global) -> Result<u64, AllocError> {
    let mut host = open_host(alloc)?;
    let gone = gone_after(&mut host, alloc);
    drop(host);
    gone
}

/// Whether a host tells of a client that goes, once, though there may be no memory to note why.
pub fn is_told_gone(alloc: Global) -> bool {
    match gone_of_one(alloc) {
        Ok(count) => count == 1,
        Err(AllocError) => gone_of_one(alloc) == Ok(1),
    }
}
