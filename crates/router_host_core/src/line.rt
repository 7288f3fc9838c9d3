//! A connection.

ghost use Rattle.std.specs.Prelude.{◌≡◌, [], ℕ, List, Option, false, true};
ghost use Rattle.router_host_core.specs.Carrying.{IsWritten};
ghost use Rattle.router_host_core.specs.Sockets.{IsFlushed, IsPulled, IsReadToEnd};
ghost use Rattle.router_host_core.specs.States.{new_line, ended_by};

use crate::ending::EndCause;
use crate::socket::Socket;
use crate::written::Written;
use outgoing::{Flushed, Outgoing};
use router_core::WrittenBytes;
use std::alloc::Global;
use std::io::ErrorKind;
use std::marker::Model;

/// Where so many bytes wait for the socket, no more mail is taken.
const ENOUGH: usize = 262_144;

/// A connection: its socket, and what is to be done for it.
#[derive(Drop)]
pub(crate) struct Line<S: Socket> {
    alloc: Global,
    socket: S,
    out: Outgoing<Written>,
    /// How many bytes wait at most.
    waiting: usize,
    /// Its slot, once mail was looked for there.
    slot: Option<u16>,
    /// There may be something to be read.
    readable: bool,
    /// The other side sends no more.
    closing: bool,
    /// The socket took no more bytes.
    blocked: bool,
    /// It is not served while bytes wait.
    held: bool,
    /// Bytes of it are lost.
    broken: bool,
    ended: Option<EndCause>,
    /// It is among those to be served.
    listed: bool,
    /// It is among those to be flushed.
    dirty: bool,
    /// A login time has passed since it came.
    aged: bool,
}

impl<S: Socket> Model for Line<S> {
    ghost use Rattle.router_host_core.specs.States.{LineState};

    ghost Value = { LineState };

    ghost view = { λ l. record {
      left = S.remaining l.socket;
      taken = S.taken l.socket;
      waits = l.out;
      blocked = l.blocked;
      broken = l.broken;
      ended = l.ended;
    } };
}

/// Why a connection is over whose socket can't be read.
fn end_by(kind: ErrorKind) -> EndCause
    ensures { (left : Option (List ℕ)) → IsReadToEnd left result }
{
    match kind {
        ErrorKind::BrokenPipe | ErrorKind::ConnectionReset => EndCause::HungUp,
        _ => EndCause::Unreadable,
    }
}

/// What a read came to.
pub enum Pulled {
    /// So many bytes stand in the room.
    Bytes(usize),
    /// There is nothing to be read now.
    Nothing,
    /// The connection is over.
    Over(EndCause),
}

impl<S: Socket> Line<S> {
    /// A connection that came, of which there may be something to be read. It is among those to be
    /// served.
    pub(crate) fn new(alloc: Global, socket: S) -> Line<S>
        ensures { result ≡ new_line (S.remaining socket) (S.taken socket) }
    {
        Line {
            alloc,
            socket,
            out: Outgoing::new(alloc),
            waiting: 0,
            slot: None,
            readable: true,
            closing: false,
            blocked: false,
            held: false,
            broken: false,
            ended: None,
            listed: true,
            dirty: false,
            aged: false,
        }
    }

    pub(crate) fn socket(&self) -> &S {
        &self.socket
    }

    /// Its slot, once it is known.
    pub(crate) fn slot(&self) -> Option<u16> {
        self.slot
    }

    pub(crate) fn know_slot(&mut self, slot: u16)
        ensures { self.new ≡ self.old }
    {
        self.slot = Some(slot);
    }

    /// It is to be served. Tells whether it was not noted among those yet.
    pub(crate) fn mark_listed(&mut self) -> bool
        ensures { self.new ≡ self.old }
    {
        !std::mem::replace(&mut self.listed, true)
    }

    /// It is to be flushed. Tells whether it was not noted among those yet.
    pub(crate) fn mark_dirty(&mut self) -> bool
        ensures { self.new ≡ self.old }
    {
        !std::mem::replace(&mut self.dirty, true)
    }

    /// A login time passes. Tells whether one did before, since the connection came.
    pub(crate) fn age(&mut self) -> bool
        ensures { self.new ≡ self.old }
    {
        std::mem::replace(&mut self.aged, true)
    }

    /// The socket may be read, to its end where the other side sends no more.
    pub(crate) fn note_readable(&mut self, closing: bool)
        ensures { self.new ≡ self.old }
    {
        self.readable = true;
        if closing {
            self.closing = true;
        }
    }

    /// It is looked at, and no longer among those to be served. Tells whether it is to be served:
    /// it is not over, and where it has no name yet, nothing waits for its socket.
    pub(crate) fn begin(&mut self, named: bool) -> bool
        ensures same { self.new ≡ self.old }
        ensures drained { result ≡ true → named ≡ false → self.old.waits ≡ [] }
    {
        self.listed = false;
        self.held = !named && !self.out.is_empty();
        !self.held && self.ended.is_none()
    }

    /// Whether it is to be served though nobody told so: it was not because bytes waited, and they
    /// may be gone, or the other side hung up, and what it sent before is to be read.
    pub(crate) fn is_released(&self) -> bool {
        self.held && !self.blocked || self.broken && self.is_readable()
    }

    /// Whether its socket took no more bytes.
    pub(crate) fn is_blocked(&self) -> bool
        ensures { result ≡ self.now.blocked }
    {
        self.blocked
    }

    /// Its socket takes bytes again.
    pub(crate) fn unblock(&mut self)
        ensures { self.new ≡ record self.old { blocked = false } }
    {
        self.blocked = false;
    }

    /// Whether enough bytes wait for its socket.
    pub(crate) fn has_enough(&self) -> bool {
        self.waiting > ENOUGH
    }

    /// Whether there may be something to be read.
    pub(crate) fn is_readable(&self) -> bool {
        self.readable && self.ended.is_none()
    }

    /// Why it is over, if it is.
    pub(crate) fn ended(&self) -> Option<EndCause>
        ensures { result ≡ self.now.ended }
    {
        self.ended
    }

    /// Reads once, where there may be something.
    pub(crate) fn pull(&mut self, room: &mut [u8]) -> Pulled
        ensures { IsPulled self.old result room.new self.new }
    {
        if !self.readable || room.is_empty() {
            return Pulled::Nothing;
        }
        match self.socket.read(room) {
            Ok(0) => Pulled::Over(EndCause::EndOfInput),
            Ok(count) => {
                self.readable = count >= room.len() || self.closing;
                Pulled::Bytes(count)
            }
            Err(error) => match error.kind() {
                ErrorKind::WouldBlock => {
                    self.readable = false;
                    Pulled::Nothing
                }
                ErrorKind::Interrupted => Pulled::Nothing,
                kind => Pulled::Over(end_by(kind)),
            },
        }
    }

    /// Writes bytes behind those that wait. Where there is no memory for them it is over, and takes
    /// no more.
    pub(crate) fn write(&mut self, bytes: WrittenBytes)
        ensures { IsWritten self.old bytes self.new }
    {
        if self.broken {
            return;
        }
        let count = bytes.as_slice().len();
        match self.out.push(Written(bytes)) {
            Ok(()) => self.waiting = self.waiting.saturating_add(count),
            Err(_refused) => {
                self.broken = true;
                self.end(EndCause::NoMemory);
            }
        }
    }

    /// It is over. The first cause is kept.
    pub(crate) fn end(&mut self, cause: EndCause)
        ensures { self.new ≡ ended_by cause self.old }
    {
        if self.ended.is_none() {
            self.ended = Some(cause);
        }
    }

    /// Gives the socket as much as it takes.
    pub(crate) fn flush(&mut self)
        ensures { IsFlushed self.old self.new }
    {
        self.dirty = false;
        match self.out.flush(&mut self.socket) {
            Ok(Flushed::All) => self.waiting = 0,
            Ok(Flushed::Waits) => self.blocked = true,
            Err(error) => match error.kind() {
                ErrorKind::BrokenPipe | ErrorKind::ConnectionReset => self.lose(),
                _ => {
                    self.broken = true;
                    self.end(EndCause::Unwritable);
                }
            },
        }
    }

    /// The other side hung up: what waits is lost, and what it sent before is read to its end.
    fn lose(&mut self)
        ensures { self.new ≡ record self.old { waits = []; blocked = false; broken = true } }
    {
        self.out = Outgoing::new(self.alloc);
        self.waiting = 0;
        self.blocked = false;
        self.broken = true;
        self.note_readable(true);
    }
}
