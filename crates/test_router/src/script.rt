//! Sockets in memory.

use router_host::Socket;
use std::alloc::Global;
use std::cell::RefCell;
use std::io;
use std::io::{ErrorKind, IoSlice, Write};
use std::rc::Rc;

/// What becomes of bytes that a wire has no room for.
#[derive(Clone, Copy, PartialEq)]
pub enum Beyond {
    /// They wait.
    Waits,
    /// They can't be written, since the client hung up.
    HungUp,
    /// They can't be written.
    Fails,
}

/// What lies between a client and the socket that the bus has of it.
#[derive(Drop)]
pub struct Wire {
    /// What the client sent and the bus has not read.
    pub sent: Vec<u8>,
    /// The client sends no more.
    pub ends: bool,
    /// The socket can't be read any more.
    pub breaks: bool,
    /// What the bus wrote and the client has not looked at.
    pub written: Vec<u8>,
    /// How many bytes the client takes.
    pub room: usize,
    /// What becomes of more.
    pub beyond: Beyond,
}

impl Wire {
    /// A wire that takes all bytes.
    pub fn new(alloc: Global) -> Wire {
        Wire {
            sent: Vec::new(alloc),
            ends: false,
            breaks: false,
            written: Vec::new(alloc),
            room: usize::MAX,
            beyond: Beyond::Waits,
        }
    }
}

/// The socket of a connection.
#[derive(Drop)]
pub struct Script {
    wire: Rc<RefCell<Wire>>,
}

impl Script {
    pub fn new(wire: Rc<RefCell<Wire>>) -> Script {
        Script { wire }
    }
}

impl Write for Script {
    fn write(&mut self, bytes: &[u8]) -> io::Result<usize> {
        let Ok(mut wire) = self.wire.try_borrow_mut() else {
            return Err(io::Error::from(ErrorKind::WouldBlock));
        };
        let wire = &mut *wire;
        if wire.room == 0 {
            return Err(io::Error::from(match wire.beyond {
                Beyond::Waits => ErrorKind::WouldBlock,
                Beyond::HungUp => ErrorKind::BrokenPipe,
                Beyond::Fails => ErrorKind::TimedOut,
            }));
        }
        let count = bytes.len().min(wire.room);
        wire.written.extend_from_slice(&bytes[..count])?;
        wire.room = wire.room.saturating_sub(count);
        Ok(count)
    }

    fn flush(&mut self) -> io::Result<()> {
        Ok(())
    }
}

impl outgoing::Sink for Script {
    fn write_parts(&mut self, parts: &[IoSlice<'_>]) -> io::Result<usize> {
        self.write_vectored(parts)
    }
}

impl Socket for Script {
    fn read(&mut self, room: &mut [u8]) -> io::Result<usize> {
        let Ok(mut wire) = self.wire.try_borrow_mut() else {
            return Err(io::Error::from(ErrorKind::WouldBlock));
        };
        let wire = &mut *wire;
        if wire.breaks {
            return Err(io::Error::from(ErrorKind::TimedOut));
        }
        let count = wire.sent.len().min(room.len());
        let has_hung_up = wire.beyond == Beyond::HungUp && wire.room == 0;
        if count == 0 && !wire.ends && !has_hung_up {
            return Err(io::Error::from(ErrorKind::WouldBlock));
        }
        room[..count].copy_from_slice(&wire.sent[..count]);
        wire.sent.drain(..count);
        Ok(count)
    }
}
