//! Clients in memory.

use router_host::Socket;
use std::io;
use std::io::{ErrorKind, IoSlice};

/// The other side of a connection: whenever it is read it sends the next of its messages, and once
/// there is none the last of them again. It takes all that it is written, a part
/// at a time.
#[derive(Drop)]
pub struct Client {
    messages: Vec<Vec<u8>>,
    /// The place of the message that is sent next.
    next: usize,
    /// How many bytes it was written.
    pub taken: u64,
}

impl Client {
    pub fn new(messages: Vec<Vec<u8>>) -> Client {
        Client {
            messages,
            next: 0,
            taken: 0,
        }
    }
}

impl Socket for Client {
    fn read(&mut self, room: &mut [u8]) -> io::Result<usize> {
        let Some(message) = self.messages.get(self.next) else {
            return Err(io::Error::from(ErrorKind::WouldBlock));
        };
        if message.len() > room.len() {
            return Err(io::Error::from(ErrorKind::InvalidInput));
        }
        room[..message.len()].copy_from_slice(message.as_slice());
        if self.next.saturating_add(1) < self.messages.len() {
            self.next = self.next.saturating_add(1);
        }
        Ok(message.len())
    }
}

impl outgoing::Sink for Client {
    fn write_parts(&mut self, parts: &[IoSlice<'_>]) -> io::Result<usize> {
        let Some(part) = parts.first() else {
            return Ok(0);
        };
        let bytes: &[u8] = part;
        self.taken = self.taken.saturating_add(bytes.len() as u64);
        Ok(bytes.len())
    }
}
