//! A client of the bus.

use std::alloc::{AllocError, Global};
use std::io;
use std::io::{ErrorKind, Read, Write};
use std::net::Net;
use std::os::unix::net::UnixStream;
use std::time::Duration;
use test_support::messages::HELLO;

/// How long an answer is waited for at most, in seconds.
const PATIENCE: u64 = 20;

/// No message of the bus is longer here, and no line.
const LONGEST: usize = 4096;

/// What went otherwise than it should.
#[derive(Clone, Copy, Debug)]
pub(crate) struct Wrong(pub(crate) &'static str);

impl From<io::Error> for Wrong {
    fn from(_error: io::Error) -> Wrong {
        Wrong("a socket or a file fails, or an answer does not come")
    }
}

impl From<AllocError> for Wrong {
    fn from(_error: AllocError) -> Wrong {
        Wrong("there is no memory")
    }
}

/// A client's end of a connection.
#[derive(Drop)]
pub(crate) struct Client {
    stream: UnixStream,
}

impl Client {
    pub(crate) fn connect<R: Net>(rt: &R, path: &str) -> Result<Client, Wrong> {
        let stream = UnixStream::connect(rt, path)?;
        stream.set_read_timeout(Some(Duration::from_secs(PATIENCE)))?;
        stream.set_write_timeout(Some(Duration::from_secs(PATIENCE)))?;
        Ok(Client { stream })
    }

    pub(crate) fn send(&mut self, bytes: &[u8]) -> Result<(), Wrong> {
        Ok(self.stream.write_all(bytes)?)
    }

    /// The next line, without its end.
    pub(crate) fn next_line(&mut self, alloc: Global) -> Result<Vec<u8>, Wrong> {
        let mut line = Vec::new(alloc);
        for _ in 0..LONGEST {
            let mut byte = [0u8; 1];
            self.stream.read_exact(&mut byte)?;
            match byte[0] {
                b'\r' => {}
                b'\n' => return Ok(line),
                other => push(&mut line, other)?,
            }
        }
        Err(Wrong("a line has no end"))
    }

    /// The next message, little-endian.
    pub(crate) fn next_message(&mut self, alloc: Global) -> Result<Vec<u8>, Wrong> {
        let mut head = [0u8; 16];
        self.stream.read_exact(&mut head)?;
        let body = u32::from_le_bytes([head[4], head[5], head[6], head[7]]) as usize;
        let fields = u32::from_le_bytes([head[12], head[13], head[14], head[15]]) as usize;
        if body > LONGEST || fields > LONGEST {
            return Err(Wrong("a message is too long"));
        }
        let mut rest = Vec::from_elem(alloc, 0u8, fields.next_multiple_of(8) + body)?;
        self.stream.read_exact(rest.as_mut_slice())?;
        let mut message = Vec::from_slice(alloc, &head)?;
        message.extend_from_slice(rest.as_slice())?;
        Ok(message)
    }

    /// Whether the bus closed the connection, and sent nothing more.
    pub(crate) fn is_over(&mut self) -> bool {
        match self.stream.read(&mut [0u8; 1]) {
            Ok(count) => count == 0,
            Err(error) => error.kind() == ErrorKind::ConnectionReset,
        }
    }

    /// Is let in without saying who it is.
    pub(crate) fn authenticate(&mut self, alloc: Global) -> Result<(), Wrong> {
        self.send(b"\0AUTH ANONYMOUS\r\n")?;
        match self.next_line(alloc)?.as_slice().starts_with(b"OK ") {
            true => Ok(()),
            false => Err(Wrong("an anonymous client isn't let in")),
        }
    }

    /// Says Hello, and tells the reply. What the bus sends first then, NameAcquired, is read too.
    pub(crate) fn hello(&mut self, alloc: Global) -> Result<Vec<u8>, Wrong> {
        self.send(b"BEGIN\r\n")?;
        self.send(HELLO)?;
        let reply = self.next_message(alloc)?;
        let _acquired = self.next_message(alloc)?;
        Ok(reply)
    }
}

/// Adds an item, or lets go of it where there is no memory for it.
pub(crate) fn push<T: Drop>(items: &mut Vec<T>, item: T) -> Result<(), AllocError> {
    Ok(items.push(item)?)
}

/// Whether bytes have this part.
pub(crate) fn has(bytes: &[u8], part: &[u8]) -> bool {
    (0..bytes.len()).any(|at| bytes.get(at..).unwrap_or(b"").starts_with(part))
}
