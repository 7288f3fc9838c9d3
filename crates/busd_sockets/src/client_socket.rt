//! The socket of a connection.

ghost use Rattle.std.specs.Prelude.{◌≡◌};

use mio::net::UnixStream;
use router_host::Socket;
use std::io;
use std::io::{IoSlice, Read};

/// The socket of a connection to a client.
#[derive(Drop)]
pub struct ClientSocket {
    pub(crate) stream: UnixStream,
}

impl outgoing::Sink for ClientSocket {
    fn write_parts(&mut self, parts: &[IoSlice<'_>]) -> io::Result<usize> {
        self.stream.write_vectored(parts)
    }
}

impl Socket for ClientSocket {
    fn read(&mut self, room: &mut [u8]) -> io::Result<usize> {
        self.stream.read(room)
    }
}
