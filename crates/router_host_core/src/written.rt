//! Bytes on their way to a socket.

ghost use Rattle.std.specs.Prelude.{◌≡◌};

use outgoing::Chunk;
use router_core::WrittenBytes;

/// What an engine writes, as it waits for a socket. Shared bytes stay shared.
#[derive(Debug, Drop)]
pub struct Written(pub WrittenBytes);

impl Chunk for Written {
    ghost bytes = { λ written. written.0 };

    fn as_slice(&self) -> &[u8] {
        self.0.as_slice()
    }
}
