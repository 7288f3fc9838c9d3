//! Bytes that are written to a connection.

ghost use Rattle.std.specs.Prelude.{◌≡◌};

use seq_bus_core::SharedBytes;
use std::marker::Model;

/// The bytes that are written to a connection. Those of a message that others get too are shared
/// with them, and not copied.
#[derive(Debug, Drop)]
pub struct WrittenBytes {
    held: Held,
}

#[derive(Debug, Drop)]
enum Held {
    Own(Vec<u8>),
    Shared(SharedBytes),
}

impl Model for WrittenBytes {
    ghost use Rattle.std.specs.Prelude.{List, ℕ};
    ghost use Rattle.router_core.specs.Written.{bytes_held};

    ghost Value = { List ℕ };

    ghost view = { λ w. bytes_held w.held };
}

impl WrittenBytes {
    /// Bytes that nobody else gets.
    pub fn own(bytes: Vec<u8>) -> Self
        ensures { result ≡ bytes.items }
    {
        WrittenBytes {
            held: Held::Own(bytes),
        }
    }

    /// Bytes that others may get too.
    pub fn shared(bytes: SharedBytes) -> Self
        ensures { result ≡ bytes }
    {
        WrittenBytes {
            held: Held::Shared(bytes),
        }
    }

    /// The bytes themselves.
    pub fn as_slice(&self) -> &[u8]
        ensures { result.now ≡ self.now }
    {
        match &self.held {
            Held::Own(bytes) => bytes.as_slice(),
            Held::Shared(bytes) => bytes.as_slice(),
        }
    }
}
