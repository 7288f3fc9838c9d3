//! What is on its way.

ghost use Rattle.std.specs.Prelude.{◌≡◌, IfOk};

use crate::bus_message::BusMessage;
use seq_bus_core::SharedBytes;
use std::alloc::AllocError;

/// A message on its way to a connection.
#[derive(Debug)]
pub enum Content {
    /// A message of a connection, as it is written.
    Relayed(SharedBytes),
    /// A message of the bus itself.
    Own(BusMessage),
}

impl Drop for Content {
    fn drop(self) {
        match self {
            Content::Relayed(bytes) => drop(bytes),
            Content::Own(message) => drop(message),
        }
    }
}

impl Content {
    /// The same once more. No bytes are copied; it fails where too many share them already.
    pub fn try_clone(&self) -> Result<Content, AllocError>
        ensures { IfOk result (λ content. content ≡ self.now) }
    {
        match self {
            Content::Relayed(bytes) => {
                let bytes = bytes.try_clone()?;
                Ok(Content::Relayed(bytes))
            }
            Content::Own(message) => {
                let message = message.try_clone()?;
                Ok(Content::Own(message))
            }
        }
    }
}
