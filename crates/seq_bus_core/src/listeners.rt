//! Who gets a signal of the bus, or is shown it.

ghost use Rattle.std.specs.Prelude.{◌≡◌, IfOk, []};

use crate::Conn;
use std::alloc::{AllocError, Global};
use std::marker::Model;

/// Connections that a signal of the bus goes to, or that are shown it. They take room for as many
/// as they are.
#[derive(Debug, Drop)]
pub struct Listeners {
    connections: Vec<Conn>,
}

impl Model for Listeners {
    ghost use Rattle.std.specs.Prelude.{List};
    ghost use Rattle.seq_bus_core.specs.declared.connection.Conn.{Conn};

    ghost Value = { List Conn };

    ghost view = { λ a. a.connections.items };
}

impl Listeners {
    /// These connections, in their order. It takes memory, but for none of them.
    pub fn of(alloc: Global, connections: &[Conn]) -> Result<Listeners, AllocError>
        ensures { IfOk result (λ listeners. listeners ≡ connections.now) }
    {
        let connections = Vec::from_slice(alloc, connections)?;
        Ok(Listeners { connections })
    }

    /// The connections, in order.
    pub fn as_slice(&self) -> &[Conn]
        ensures { result.now ≡ self.now }
    {
        self.connections.as_slice()
    }
}
