//! Who gets what is put.

ghost use Rattle.std.specs.Prelude.{◌≡◌};
ghost use Rattle.seq_bus_core.specs.Steps.{is_among};
ghost use Rattle.outbox_core.specs.Deliveries.{deliveries_of};

use seq_bus_core::Conn;
use std::marker::Model;

/// Those that get one message, in order, each once: the monitors that are shown it and are none of
/// its recipients, and then these ("Message Bus Message Routing" of the D-Bus Specification). So a
/// monitor is put a call before anybody can answer it. It takes no memory.
///
/// Contracts see the list of those that are left.
#[derive(Drop)]
pub struct Deliveries<'a> {
    to: &'a [Conn],
    monitors: &'a [Conn],
}

impl<'a> Model for Deliveries<'a> {
    ghost use Rattle.std.specs.Prelude.{List};
    ghost use Rattle.seq_bus_core.specs.declared.connection.Conn.{Conn};
    ghost use Rattle.outbox_core.specs.Deliveries.{deliveries_of};

    ghost Value = { List Conn };

    ghost view = { λ d. deliveries_of d.to.now d.monitors.now };
}

fn is_among(conns: &[Conn], conn: Conn) -> bool
    ensures { result ≡ is_among conns.now conn }
{
    conns.iter().any(|other| other.number == conn.number)
}

impl<'a> Deliveries<'a> {
    /// A message goes to these, and these monitors are shown it.
    pub fn new(to: &'a [Conn], monitors: &'a [Conn]) -> Self
        ensures { result ≡ deliveries_of to.now monitors.now }
    {
        Deliveries { to, monitors }
    }
}

impl<'a> Iterator for Deliveries<'a> {
    ghost use Rattle.std.specs.Iterator.{YieldsFirst, item_count};

    type Item = Conn;

    ghost next_gives = { YieldsFirst (λ d. d) };

    ghost remaining = { item_count (λ d. d) };

    fn next(&mut self) -> Option<Conn> {
        while let Some((first, rest)) = self.monitors.split_first() {
            self.monitors = rest;
            if !is_among(self.to, *first) {
                return Some(*first);
            }
        }
        let (first, rest) = self.to.split_first()?;
        self.to = rest;
        Some(*first)
    }
}
