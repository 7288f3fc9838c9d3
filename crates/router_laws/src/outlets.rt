//! The bytes that go to each connection.

ghost use Rattle.std.specs.Prelude.{◌≡◌, ◌++◌, map, OnOk, IfOk};
ghost use Rattle.router_core.specs.OneThread.{bytes_if, opening_of};
ghost use Rattle.router_laws.specs.Outputs.{Adds, bytes_by, bytes_by_all, output_at, no_output};
ghost use Rattle.router_laws.specs.Runs.{happening};

use router_core::{Action, Event};
use std::alloc::{AllocError, Global};
use std::marker::Model;

/// The bytes that went to one connection.
#[derive(Drop)]
struct Outlet {
    key: usize,
    bytes: Vec<u8>,
}

impl Outlet {
    /// These bytes go to it too.
    fn add(&mut self, bytes: &[u8]) -> Result<(), AllocError>
        ensures key { self.new.key ≡ self.old.key }
        ensures bytes { OnOk result (self.new.bytes.items ≡ self.old.bytes.items ++ bytes.now) }
    {
        self.bytes.extend_from_slice(bytes)
    }
}

/// The bytes that went to each connection, in the order in which the connections came.
#[derive(Drop)]
pub(crate) struct Outlets {
    alloc: Global,
    outlets: Vec<Outlet>,
}

impl Model for Outlets {
    ghost use Rattle.std.specs.Prelude.{map, reverse};
    ghost use Rattle.router_laws.specs.Outputs.{Output};

    ghost Value = { Output };

    ghost view = { λ o. record {
      keys = reverse (map (λ outlet. outlet.key) o.outlets.items);
      written = map
          (λ outlet. outlet.bytes.items) o.outlets.items;
    } };
}

impl Outlets {
    /// No connection came.
    pub(crate) fn new(alloc: Global) -> Outlets
        ensures { result ≡ no_output }
    {
        Outlets {
            alloc,
            outlets: Vec::new(alloc),
        }
    }

    /// The connection comes that comes at an event.
    pub(crate) fn meet(&mut self, event: &Event<()>) -> Result<(), AllocError>
        ensures { OnOk result (self.new ≡ output_at (happening event.now) self.old) }
    {
        if let Event::Opened { key, challenge: _ } = event {
            let outlet = Outlet {
                key: *key,
                bytes: Vec::new(self.alloc),
            };
            self.outlets.push(outlet)?;
        }
        Ok(())
    }

    /// Which of all connections has the key, from 1; 0 where none has it.
    fn opening_of(&self, key: usize) -> usize
        ensures { result ≡ opening_of key self.now.keys }
    {
        let mut opening = 0;
        for (place, outlet) in self.outlets.iter().enumerate() {
            if outlet.key == key {
                opening = place + 1;
            }
        }
        opening
    }

    /// Bytes go to the connection that has the key.
    fn write(&mut self, key: usize, bytes: &[u8]) -> Result<(), AllocError>
        ensures { OnOk result
            (Adds self.old (λ opening. bytes_if opening (opening_of key self.old.keys) bytes.now)
            self.new) }
    {
        let opening = self.opening_of(key);
        if opening == 0 {
            return Ok(());
        }
        self.outlets[opening - 1].add(bytes)
    }

    /// What an action writes.
    fn take(&mut self, action: &Action<()>) -> Result<(), AllocError>
        ensures { OnOk result
            (Adds self.old (λ opening. bytes_by opening self.old.keys action.now) self.new) }
    {
        match action {
            Action::Write { key, bytes } => self.write(*key, bytes.as_slice()),
            _ => Ok(()),
        }
    }

    /// What actions write, in order.
    pub(crate) fn take_all(&mut self, actions: &[Action<()>]) -> Result<(), AllocError>
        ensures { OnOk result
            (Adds self.old (λ opening. bytes_by_all opening self.old.keys actions.now) self.new) }
    {
        for action in actions {
            self.take(action)?;
        }
        Ok(())
    }

    /// The bytes that went to each connection.
    pub(crate) fn into_bytes(self) -> Result<Vec<Vec<u8>>, AllocError>
        ensures { IfOk result (λ all. map (λ bytes. bytes.items) all.items ≡ self.written) }
    {
        let Outlets { alloc, outlets } = self;
        outlets
            .into_iter()
            .map(|outlet| outlet.bytes)
            .collect(alloc)
    }
}
