//! The signals of the bus.

ghost use Rattle.std.specs.Prelude.{◌≡◌, [], ◌∷◌, ◌++◌, IfOk, OnOk, OnErr};
ghost use Rattle.seq_bus_core.specs.Recipients.{addressed_to};

use crate::{Conn, Listeners, SharedSignal};
use names::BusName;
use std::alloc::{AllocError, Global};
use std::marker::Model;
use std::vec;

/// A signal of the bus itself. Connections are named by their numbers.
/// (D-Bus Specification: "Message Bus Messages".)
#[derive(Clone, Copy, Debug, PartialEq, Eq)]
pub enum BusSignal {
    /// A name has another owner than before, or none.
    NameOwnerChanged {
        name: BusName,
        old_owner: Option<u64>,
        new_owner: Option<u64>,
    },
    /// A connection has lost a name.
    NameLost {
        name: BusName,
        owner: u64,
    },
    /// A connection has a name.
    NameAcquired {
        name: BusName,
        owner: u64,
    },
}

/// A signal of the bus, and who gets it. It is small enough to be moved.
#[derive(Debug, Drop)]
pub struct AddressedSignal {
    pub signal: SharedSignal,
    /// Its recipients, by rising number.
    pub to: Listeners,
    /// The monitors that are shown it, by rising number. None of them is a recipient.
    pub monitors: Listeners,
}

impl AddressedSignal {
    /// A signal that goes to these connections and is shown to these monitors. It takes memory.
    pub fn new(
        alloc: Global,
        signal: BusSignal,
        to: &[Conn],
        monitors: &[Conn],
    ) -> Result<AddressedSignal, AllocError>
        ensures { IfOk result (λ a. a ≡ addressed_to signal to.now monitors.now) }
    {
        Ok(AddressedSignal {
            signal: SharedSignal::new(alloc, signal)?,
            to: Listeners::of(alloc, to)?,
            monitors: Listeners::of(alloc, monitors)?,
        })
    }
}

/// The signals of a change, in order.
#[derive(Debug, Drop)]
pub struct Signals {
    signals: Vec<AddressedSignal>,
}

impl Model for Signals {
    ghost use Rattle.std.specs.Prelude.{List};
    ghost use Rattle.seq_bus_core.specs.declared.signal.AddressedSignal.{AddressedSignal};

    ghost Value = { List AddressedSignal };

    ghost view = { λ s. s.signals.items };
}

impl Signals {
    /// No signals.
    pub fn new(alloc: Global) -> Self
        ensures { result ≡ [] }
    {
        Signals {
            signals: Vec::new(alloc),
        }
    }

    /// One more signal, behind the others.
    pub fn push(&mut self, signal: AddressedSignal) -> Result<(), AllocError>
        ensures ok { OnOk result (self.new ≡ self.old ++ signal ∷ []) }
        ensures err { OnErr result (self.new ≡ self.old) }
    {
        self.signals.push(signal)?;
        Ok(())
    }

    /// The signals, in order.
    pub fn as_slice(&self) -> &[AddressedSignal]
        ensures { result.now ≡ self.now }
    {
        self.signals.as_slice()
    }
}

impl IntoIterator for Signals {
    ghost use Rattle.seq_bus_core.specs.HandedOut.{IsHandedOut};

    type Item = AddressedSignal;

    type IntoIter = vec::IntoIter<AddressedSignal>;

    ghost into_iter_gives = { IsHandedOut };

    /// The signals themselves, in order. It takes no memory.
    fn into_iter(self) -> vec::IntoIter<AddressedSignal> {
        self.signals.into_iter()
    }
}
