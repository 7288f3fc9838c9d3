//! What several share, each of whom gets it.

ghost use Rattle.std.specs.Prelude.{◌≡◌, IfOk};

use crate::BusSignal;
use std::alloc::{AllocError, Global};
use std::marker::Model;
use std::sync::Arc;

/// Bytes that several share, as all who get a message share its bytes.
#[derive(Debug, Drop)]
pub struct SharedBytes {
    bytes: Arc<Vec<u8>>,
}

impl Model for SharedBytes {
    ghost use Rattle.std.specs.Prelude.{List, ℕ};
    ghost use Rattle.std.specs.Arc.{arc_value};

    ghost Value = { List ℕ };

    ghost view = { λ b. (arc_value b.bytes).items };
}

impl SharedBytes {
    /// Bytes that are to be shared.
    pub fn new(bytes: Arc<Vec<u8>>) -> Self
        ensures { result ≡ bytes.value.items }
    {
        SharedBytes { bytes }
    }

    /// The bytes themselves.
    pub fn as_slice(&self) -> &[u8]
        ensures { result.now ≡ self.now }
    {
        self.bytes.as_slice()
    }

    /// The same bytes, for one more. Nothing is copied; it fails where too many share them already.
    pub fn try_clone(&self) -> Result<SharedBytes, AllocError>
        ensures { IfOk result (λ bytes. bytes ≡ self.now) }
    {
        let bytes = Arc::try_clone(&self.bytes)?;
        Ok(SharedBytes { bytes })
    }
}

/// A signal of the bus that several share. Names lie in it with their fixed room, so it is too
/// large to be moved with each message.
#[derive(Debug, Drop)]
pub struct SharedSignal {
    signal: Arc<BusSignal>,
}

impl Model for SharedSignal {
    ghost use Rattle.std.specs.Arc.{arc_value};
    ghost use Rattle.seq_bus_core.specs.declared.signal.BusSignal.{BusSignal};

    ghost Value = { BusSignal };

    ghost view = { λ s. arc_value s.signal };
}

impl SharedSignal {
    /// A signal that is to be shared. It takes memory.
    pub fn new(alloc: Global, signal: BusSignal) -> Result<SharedSignal, AllocError>
        ensures { IfOk result (λ shared. shared ≡ signal) }
    {
        match Arc::new(alloc, signal) {
            Ok(signal) => Ok(SharedSignal { signal }),
            Err(_) => Err(AllocError),
        }
    }

    /// The signal itself.
    pub fn get(&self) -> &BusSignal
        ensures { result.now ≡ self.now }
    {
        &self.signal
    }

    /// The same signal, for one more. Nothing is copied; it fails where too many share it already.
    pub fn try_clone(&self) -> Result<SharedSignal, AllocError>
        ensures { IfOk result (λ signal. signal ≡ self.now) }
    {
        let signal = Arc::try_clone(&self.signal)?;
        Ok(SharedSignal { signal })
    }
}
