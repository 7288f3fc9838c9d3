//! Where the routers of a test write what they recorded.

use crate::progress::Progress;
use crate::scenario::Tracing;
use routers::{Fault, TraceSink};
use std::str;
use std::sync::Wait;

/// Keeps the lines of a router beside those of the others, or refuses them.
#[derive(Drop)]
pub(crate) struct SharedTrace<'a, R: Wait> {
    pub(crate) rt: &'a R,
    pub(crate) progress: &'a Progress,
    pub(crate) tracing: Tracing,
}

impl<'a, R: Wait> TraceSink for SharedTrace<'a, R> {
    fn records(&self) -> bool {
        self.tracing != Tracing::Off
    }

    fn write(&mut self, lines: &[u8]) -> Result<(), Fault> {
        let Ok(lines) = str::from_utf8(lines) else {
            return Err(Fault::Trace);
        };
        if self.tracing == Tracing::Refused {
            return Err(Fault::Trace);
        }
        match self.progress.keep(self.rt, lines) {
            true => Ok(()),
            false => Err(Fault::Memory),
        }
    }
}
