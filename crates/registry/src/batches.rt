//! Batches of changes.

ghost use Rattle.std.specs.Prelude.{◌≡◌, IfOk, OnOk};
ghost use Rattle.registry.specs.PreparedChanges.{absorbed_along, prepared_along, state_along};

use crate::prepared::Prepared;
use crate::registry::Registry;
use owner_queues::Queue;
use seq_bus_core::Change;
use std::alloc::{AllocError, Global};

impl Registry {
    /// Prepares changes of a seat, each on the state that those before it leave, and makes them
    /// here.
    ///
    /// Where memory is refused, some of them may have been made: whoever has a copy sets the
    /// registry back with [`Registry::copy_from`].
    pub fn prepare_all(
        &mut self,
        alloc: Global,
        seat: u8,
        changes: &[Change],
    ) -> Result<Vec<Prepared>, AllocError>
        ensures prepared { IfOk result (λ all.
            all.items ≡ prepared_along self.old seat changes.now) }
        ensures made { OnOk result (self.new ≡ state_along self.old seat changes.now) }
    {
        let mut all = Vec::with_capacity(alloc, changes.len())?;
        let mut queue = Queue::new();
        for change in changes {
            let prepared = self.make(&mut queue, alloc, seat, change)?;
            all.push_reserved(prepared);
        }
        Ok(all)
    }

    /// Makes prepared changes, in order, whatever state the registry is in. It takes no memory, and
    /// can't be refused.
    pub fn absorb_all(&mut self, prepared: &[Prepared])
        ensures { self.new ≡ absorbed_along self.old prepared.now }
    {
        for next in prepared {
            self.absorb(next);
        }
    }
}
