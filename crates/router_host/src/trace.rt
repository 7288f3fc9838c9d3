//! The trace of a host, where the view of its engine keeps one.

ghost use Rattle.std.specs.Prelude.{◌≡◌};

use crate::host::Host;
use bus_view::BusView;
use router::Traced;
use router_core::Gate;
use router_host_core::{Post, Socket};

impl<V: BusView, G: Gate, P: Post<Traced<V>>, S: Socket> Host<Traced<V>, G, P, S> {
    /// Hands out the lines of the trace that were kept since it did so last, each ended by a line
    /// feed. It takes no memory.
    pub fn take_lines(&mut self) -> Vec<u8>
        ensures { self.new ≡ self.old }
    {
        self.engine.take_lines()
    }

    /// Whether a line of the trace found no memory.
    pub fn lost(&self) -> bool {
        self.engine.lost()
    }
}
