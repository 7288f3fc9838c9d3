//! The trace of what serves connections, where its view keeps one.

ghost use Rattle.std.specs.Prelude.{◌≡◌};

use crate::context::Context;
use bus_trace::Traced;
use bus_view::BusView;
use router_core::Gate;

impl<V: BusView, G: Gate> Context<Traced<V>, G> {
    /// Hands out the lines that the view keeps, each ended by a line feed. It takes no memory.
    pub fn take_lines(&mut self) -> Vec<u8>
        ensures { self.new ≡ self.old }
    {
        self.view.take_lines()
    }

    /// Whether a line found no memory.
    pub fn lost(&self) -> bool {
        self.view.lost()
    }
}
