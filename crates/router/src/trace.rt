//! The trace of an engine, where its view keeps one.

ghost use Rattle.std.specs.Prelude.{◌≡◌};

use crate::engine::Engine;
use crate::peers::Peers;
use bus_trace::Traced;
use bus_view::BusView;
use router_core::Gate;

impl<V: BusView, G: Gate> Peers<Traced<V>, G> {
    fn take_lines(&mut self) -> Vec<u8>
        ensures { self.new ≡ self.old }
    {
        self.context.take_lines()
    }

    fn lost(&self) -> bool {
        self.context.lost()
    }
}

impl<V: BusView, G: Gate> Engine<Traced<V>, G> {
    /// Hands out the lines of the trace that were kept since it did so last, each ended by a line
    /// feed. It takes no memory.
    pub fn take_lines(&mut self) -> Vec<u8>
        ensures { self.new ≡ self.old }
    {
        self.peers.take_lines()
    }

    /// Whether a line of the trace found no memory.
    pub fn lost(&self) -> bool {
        self.peers.lost()
    }
}
