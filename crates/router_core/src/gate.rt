//! What is shown each call before it is served.

ghost use Rattle.router_core.specs.Deeds.{GatedCall};

use bus_view::BusView;
use driver::Call;

/// What is shown each call to the bus before it is served.
pub trait Gate {
    /// What it may be once it was shown a call.
    ghost passes: { Self → GatedCall → Self → Type 0 };

    /// The router of this seat is about to serve the call. It lends the bus as it sees it: the
    /// change that the call asks for is not made yet.
    fn before<V: BusView>(&mut self, seat: u8, call: &Call, bus: &V)
        ensures { passes self.old (record {
          seat = seat;
          call = call.now;
          seen = (V.knows bus.now).seen;
        }) self.new };
}

/// A gate that lets each call pass.
#[derive(Clone, Copy, Debug)]
pub struct OpenGate;

impl Gate for OpenGate {
    ghost use Rattle.std.specs.Prelude.{◌≡◌};

    ghost passes = { λ before _ after. after ≡ before };

    fn before<V: BusView>(&mut self, _seat: u8, _call: &Call, _bus: &V) {}
}
