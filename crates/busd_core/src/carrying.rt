//! Events that are served, and what they write.

ghost use Rattle.std.specs.Prelude.{IfOk, IfErr};
ghost use Rattle.router_core.specs.Acts.{CanHappen};
ghost use Rattle.busd_core.specs.Parts.{IsBroughtBy, IsCutShortBy};

use crate::actions::write_out;
use crate::run_fault::RunFault;
use bus_view::BusView;
use router::Engine;
use router_core::{Action, Event, Gate};
use std::io::Write;

/// Which connection is served: the seat of its router, and its key there.
#[derive(Clone, Copy, Debug, PartialEq, Eq)]
pub struct Endpoint {
    pub seat: u8,
    pub key: usize,
}

/// Serves an event, and writes what its actions write to the connection of a key.
pub fn dispatch<V: BusView, G: Gate, W: Write>(
    engine: &mut Engine<V, G>,
    right: &V::Right,
    key: usize,
    event: Event<V::Note>,
    writer: &mut W,
) -> Result<Vec<Action<V::Note>>, RunFault>
    requires { CanHappen V.registry_of engine.old event }
    ensures ok { IfOk result
        (λ actions. IsBroughtBy V.BusView G.Gate key engine.old event actions.items
        (W.contents writer.old) (W.contents writer.new) engine.new) }
    ensures err { IfErr result
        (λ fault. IsCutShortBy V.BusView G.Gate key engine.old event
        (W.contents writer.old) (W.contents writer.new) engine.new fault) }
{
    let mut event = event;
    let Ok(actions) = engine.event(right, &mut event) else {
        return Err(RunFault::Memory);
    };
    let Ok(()) = write_out(writer, key, &actions) else {
        return Err(RunFault::Output);
    };
    Ok(actions)
}
