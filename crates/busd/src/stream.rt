//! `busd run`: the bus of one message stream.

ghost use Rattle.std.specs.Prelude.{◌≡◌, ℕ, [], OnOk};
ghost use Rattle.std.specs.Io.KnownBytes.{IsAtEnd};
ghost use Rattle.owner_queues.specs.declared.request.Profile.TheVariants.{Two};
ghost use Rattle.seq_bus_core.specs.Tickets.{opening_bus};
ghost use Rattle.registry_snapshots.specs.Openings.{identity};
ghost use Rattle.registry_snapshots.specs.Seats.{knowledge_of};
ghost use Rattle.busd.specs.Streams.{first_knowledge, IsStreamServed};

use busd_core::{ReadBeside, RunFault, run_over};
use registry_snapshots::{Desk, Naming, NewHistory, Seat, Shared};
use router_core::{Gate, OpenGate};
use std::io::Write;
use std::marker::Brand;
use std::sync::Wait;

/// Serves the stream as the router of this seat.
fn run_at_seat<J: Naming, C: AllocGlobal + Wait, R: ReadBeside<W>, W: Write>(
    rt: &C,
    shared: &Shared<J>,
    seat: Seat<J>,
    reader: &mut R,
    writer: &mut W,
) -> Result<(), RunFault>
    ensures runs { IsStreamServed ⟦<OpenGate as Gate>⟧ (knowledge_of J.book J.opening seat)
        (R.remaining reader.old) (R.remaining reader.new) (R.readings reader.old)
        (R.readings reader.new) (W.contents writer.old) (W.contents writer.new) result }
    ensures whole { OnOk result (IsAtEnd (R.remaining reader.new)) }
{
    run_over(rt.alloc(), Desk::new(seat, shared), rt, reader, writer)
}

/// Opens a registry with one router and no services, serves the stream over it, and ends it.
fn run_over_registry<J: Naming, C: AllocGlobal + Wait, R: ReadBeside<W>, W: Write>(
    rt: &C,
    opened: NewHistory,
    reader: &mut R,
    writer: &mut W,
) -> Result<(), RunFault>
    requires { (opened ≡ identity J.book J.name J.parts) × (J.opening ≡ opening_bus Two 1 []) }
    ensures runs { IsStreamServed ⟦<OpenGate as Gate>⟧ (first_knowledge J.book.number)
        (R.remaining reader.old) (R.remaining reader.new) (R.readings reader.old)
        (R.readings reader.new) (W.contents writer.old) (W.contents writer.new) result }
    ensures whole { OnOk result (IsAtEnd (R.remaining reader.new)) }
{
    let Ok((shared, mut seats)) = Shared::<J>::new(rt, rt.alloc(), opened, &[], 1) else {
        return Err(RunFault::Memory);
    };
    let end = match seats.pop() {
        Some(router) => run_at_seat(rt, &shared, router, reader, writer),
        None => Err(RunFault::Memory),
    };
    shared.end(rt);
    end
}

/// Serves the stream over a registry of its own, by the router of seat 1.
pub(crate) fn run_stream<C: AllocGlobal + Wait, R: ReadBeside<W>, W: Write>(
    rt: &C,
    reader: &mut R,
    writer: &mut W,
) -> Result<(), RunFault>
    ensures runs { (registry : ℕ) × IsStreamServed ⟦<OpenGate as Gate>⟧ (first_knowledge registry)
        (R.remaining reader.old) (R.remaining reader.new) (R.readings reader.old)
        (R.readings reader.new) (W.contents writer.old) (W.contents writer.new) result }
    ensures whole { OnOk result (IsAtEnd (R.remaining reader.new)) }
{
    run_over_registry::<Brand, C, R, W>(rt, NewHistory::new(), reader, writer)
}
