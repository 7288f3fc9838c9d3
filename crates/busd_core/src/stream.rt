//! One stream, served from its first byte to its end.

ghost use Rattle.std.specs.Prelude.{◌≡◌, ◌<◌, [], length, IfOk, IfErr, IfSome, IfNone, OnOk};
ghost use Rattle.std.specs.Io.KnownBytes.{IsAtEnd};
ghost use Rattle.router_core.specs.Acts.{CanHappen};
ghost use Rattle.busd_core.specs.Readings.{IsRead};
ghost use Rattle.busd_core.specs.Parts.{LosesPiece, IsCarriedOutBy};
ghost use Rattle.busd_core.specs.Sessions.{RunsAnew, RunsBy};

use crate::actions::closed_by;
use crate::carrying::{Endpoint, dispatch};
use crate::mail::deliver_all;
use crate::read_beside::ReadBeside;
use crate::run_fault::RunFault;
use crate::transfer::read_piece;
use bus_view::BusView;
use router::Engine;
use router_core::{Event, Gate, OpenGate};
use std::alloc::Global;
use std::io::Write;

/// The most bytes that are read at once.
const PIECE: usize = 4096;

/// The next bytes of the input, or none at its end.
fn next_piece<R: ReadBeside<W>, W: Write>(
    alloc: Global,
    reader: &mut R,
    writer: &W,
    buffer: &mut [u8],
) -> Result<Option<Vec<u8>>, RunFault>
    requires { 0 < length buffer.old }
    ensures piece { IfOk result
        (λ o. IfSome o (λ piece.
        IsRead (W.contents writer.now) (R.remaining reader.old) (R.remaining reader.new)
        (R.readings reader.old) (R.readings reader.new) piece.items)) }
    ensures end { IfOk result
        (λ o. IfNone o (IsRead (W.contents writer.now) (R.remaining reader.old)
        (R.remaining reader.new) (R.readings reader.old) (R.readings reader.new) [] ×
        IsAtEnd (R.remaining reader.new))) }
    ensures err { IfErr result
        (λ fault. LosesPiece (W.contents writer.now) (R.remaining reader.old)
        (R.remaining reader.new) (R.readings reader.old) (R.readings reader.new) fault) }
    ensures room { length buffer.new ≡ length buffer.old }
{
    let Ok(count) = read_piece(reader, writer, buffer) else {
        return Err(RunFault::Input);
    };
    if count == 0 {
        return Ok(None);
    }
    match Vec::from_slice(alloc, &buffer[..count]) {
        Ok(piece) => Ok(Some(piece)),
        Err(_) => Err(RunFault::Memory),
    }
}

/// Serves an event, and carries out its actions: what they write is written, then what they put
/// comes back as mail. Where they close the connection, the run ends.
fn carry_out<V: BusView, G: Gate, W: Write>(
    engine: &mut Engine<V, G>,
    right: &V::Right,
    endpoint: Endpoint,
    event: Event<V::Note>,
    writer: &mut W,
) -> Result<(), RunFault>
    requires { CanHappen V.registry_of engine.old event }
    ensures { IsCarriedOutBy V.BusView G.Gate endpoint.seat endpoint.key engine.old event
        (W.contents writer.old) (W.contents writer.new) engine.new result }
{
    let actions = dispatch(engine, right, endpoint.key, event, writer)?;
    if let Some(cause) = closed_by(endpoint.key, &actions) {
        return Err(RunFault::Closed(cause));
    }
    let delivered = deliver_all(engine, right, endpoint, &actions, writer);
    engine.give_back(actions);
    delivered
}

/// Serves the message stream of one connection by the engine of the router of a seat. The
/// connection needs no authentication, and counts as the bus's own user ("Message Bus Messages" of
/// the D-Bus Specification).
///
/// The connection comes, with the key that is next. Its bytes come as they are read. Each whole
/// message is served, and what that brings is written and flushed, before more is read: so a client
/// may wait for each reply. What the actions of an event write to the connection is written at once;
/// what they put to connections of this router comes back as mail, in order, without a note, as the
/// router that made it has nothing to learn from it. At the end of the input the connection is gone,
/// and a rest that is no whole message is ignored.
///
/// # Errors
///
/// The run ends earlier where the connection is closed, with all that was written to it up to
/// there; where the reader or the writer fails; and where there is not enough memory to go on.
pub fn run<V: BusView, G: Gate, R: ReadBeside<W>, W: Write>(
    alloc: Global,
    engine: &mut Engine<V, G>,
    right: &V::Right,
    reader: &mut R,
    writer: &mut W,
) -> Result<(), RunFault>
    ensures runs { RunsBy V.BusView G.Gate engine.old.view.seat engine.old engine.new
        (R.remaining reader.old) (R.remaining reader.new) (R.readings reader.old)
        (R.readings reader.new) (W.contents writer.old) (W.contents writer.new) result }
    ensures whole { OnOk result (IsAtEnd (R.remaining reader.new)) }
{
    let seat = engine.view().seat();
    run_at(alloc, engine, right, seat, reader, writer)
}

/// The same, where the seat of the engine's router is known.
fn run_at<V: BusView, G: Gate, R: ReadBeside<W>, W: Write>(
    alloc: Global,
    engine: &mut Engine<V, G>,
    right: &V::Right,
    seat: u8,
    reader: &mut R,
    writer: &mut W,
) -> Result<(), RunFault>
    ensures runs { RunsBy V.BusView G.Gate seat engine.old engine.new (R.remaining reader.old)
        (R.remaining reader.new) (R.readings reader.old) (R.readings reader.new)
        (W.contents writer.old) (W.contents writer.new) result }
    ensures whole { OnOk result (IsAtEnd (R.remaining reader.new)) }
{
    let key = engine.free_key();
    let endpoint = Endpoint { seat, key };
    let comes = Event::Opened {
        key,
        challenge: None,
    };
    carry_out(engine, right, endpoint, comes, writer)?;
    let mut buffer = [0u8; PIECE];
    for _ in 0..u64::MAX {
        if engine.has_next(key) {
            carry_out(engine, right, endpoint, Event::Next { key }, writer)?;
            continue;
        }
        let Some(piece) = next_piece(alloc, reader, writer, &mut buffer)? else {
            return carry_out(engine, right, endpoint, Event::Closed { key }, writer);
        };
        carry_out(engine, right, endpoint, Event::Bytes { key, piece }, writer)?;
    }
    Err(RunFault::Memory)
}

/// Serves the message stream of one connection over a view of the bus, as [`run`] does, by an engine
/// of its own, which lets each call pass.
///
/// # Errors
///
/// As those of [`run`]; `Memory` comes also where there is none for the engine.
pub fn run_over<V: BusView + Drop, R: ReadBeside<W>, W: Write>(
    alloc: Global,
    view: V,
    right: &V::Right,
    reader: &mut R,
    writer: &mut W,
) -> Result<(), RunFault>
    ensures runs { RunsAnew V.told ⟦<OpenGate as Gate>⟧.passes V.alone (V.knows view)
        (R.remaining reader.old) (R.remaining reader.new) (R.readings reader.old)
        (R.readings reader.new) (W.contents writer.old) (W.contents writer.new) result }
    ensures whole { OnOk result (IsAtEnd (R.remaining reader.new)) }
{
    let Ok(mut engine) = Engine::new(alloc, view, OpenGate, None) else {
        return Err(RunFault::Memory);
    };
    run(alloc, &mut engine, right, reader, writer)
}
