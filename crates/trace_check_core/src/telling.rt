//! What the bus tells where a line of a trace stands.

ghost use Rattle.std.specs.Prelude.{◌≡◌, ◌<◌, length, None, IfOk, OnOk, map, option_map, string_bytes};
ghost use Rattle.seq_bus_core.specs.Histories.{after};
ghost use Rattle.trace_check_core.specs.Legality.{due};
ghost use Rattle.trace_check_core.specs.Placing.{lines_by_place, place_seen};
ghost use Rattle.trace_check_core.specs.Verdicts.{misplaced};
ghost use Rattle.trace_check_core.specs.Walks.{bus_told_of, change_entries, due_at, due_in, line_at};

use crate::stepping::tell;
use crate::{KeptLine, PlaceLines, Trace};
use registry::Registry;
use std::alloc::{AllocError, Global};

/// What the bus tells where the line of this number stands, as it would stand behind the arrow. It
/// says none where the file is no trace with a place for each change, or has no such line behind
/// its head. It takes memory.
pub fn told_at(alloc: Global, file: &[u8], number: u64) -> Result<Option<String>, AllocError>
    ensures { IfOk result (λ told.
        option_map (λ text. string_bytes text) told ≡ due_at file.now number) }
{
    match Trace::read(alloc, file)? {
        Ok(trace) => told_in(alloc, &trace, number),
        Err(_) => Ok(None),
    }
}

fn told_in(alloc: Global, trace: &Trace<'_>, number: u64) -> Result<Option<String>, AllocError>
    ensures { IfOk result (λ told.
        option_map (λ text. string_bytes text) told ≡ due_in trace.now number) }
{
    let Ok(places) = trace.places(alloc)? else {
        return Ok(None);
    };
    let Some(line) = line_at(trace, number) else {
        return Ok(None);
    };
    Ok(Some(told_there(alloc, trace, places.as_slice(), line)?))
}

/// The line of this number, if it stands behind the head.
fn line_at<'t>(trace: &'t Trace<'t>, number: u64) -> Option<&'t KeptLine<'t>>
    ensures { option_map (λ line. line.now) result ≡ line_at trace.now number }
{
    let index = number.checked_sub(trace.head_lines())?.checked_sub(1)?;
    trace.lines().get(index as usize)
}

/// What the bus tells where a line stands.
fn told_there(
    alloc: Global,
    trace: &Trace<'_>,
    places: &[PlaceLines<'_>],
    line: &KeptLine<'_>,
) -> Result<String, AllocError>
    requires placed { misplaced trace.now ≡ None }
    requires places { map place_seen places.now ≡ lines_by_place trace.now }
    requires within { line.now.place < length places.now }
    ensures { IfOk result (λ text. string_bytes text ≡ due trace.now line.now) }
{
    let mut registry = bus_before(alloc, trace, places, line)?;
    let whole = line.read_again(alloc)?;
    tell(alloc, &mut registry, line.seat(), &whole.subject)
}

/// The bus that a line tells of.
fn bus_before(
    alloc: Global,
    trace: &Trace<'_>,
    places: &[PlaceLines<'_>],
    line: &KeptLine<'_>,
) -> Result<Registry, AllocError>
    requires placed { misplaced trace.now ≡ None }
    requires places { map place_seen places.now ≡ lines_by_place trace.now }
    requires within { line.now.place < length places.now }
    ensures { IfOk result (λ registry. registry ≡ bus_told_of trace.now line.now) }
{
    let mut registry = Registry::new(alloc, trace.services(), trace.routers(), trace.profile())?;
    let at = line.place() as usize;
    for place in &places[..at] {
        make_change(alloc, &mut registry, place)?;
    }
    if line.number().is_some() {
        return Ok(registry);
    }
    make_change(alloc, &mut registry, &places[at])?;
    Ok(registry)
}

/// The bus makes the change of a place, if there is one.
fn make_change(
    alloc: Global,
    registry: &mut Registry,
    place: &PlaceLines<'_>,
) -> Result<(), AllocError>
    ensures { OnOk result (registry.new
        ≡ after registry.old (change_entries (place_seen place.now).change)) }
{
    if let Some(change) = &place.change {
        let line = change.line.read_again(alloc)?;
        tell(alloc, registry, change.line.seat(), &line.subject)?;
    }
    Ok(())
}
