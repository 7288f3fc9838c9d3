//! The walk along the lines of a trace, in order of place.

ghost use Rattle.std.specs.Prelude.{◌≡◌, None, Some, IfOk, map};
ghost use Rattle.trace_check_core.specs.Walks.{in_turn, lesser, walked, walked_along};
ghost use Rattle.trace_check_core.specs.Placing.{line_seen, lines_by_place, place_seen};
ghost use Rattle.trace_check_core.specs.Verdicts.{misplaced, wrong};

use crate::stepping::step_along;
use crate::{NumberedLine, PlaceLines, Trace};
use registry::Registry;
use std::alloc::{AllocError, Global};

/// The number of the first line that records something else than the bus tells where it stands.
pub(crate) fn wrong(
    alloc: Global,
    trace: &Trace<'_>,
    places: &[PlaceLines<'_>],
) -> Result<Option<u64>, AllocError>
    requires placed { misplaced trace.now ≡ None }
    requires places { map place_seen places.now ≡ lines_by_place trace.now }
    ensures { IfOk result (λ number. number ≡ wrong trace.now) }
{
    let mut registry = Registry::new(alloc, trace.services(), trace.routers(), trace.profile())?;
    let mut least = None;
    for place in places {
        least = walk_place(alloc, &mut registry, place, least)?;
    }
    Ok(least)
}

/// Walks along the lines of a place: the least number of a line that is wrong, with this one that
/// was found before.
fn walk_place(
    alloc: Global,
    registry: &mut Registry,
    place: &PlaceLines<'_>,
    least: Option<u64>,
) -> Result<Option<u64>, AllocError>
    ensures { IfOk result (λ found. record { bus = registry.new; least = found }
        ≡ walked_along (record { bus = registry.old; least = least })
        (in_turn (place_seen place.now))) }
{
    let mut least = least;
    if let Some(change) = &place.change {
        least = walk(alloc, registry, change, least)?;
    }
    for read in place.reads.as_slice() {
        least = walk(alloc, registry, read, least)?;
    }
    Ok(least)
}

/// Walks along one line.
fn walk(
    alloc: Global,
    registry: &mut Registry,
    numbered: &NumberedLine<'_>,
    least: Option<u64>,
) -> Result<Option<u64>, AllocError>
    ensures { IfOk result (λ found. record { bus = registry.new; least = found }
        ≡ walked (record { bus = registry.old; least = least }) (line_seen numbered.now)) }
{
    if step_along(alloc, registry, numbered.line)? {
        return Ok(least);
    }
    Ok(Some(lesser(least, numbered.number)))
}

/// Of a number that may be there and a number, the lesser.
fn lesser(least: Option<u64>, number: u64) -> u64
    ensures { result ≡ lesser least number }
{
    match least {
        Some(least) => { if least <= number { least } else { number } }
        None => number,
    }
}
