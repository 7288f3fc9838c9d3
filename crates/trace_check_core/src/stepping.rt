//! A bus that is stepped along the lines of a trace.

ghost use Rattle.std.specs.Prelude.{◌≡◌, IfOk, OnOk, string_bytes};
ghost use Rattle.seq_bus_core.specs.Histories.{after};
ghost use Rattle.seq_bus_core.specs.Recipients.{recipients};
ghost use Rattle.seq_bus_core.specs.Steps.{step};
ghost use Rattle.trace_check_core.specs.Walks.{records_told};
ghost use Rattle.trace_words.specs.RouteViews.{route_facts};
ghost use Rattle.trace_lines.specs.Texts.{outcome_text, verdict_text};
ghost use Rattle.trace_lines.specs.LineViews.{subject_told};
ghost use Rattle.trace_check_core.specs.Legality.{entries_of, told};

use crate::KeptLine;
use crate::answers::answer_text;
use registry::Registry;
use seq_bus_core::Change;
use std::alloc::{AllocError, Global};
use trace_lines::{Route, Subject, outcome_text, verdict_text};

/// Whether a line records what the bus tells. Where it is a change, the bus makes it.
pub(crate) fn step_along(
    alloc: Global,
    registry: &mut Registry,
    kept: &KeptLine<'_>,
) -> Result<bool, AllocError>
    ensures right { IfOk result (λ is_right. is_right ≡ records_told registry.old kept.now) }
    ensures made { OnOk result (registry.new
        ≡ after registry.old (entries_of kept.now.seat kept.now.subject)) }
{
    let line = kept.read_again(alloc)?;
    let text = tell(alloc, registry, kept.seat(), &line.subject)?;
    Ok(line.records(text.as_str()))
}

/// What the bus tells of a subject of this seat. Where it is a change, the bus makes it.
pub(crate) fn tell(
    alloc: Global,
    registry: &mut Registry,
    seat: u8,
    subject: &Subject<'_>,
) -> Result<String, AllocError>
    ensures told { IfOk result (λ text. string_bytes text
        ≡ told registry.old seat (subject_told subject.now)) }
    ensures made { OnOk result (registry.new
        ≡ after registry.old (entries_of seat (subject_told subject.now))) }
{
    match subject {
        Subject::Change { change, .. } => make(alloc, registry, seat, change),
        Subject::Query(query) => answer_text(alloc, registry, query),
        Subject::Route(route) => route_text(alloc, registry, route),
    }
}

/// The change that this seat makes: what it is told.
fn make(
    alloc: Global,
    registry: &mut Registry,
    seat: u8,
    change: &Change,
) -> Result<String, AllocError>
    ensures told { IfOk result (λ text. string_bytes text
        ≡ outcome_text (step registry.old seat change.now).1) }
    ensures made { OnOk result (registry.new ≡ (step registry.old seat change.now).0) }
{
    let prepared = registry.prepare(alloc, seat, change)?;
    let text = outcome_text(alloc, prepared.outcome())?;
    registry.absorb(&prepared);
    Ok(text)
}

/// Where a message goes.
fn route_text(alloc: Global, registry: &Registry, route: &Route<'_>) -> Result<String, AllocError>
    ensures { IfOk result (λ text. string_bytes text ≡ verdict_text
        (recipients registry.now (route_facts route.now).sender (route_facts route.now))) }
{
    let arguments = route.arguments();
    let verdict = registry.route(route.sender, &route.facts(arguments.as_slice()));
    verdict_text(alloc, &verdict)
}
