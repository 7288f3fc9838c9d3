//! Lines that are added to others. Each is written in a draft first, always in the same memory.

ghost use Rattle.std.specs.Prelude.{◌≡◌, ◌≤◌, ◌+◌, ◌^◌, ◌++◌, Bool, Some, List, [], length, OnOk, OnErr};
ghost use Rattle.names.specs.Texts.{Text};
ghost use Rattle.seq_bus_core.specs.Answers.{OneName, HasOwner, NameList, answer};
ghost use Rattle.seq_bus_core.specs.BusState.{BusState};
ghost use Rattle.bus_view.specs.Bodies.{Answers, IsBody};
ghost use Rattle.bus_view.specs.declared.answer.Asked.TheVariants.{Body};
ghost use Rattle.trace_lines.specs.Texts.{query_line_text};
ghost use Rattle.bus_trace.specs.Recordings.{change_ended, changes_ended, query_ended, route_ended};

use crate::bodies::{read_name, read_names, read_whether};
use bus_view::Asked;
use match_rules::Facts;
use seq_bus_core::{Outcome, Query, Verdict};
use std::alloc::{AllocError, Global};
use trace_lines::{AnswerWords, ChangeWords, Draft, write_query_line, write_route_line};

/// Writes the line of a change.
fn write_change(
    draft: &mut Draft,
    place: u64,
    seat: u8,
    number: u64,
    words: &ChangeWords,
    outcome: &Outcome,
) -> Result<(), AllocError>
    ensures { OnOk result (draft.new ≡ draft.old
        ++ change_ended place seat number words.now outcome.now) }
{
    words.write_whole_line(draft, place, u64::from(seat), number, outcome)?;
    draft.push("\n")
}

/// Writes the lines of changes that stand behind one another, from this place and this number on.
fn write_changes(
    draft: &mut Draft,
    place: u64,
    seat: u8,
    number: u64,
    words: &[ChangeWords],
    outcomes: &[Outcome],
) -> Result<(), AllocError>
    requires { (place + length outcomes.now ≤ 2 ^ 64) × (number + length outcomes.now ≤ 2 ^ 64) }
    ensures { OnOk result (draft.new ≡ draft.old
        ++ changes_ended place seat number words.now outcomes.now) }
{
    let count = words.len().min(outcomes.len());
    for index in 0..count {
        let place = place + index as u64;
        let number = number + index as u64;
        write_change(draft, place, seat, number, &words[index], &outcomes[index])?;
    }
    Ok(())
}

/// Writes the line of a query that a name was told.
fn write_name(
    draft: &mut Draft,
    place: u64,
    seat: u64,
    query: &Query,
    body: &[u8],
) -> Result<(), AllocError>
    ensures { (name : Text) → IsBody (OneName name) body.now →
        OnOk result (draft.new ≡ draft.old
        ++ query_line_text place seat query.now (Some (OneName name))) }
{
    let name = read_name(body)?;
    write_query_line(draft, place, seat, query, Some(AnswerWords::OneName(name)))
}

/// Writes the line of a query that was told whether a name has an owner.
fn write_whether(
    draft: &mut Draft,
    place: u64,
    seat: u64,
    query: &Query,
    body: &[u8],
) -> Result<(), AllocError>
    ensures { (owned : Bool) → IsBody (HasOwner owned) body.now →
        OnOk result (draft.new ≡ draft.old
        ++ query_line_text place seat query.now (Some (HasOwner owned))) }
{
    let owned = read_whether(body);
    write_query_line(
        draft,
        place,
        seat,
        query,
        Some(AnswerWords::HasOwner(owned)),
    )
}

/// Writes the line of a query that names were told.
fn write_names(
    draft: &mut Draft,
    alloc: Global,
    place: u64,
    seat: u64,
    query: &Query,
    body: &[u8],
) -> Result<(), AllocError>
    ensures { (names : List Text) → IsBody (NameList names) body.now →
        OnOk result (draft.new ≡ draft.old
        ++ query_line_text place seat query.now (Some (NameList names))) }
{
    let names = read_names(alloc, body)?;
    write_query_line(
        draft,
        place,
        seat,
        query,
        Some(AnswerWords::NameList(&names)),
    )
}

/// Writes the line of a query, where the body of the reply is this.
fn write_told(
    draft: &mut Draft,
    alloc: Global,
    place: u64,
    seat: u64,
    query: &Query,
    body: &[u8],
) -> Result<(), AllocError>
    ensures { (s : BusState) → Answers Body (answer s query.now) [] body.now →
        OnOk result (draft.new ≡ draft.old
        ++ query_line_text place seat query.now (answer s query.now)) }
{
    match query {
        Query::GetNameOwner(_) => write_name(draft, place, seat, query, body),
        Query::NameHasOwner(_) => write_whether(draft, place, seat, query, body),
        Query::ListNames => write_names(draft, alloc, place, seat, query, body),
        Query::ListActivatableNames => write_names(draft, alloc, place, seat, query, body),
        Query::ListQueuedOwners(_) => write_names(draft, alloc, place, seat, query, body),
    }
}

/// Writes the line of a query, where this was appended to the reply.
fn write_answer(
    draft: &mut Draft,
    alloc: Global,
    place: u64,
    seat: u64,
    query: &Query,
    asked: Asked,
    body: &[u8],
) -> Result<(), AllocError>
    ensures { (s : BusState) → Answers asked (answer s query.now) [] body.now →
        OnOk result (draft.new ≡ draft.old
        ++ query_line_text place seat query.now (answer s query.now)) }
{
    match asked {
        Asked::NameHasNoOwner => write_query_line(draft, place, seat, query, None),
        Asked::Body => write_told(draft, alloc, place, seat, query, body),
    }
}

/// Adds the line of a change.
pub(crate) fn add_change(
    draft: &mut Draft,
    lines: &mut Vec<u8>,
    place: u64,
    seat: u8,
    number: u64,
    words: &ChangeWords,
    outcome: &Outcome,
) -> Result<(), AllocError>
    ensures ok { OnOk result (lines.new.items ≡ lines.old.items
        ++ change_ended place seat number words.now outcome.now) }
    ensures err { OnErr result (lines.new.items ≡ lines.old.items) }
{
    draft.clear();
    write_change(draft, place, seat, number, words, outcome)?;
    lines.extend_from_slice(draft.as_str().as_bytes())
}

/// Adds the lines of changes that stand behind one another, from this place and this number on: all
/// of them or none.
pub(crate) fn add_changes(
    draft: &mut Draft,
    lines: &mut Vec<u8>,
    place: u64,
    seat: u8,
    number: u64,
    words: &[ChangeWords],
    outcomes: &[Outcome],
) -> Result<(), AllocError>
    requires { (place + length outcomes.now ≤ 2 ^ 64) × (number + length outcomes.now ≤ 2 ^ 64) }
    ensures ok { OnOk result (lines.new.items ≡ lines.old.items
        ++ changes_ended place seat number words.now outcomes.now) }
    ensures err { OnErr result (lines.new.items ≡ lines.old.items) }
{
    draft.clear();
    write_changes(draft, place, seat, number, words, outcomes)?;
    lines.extend_from_slice(draft.as_str().as_bytes())
}

/// Adds the line of a query, where the body of the reply is this.
pub(crate) fn add_query(
    draft: &mut Draft,
    lines: &mut Vec<u8>,
    alloc: Global,
    place: u64,
    seat: u8,
    query: &Query,
    asked: Asked,
    body: &[u8],
) -> Result<(), AllocError>
    ensures ok { (s : BusState) → Answers asked (answer s query.now) [] body.now →
        OnOk result (lines.new.items ≡ lines.old.items
        ++ query_ended place seat query.now (answer s query.now)) }
    ensures err { OnErr result (lines.new.items ≡ lines.old.items) }
{
    draft.clear();
    write_answer(draft, alloc, place, u64::from(seat), query, asked, body)?;
    draft.push("\n")?;
    lines.extend_from_slice(draft.as_str().as_bytes())
}

/// Adds the line of a route.
pub(crate) fn add_route(
    draft: &mut Draft,
    lines: &mut Vec<u8>,
    place: u64,
    seat: u8,
    from: u64,
    facts: &Facts<'_>,
    verdict: &Verdict,
) -> Result<(), AllocError>
    ensures ok { OnOk result (lines.new.items ≡ lines.old.items
        ++ route_ended place seat from facts.now verdict.now) }
    ensures err { OnErr result (lines.new.items ≡ lines.old.items) }
{
    draft.clear();
    write_route_line(draft, place, u64::from(seat), from, facts, verdict)?;
    draft.push("\n")?;
    lines.extend_from_slice(draft.as_str().as_bytes())
}
