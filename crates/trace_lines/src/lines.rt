//! Reading a line of a trace.

ghost use Rattle.std.specs.Prelude.{◌≡◌, option_map, IfOk, unwrap_or, false};
ghost use Rattle.trace_words.specs.Cutting.{parts_left};
ghost use Rattle.trace_lines.specs.Lines.{change_line_from, is_answer_alone, line_of, query_line_from, recorded_from, route_line_from, seat_of};
ghost use Rattle.trace_lines.specs.LineViews.{line_told};

use crate::line::{Line, Subject};
use seq_bus_core::Query;
use std::alloc::{AllocError, Global};
use trace_words::{
    Parts, is_answer, is_outcome, is_verdict, number, read_change, read_query, read_route,
};

/// The words behind an arrow.
fn recorded(mut words: Parts<'_>) -> Option<Parts<'_>>
    ensures { option_map parts_left result ≡ recorded_from (parts_left words.entry) }
{
    let arrow = words.take()?;
    let recorded = words;
    words.take()?;
    if arrow == "=>" { Some(recorded) } else { None }
}

fn change_line<'a>(
    alloc: Global,
    place: u64,
    seat: u64,
    mut words: Parts<'a>,
) -> Result<Option<Line<'a>>, AllocError>
    ensures { IfOk result (λ line. option_map line_told line
        ≡ change_line_from place seat (parts_left words.entry)) }
{
    let Some(word) = words.take() else {
        return Ok(None);
    };
    let Some(number) = number(word) else {
        return Ok(None);
    };
    let Some(change) = read_change(alloc, &mut words)? else {
        return Ok(None);
    };
    if place == 0 || number == 0 {
        return Ok(None);
    }
    let Some(recorded) = recorded(words) else {
        return Ok(None);
    };
    if !is_outcome(&change, recorded) {
        return Ok(None);
    }
    Ok(Some(Line {
        place,
        seat,
        subject: Subject::Change { number, change },
        recorded,
    }))
}

fn answer(query: &Query, mut words: Parts<'_>) -> Option<bool>
    ensures { unwrap_or result false ≡ is_answer_alone query.now (parts_left words.entry) }
{
    let word = words.take()?;
    if words.take().is_some() {
        return None;
    }
    Some(is_answer(query, word))
}

fn query_line(place: u64, seat: u64, mut words: Parts<'_>) -> Option<Line<'_>>
    ensures { option_map line_told result ≡ query_line_from place seat (parts_left words.entry) }
{
    let query = read_query(&mut words)?;
    let recorded = recorded(words)?;
    if !answer(&query, recorded).unwrap_or(false) {
        return None;
    }
    Some(Line {
        place,
        seat,
        subject: Subject::Query(query),
        recorded,
    })
}

fn route_line<'a>(
    alloc: Global,
    place: u64,
    seat: u64,
    mut words: Parts<'a>,
) -> Result<Option<Line<'a>>, AllocError>
    ensures { IfOk result (λ line. option_map line_told line
        ≡ route_line_from place seat (parts_left words.entry)) }
{
    let Some(route) = read_route(alloc, &mut words)? else {
        return Ok(None);
    };
    let Some(recorded) = recorded(words) else {
        return Ok(None);
    };
    if !is_verdict(recorded) {
        return Ok(None);
    }
    Ok(Some(Line {
        place,
        seat,
        subject: Subject::Route(route),
        recorded,
    }))
}

fn seat(routers: u8, word: &str) -> Option<u64>
    ensures { result ≡ seat_of routers word.now }
{
    let seat = number(word)?;
    if seat <= u64::from(routers) {
        Some(seat)
    } else {
        None
    }
}

/// Reads a line behind the head of a trace of a bus with so many routers. It says none where the
/// text is no such line.
pub fn read_line(alloc: Global, routers: u8, text: &str) -> Result<Option<Line<'_>>, AllocError>
    ensures { IfOk result (λ line. option_map line_told line ≡ line_of routers text.now) }
{
    let mut words = Parts::of(text, ' ');
    let Some(kind) = words.take() else {
        return Ok(None);
    };
    let Some(place_word) = words.take() else {
        return Ok(None);
    };
    let Some(seat_word) = words.take() else {
        return Ok(None);
    };
    let Some(place) = number(place_word) else {
        return Ok(None);
    };
    let Some(seat) = seat(routers, seat_word) else {
        return Ok(None);
    };
    if kind == "c" {
        return change_line(alloc, place, seat, words);
    }
    if kind == "q" {
        return Ok(query_line(place, seat, words));
    }
    if kind == "m" {
        return route_line(alloc, place, seat, words);
    }
    Ok(None)
}
