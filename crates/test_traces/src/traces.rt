//! Rows of several traces.

use crate::desks::told_at_desks;
use crate::played::told_on_buses;
use crate::recorded::tell_the_same;
use owner_queues::Profile;
use std::alloc::{AllocError, Global};
use std::sync::Wait;
use trace_lines::read_profile;

/// What stands in the place of each row: what the buses of its trace would have written there.
pub fn answers<R: Wait>(rt: &R, alloc: Global, rows: &[String]) -> Result<String, AllocError> {
    let mut answers = String::new(alloc);
    let mut trace = Vec::new(alloc);
    for row in rows {
        if read_profile(row.as_str()).is_some() {
            answer_all(rt, alloc, &trace, &mut answers)?;
            trace.clear();
        }
        trace.push(row.as_str())?;
    }
    answer_all(rt, alloc, &trace, &mut answers)?;
    Ok(answers)
}

/// Appends what stands in the place of each row of a trace.
fn answer_all<R: Wait>(
    rt: &R,
    alloc: Global,
    rows: &[&str],
    answers: &mut String,
) -> Result<(), AllocError> {
    let (head, on_buses) = told_on_buses(alloc, rows)?;
    let at_desks = match head.profile {
        Profile::One => Vec::new(alloc),
        Profile::Two => told_at_desks(rt, alloc, &head.services, head.routers, rows)?,
    };
    for (place, told) in on_buses.iter().enumerate() {
        let at_desk = match at_desks.get(place) {
            Some(Some(told)) => Some(told.as_str()),
            _ => None,
        };
        answers.push_str(answer_of(told, at_desk))?;
        answers.push('\n')?;
    }
    Ok(())
}

/// What is told on the buses and at a desk: the line of the desk, where there is one.
fn answer_of<'a>(on_buses: &'a Option<String>, at_desk: Option<&'a str>) -> &'a str {
    match (on_buses, at_desk) {
        (None, None) => "none",
        (Some(told), None) => told.as_str(),
        (Some(told), Some(line)) if tell_the_same(told.as_str(), line) => line,
        _ => "differs",
    }
}
