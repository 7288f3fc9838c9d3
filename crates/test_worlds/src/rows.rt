//! Rows of steps, whose logs are worked out by hand.

use crate::samples::{
    Deed, SERVICE, call_to, goes_to, has_places, is_refused, is_shown_to, lists_names, publishes,
    routes, settles, takes_note, two_routers,
};
use interleave::{LogLine, Step, run};
use seq_bus_core::Fate;
use std::alloc::{AllocError, Global};
use test_support::ticked;

const A: &str = "com.example.A";

/// A step. Seats, places and connections stand as their numbers.
#[derive(Clone, Copy)]
enum Row<'a> {
    /// A seat publishes these changes together.
    Publishes(u8, &'a [Deed<'a>]),
    /// A seat is refused these changes.
    IsRefused(u8, &'a [Deed<'a>]),
    /// A seat asks at a place which names there are.
    ListsNames(u8, usize),
    /// A seat asks at a place where a call to a name goes that a connection makes.
    Calls(u8, usize, u64, &'a str),
    /// The same of the signal of a clock.
    Ticks(u8, usize, u64),
    /// A seat takes the note of the publication that ended there.
    TakesNote(u8, usize),
}

/// What a line of the log says.
#[derive(Clone, Copy)]
enum Says<'a> {
    /// The message goes to these connections.
    GoesTo(&'a [u64]),
    /// It is shown to these monitors.
    IsShownTo(&'a [u64]),
    /// These tickets wait no longer, and have become this.
    Settles(Fate, &'a [u64]),
}

struct Case<'a> {
    name: &'a str,
    rows: &'a [Row<'a>],
    /// The places of the lines of the log.
    places: &'a [usize],
    /// What lines say, each with its number.
    lines: &'a [(usize, Says<'a>)],
}

const CASES: [Case; 6] = [
    Case {
        name: "a call goes to a name of another router once the note of its request was taken",
        rows: &[
            Row::Publishes(1, &[Deed::Hello]),
            Row::Publishes(2, &[Deed::Hello]),
            Row::Publishes(1, &[Deed::Request(1, A)]),
            Row::Calls(2, 2, 2, A),
            Row::TakesNote(2, 3),
            Row::Calls(2, 2, 2, A),
            Row::Calls(2, 3, 2, A),
        ],
        places: &[1, 2, 3, 2, 3],
        lines: &[(3, Says::GoesTo(&[])), (4, Says::GoesTo(&[1]))],
    },
    Case {
        name: "a rule with a name as its sender fits what the name's owner sends, as long as it is",
        rows: &[
            Row::Publishes(1, &[Deed::Hello]),
            Row::Publishes(2, &[Deed::Hello]),
            Row::Publishes(2, &[Deed::Add(2, "sender='com.example.A'")]),
            Row::Publishes(1, &[Deed::Request(1, A)]),
            Row::Ticks(2, 4, 1),
            Row::Publishes(1, &[Deed::Release(1, A)]),
            Row::Publishes(2, &[Deed::Request(2, A)]),
            Row::Ticks(1, 4, 1),
            Row::Ticks(1, 6, 1),
        ],
        places: &[1, 2, 3, 4, 4, 5, 6, 6],
        lines: &[(4, Says::GoesTo(&[2])), (7, Says::GoesTo(&[]))],
    },
    Case {
        name: "a seat that takes a note of less than it has seen reads no earlier",
        rows: &[
            Row::Publishes(1, &[Deed::Hello]),
            Row::Publishes(2, &[Deed::Hello]),
            Row::TakesNote(2, 1),
            Row::ListsNames(2, 1),
            Row::IsRefused(1, &[Deed::Hello]),
        ],
        places: &[1, 2],
        lines: &[],
    },
    Case {
        name: "nobody reads within a batch, which is neither empty nor too large nor of no seat",
        rows: &[
            Row::Publishes(1, &[Deed::Hello]),
            Row::ListsNames(2, 1),
            Row::Publishes(
                1,
                &[
                    Deed::Add(1, "arg0='a'"),
                    Deed::Add(1, "arg0='b'"),
                    Deed::Add(1, "arg0='c'"),
                    Deed::Remove(1, "arg0='b'"),
                ],
            ),
            Row::ListsNames(2, 3),
            Row::ListsNames(2, 1),
            Row::ListsNames(2, 5),
            Row::ListsNames(2, 1),
            Row::Publishes(2, &[]),
            Row::Publishes(2, &[Deed::Leave(1); 65]),
            Row::Publishes(3, &[Deed::Leave(1)]),
            Row::ListsNames(0, 5),
        ],
        places: &[1, 1, 2, 3, 4, 5, 1, 5, 5],
        lines: &[],
    },
    Case {
        name: "who requests a name is told the calls of two seats that waited for it, in order",
        rows: &[
            Row::Publishes(1, &[Deed::Hello]),
            Row::Publishes(2, &[Deed::Hello]),
            Row::Publishes(2, &[Deed::Hold(2, SERVICE)]),
            Row::Publishes(1, &[Deed::Start(1, SERVICE)]),
            Row::Publishes(1, &[Deed::Request(1, SERVICE)]),
            Row::Calls(2, 4, 2, SERVICE),
            Row::Calls(2, 5, 2, SERVICE),
            Row::Publishes(0, &[Deed::Exited(SERVICE, 1)]),
        ],
        places: &[1, 2, 3, 4, 5, 4, 5, 6],
        lines: &[
            (3, Says::Settles(Fate::Served, &[])),
            (4, Says::Settles(Fate::Served, &[1, 2])),
            (5, Says::GoesTo(&[])),
            (6, Says::GoesTo(&[1])),
            (7, Says::Settles(Fate::Failed, &[])),
        ],
    },
    Case {
        name: "a monitor is shown a message once its note was taken, and is sent none any more",
        rows: &[
            Row::Publishes(1, &[Deed::Hello]),
            Row::Publishes(2, &[Deed::Hello]),
            Row::Publishes(1, &[Deed::Add(1, "")]),
            Row::Publishes(1, &[Deed::Watch(1)]),
            Row::Ticks(2, 3, 2),
            Row::TakesNote(2, 4),
            Row::Ticks(2, 3, 2),
            Row::Ticks(2, 4, 2),
        ],
        places: &[1, 2, 3, 4, 3, 4],
        lines: &[
            (4, Says::GoesTo(&[1])),
            (4, Says::IsShownTo(&[])),
            (5, Says::GoesTo(&[])),
            (5, Says::IsShownTo(&[1])),
        ],
    },
];

fn step_of<'a>(alloc: Global, row: Row<'a>) -> Result<Step<'a>, AllocError> {
    match row {
        Row::Publishes(seat, deeds) => publishes(alloc, seat, deeds),
        Row::IsRefused(seat, deeds) => is_refused(alloc, seat, deeds),
        Row::ListsNames(seat, place) => Ok(lists_names(seat, place)),
        Row::Calls(seat, place, from, name) => Ok(routes(seat, place, from, call_to(name))),
        Row::Ticks(seat, place, from) => Ok(routes(seat, place, from, ticked())),
        Row::TakesNote(seat, place) => Ok(takes_note(seat, place)),
    }
}

fn steps_of<'a>(alloc: Global, rows: &[Row<'a>]) -> Result<Vec<Step<'a>>, AllocError> {
    let mut steps = Vec::new(alloc);
    for row in rows {
        steps.push(step_of(alloc, *row)?)?;
    }
    Ok(steps)
}

fn is_said(line: Option<&LogLine<'_>>, expected: Says<'_>) -> bool {
    match expected {
        Says::GoesTo(numbers) => goes_to(line, numbers),
        Says::IsShownTo(numbers) => is_shown_to(line, numbers),
        Says::Settles(fate, numbers) => settles(line, fate, numbers),
    }
}

/// Whether a log says what a case has.
fn says_all(lines: &[LogLine<'_>], case: &Case<'_>) -> bool {
    has_places(lines, case.places)
        && case
            .lines
            .iter()
            .all(|(place, expected)| is_said(lines.get(*place), *expected))
}

/// Whether the log of a case, in a world of two routers, says what it has to.
fn is_logged(alloc: Global, case: &Case<'_>) -> Result<bool, AllocError> {
    let Some(world) = two_routers(alloc) else {
        return Err(AllocError);
    };
    let steps = steps_of(alloc, case.rows)?;
    let log = run(alloc, &world, steps.as_slice())?;
    Ok(says_all(log.lines.as_slice(), case))
}

#[test]
fn cases(rt: HostRuntime) {
    for case in &CASES {
        assert!(rt; is_logged(rt.alloc(), case) == Ok(true), "{}", case.name);
    }
}
