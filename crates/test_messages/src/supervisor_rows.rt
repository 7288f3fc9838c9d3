//! Rows of events of a supervisor.

use names::BusName;
use seq_bus_core::{Change, Ending};
use std::alloc::{AllocError, Global};
use supervisor::{Deed, Event, Supervisor};
use test_support::Row;

fn ending(alloc: Global, how: Ending) -> Result<String, AllocError> {
    match how {
        Ending::Exit(status) => format!(in alloc; "exit {status}"),
        Ending::Killed => String::from_str(alloc, "killed"),
        Ending::NotRun => String::from_str(alloc, "not run"),
    }
}

fn deed(alloc: Global, deed: &Deed) -> Result<String, AllocError> {
    match deed {
        Deed::Run { name, start } => format!(in alloc; "run {name} as {start}"),
        Deed::Report(Change::ChildEnded { name, start, how }) => {
            let how = ending(alloc, *how)?;
            format!(in alloc; "report {name} {start}: {how}")
        }
        Deed::Report(Change::StartTimedOut { name, start }) => {
            format!(in alloc; "report {name} {start}: timed out")
        }
        Deed::Report(_) => String::from_str(alloc, "report another change"),
    }
}

/// The event that a row tells; none where it tells none.
fn told(row: &Row<'_>) -> Option<Event> {
    let start = row.number(1);
    match row.text(0) {
        "asked" => {
            let name = BusName::parse(row.text(2)).ok()?;
            Some(Event::Asked { name, start })
        }
        "ran" => Some(Event::Ran { start }),
        "not-run" => Some(Event::NotRun { start }),
        "exited" => Some(Event::Exited {
            start,
            status: row.number(2),
        }),
        "killed" => Some(Event::Killed { start }),
        "tick" => Some(Event::Tick { now: start }),
        _ => None,
    }
}

/// `due`: the moment when the first start has had its time, or `nothing`.
pub fn due(alloc: Global, supervisor: &Supervisor) -> Result<String, AllocError> {
    match supervisor.due() {
        Some(moment) => format!(in alloc; "{moment}"),
        None => String::from_str(alloc, "nothing"),
    }
}

/// `asked | START | NAME`, `ran | START`, `not-run | START`, `exited | START | STATUS`, `killed |
/// START`, `tick | NOW`: what is to be done, or `nothing`.
pub fn event(
    alloc: Global,
    row: &Row<'_>,
    supervisor: &mut Supervisor,
) -> Result<String, AllocError> {
    let Some(event) = told(row) else {
        return String::from_str(alloc, "no event");
    };
    let deeds = supervisor.event(&event)?;
    let mut text = String::new(alloc);
    for each in &deeds {
        if !text.is_empty() {
            text.push_str(", ")?;
        }
        text.push_str(deed(alloc, each)?.as_str())?;
    }
    if text.is_empty() {
        text.push_str("nothing")?;
    }
    Ok(text)
}
