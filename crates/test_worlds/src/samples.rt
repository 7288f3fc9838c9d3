//! Steps, and what is found in their log.

use bus_view::can_open;
use interleave::{Exchange, LogLine, Question, Step, World};
use match_rules::{Facts, MessageKind, Rule};
use names::{BusName, WellKnown};
use owner_queues::RequestFlags;
use seq_bus_core::{CallHead, Change, Conn, Ending, Fate, MonitorRules, Query, SharedBytes};
use std::alloc::{AllocError, Global};
use std::sync::Arc;

/// The reply that calls of the samples ask for.
const CALL: CallHead = CallHead {
    serial: 7,
    flags: 0,
};

/// A change. A connection stands as its number, a start too, a name and a rule as their texts.
#[derive(Clone, Copy)]
pub(crate) enum Deed<'a> {
    Hello,
    Leave(u64),
    Request(u64, &'a str),
    Release(u64, &'a str),
    Add(u64, &'a str),
    Remove(u64, &'a str),
    /// It becomes a monitor that is shown everything.
    Watch(u64),
    Start(u64, &'a str),
    Hold(u64, &'a str),
    Exited(&'a str, u64),
    TimedOut(&'a str, u64),
}

/// The change that is meant. There is none for a text that is no name or no rule, and where there
/// is no memory.
fn change_of(alloc: Global, deed: Deed<'_>) -> Option<Change> {
    Some(match deed {
        Deed::Hello => Change::Hello { privileged: true },
        Deed::Leave(connection) => Change::Leave { connection },
        Deed::Request(connection, name) => Change::Request {
            connection,
            name: BusName::parse(name).ok()?,
            flags: RequestFlags::from_bits(0),
        },
        Deed::Release(connection, name) => Change::Release {
            connection,
            name: BusName::parse(name).ok()?,
        },
        Deed::Add(connection, rule) => Change::AddMatch {
            connection,
            rule: Rule::parse(rule).ok()?,
        },
        Deed::Remove(connection, rule) => Change::RemoveMatch {
            connection,
            rule: Rule::parse(rule).ok()?,
        },
        Deed::Watch(connection) => Change::BecomeMonitor {
            connection,
            rules: MonitorRules::new(alloc),
        },
        Deed::Start(connection, name) => Change::Start {
            connection,
            name: BusName::parse(name).ok()?,
            call: CALL,
        },
        Deed::Hold(connection, name) => Change::Hold {
            connection,
            name: BusName::parse(name).ok()?,
            call: CALL,
            message: SharedBytes::new(Arc::new(alloc, Vec::new(alloc)).ok()?),
        },
        Deed::Exited(name, start) => Change::ChildEnded {
            name: BusName::parse(name).ok()?,
            start,
            how: Ending::Exit(1),
        },
        Deed::TimedOut(name, start) => Change::StartTimedOut {
            name: BusName::parse(name).ok()?,
            start,
        },
    })
}

/// The changes that are meant.
fn changes_of(alloc: Global, deeds: &[Deed<'_>]) -> Result<Vec<Change>, AllocError> {
    let mut changes = Vec::new(alloc);
    for deed in deeds {
        if let Some(change) = change_of(alloc, *deed) {
            changes.push(change)?;
        }
    }
    Ok(changes)
}

/// A seat publishes these changes together.
pub(crate) fn publishes<'a>(
    alloc: Global,
    seat: u8,
    deeds: &[Deed<'_>],
) -> Result<Step<'a>, AllocError> {
    let changes = changes_of(alloc, deeds)?;
    Ok(Step::Publish { seat, changes })
}

/// A seat is refused these changes.
pub(crate) fn is_refused<'a>(
    alloc: Global,
    seat: u8,
    deeds: &[Deed<'_>],
) -> Result<Step<'a>, AllocError> {
    let changes = changes_of(alloc, deeds)?;
    Ok(Step::Refused { seat, changes })
}

/// A seat asks at this place which names there are.
pub(crate) fn lists_names<'a>(seat: u8, place: usize) -> Step<'a> {
    Step::Read {
        seat,
        place,
        question: Question::Ask(Query::ListNames),
    }
}

/// A seat asks at this place where a message goes.
pub(crate) fn routes<'a>(seat: u8, place: usize, from: u64, facts: Facts<'a>) -> Step<'a> {
    Step::Read {
        seat,
        place,
        question: Question::Route { from, facts },
    }
}

/// A seat takes the note of the publication that ended there.
pub(crate) fn takes_note<'a>(seat: u8, place: usize) -> Step<'a> {
    Step::TakeNote { seat, place }
}

/// A call to a name.
pub(crate) fn call_to(name: &str) -> Facts<'_> {
    Facts {
        kind: MessageKind::MethodCall,
        auto_start: true,
        sender: 0,
        path: Some("/"),
        interface: None,
        member: Some("Ping"),
        destination: Some(name),
        arguments: &[],
    }
}

/// The name that a program can be started for.
pub(crate) const SERVICE: &str = "com.example.Clock";

/// The services of the world of the samples. There is none where there is no memory.
pub(crate) fn services(alloc: Global) -> Result<Vec<WellKnown>, AllocError> {
    let mut services = Vec::new(alloc);
    if let Ok(name) = WellKnown::parse(SERVICE) {
        services.push(name)?;
    }
    Ok(services)
}

/// The world of a bus with two routers and one service; none where there is no memory.
pub(crate) fn two_routers(alloc: Global) -> Option<World> {
    let services = services(alloc).ok()?;
    if !can_open(services.as_slice(), 2) {
        return None;
    }
    World::new(alloc, services.as_slice(), 2).ok()
}

/// Whether these are the places of a log.
pub(crate) fn has_places(lines: &[LogLine<'_>], places: &[usize]) -> bool {
    lines.len() == places.len()
        && lines
            .iter()
            .zip(places)
            .all(|(line, place)| line.place == *place)
}

/// Whether a line tells that a message goes to these connections.
pub(crate) fn goes_to(line: Option<&LogLine<'_>>, numbers: &[u64]) -> bool {
    let Some(line) = line else {
        return false;
    };
    match &line.exchange {
        Exchange::Verdict { verdict, .. } => has_numbers(verdict.to.as_slice(), numbers),
        _ => false,
    }
}

/// Whether a line tells that a message is shown to these monitors.
pub(crate) fn is_shown_to(line: Option<&LogLine<'_>>, numbers: &[u64]) -> bool {
    let Some(line) = line else {
        return false;
    };
    match &line.exchange {
        Exchange::Verdict { verdict, .. } => has_numbers(verdict.monitors.as_slice(), numbers),
        _ => false,
    }
}

fn has_numbers(connections: &[Conn], numbers: &[u64]) -> bool {
    connections.len() == numbers.len()
        && connections
            .iter()
            .zip(numbers)
            .all(|(conn, number)| conn.number == *number)
}

/// Whether a line tells that these tickets wait no longer, and have become this.
pub(crate) fn settles(line: Option<&LogLine<'_>>, fate: Fate, numbers: &[u64]) -> bool {
    let Some(line) = line else {
        return false;
    };
    let Exchange::Outcome { outcome, .. } = &line.exchange else {
        return false;
    };
    let tickets = outcome.tickets.as_slice();
    tickets.len() == numbers.len()
        && tickets.iter().zip(numbers).all(|(settled, number)| settled.fate == fate
            && settled.ticket.number == *number)
}
