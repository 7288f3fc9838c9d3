//! What the queries of a trace are answered.

use names::{BusName, UniqueName};
use registry::Registry;
use seq_bus_core::Query;
use std::alloc::{AllocError, Global};
use trace_lines::{AnswerWords, Draft, write_query_line};

const BUS: &str = "org.freedesktop.DBus";

/// The line of a query.
fn query_line(
    alloc: Global,
    place: u64,
    seat: u64,
    query: &Query,
    answer: Option<AnswerWords<'_>>,
) -> Result<String, AllocError> {
    let mut line = Draft::new(alloc);
    write_query_line(&mut line, place, seat, query, answer)?;
    Ok(line.into_string())
}

/// The line of a query that lists names.
fn listed(
    alloc: Global,
    place: u64,
    seat: u64,
    query: &Query,
    names: &[BusName],
) -> Result<String, AllocError> {
    let mut texts = Vec::new(alloc);
    for name in names {
        texts.push(name.as_str())?;
    }
    query_line(
        alloc,
        place,
        seat,
        query,
        Some(AnswerWords::NameList(&texts)),
    )
}

/// The owner of a name, by its name.
fn owner(registry: &Registry, name: &BusName) -> Option<BusName> {
    if name.is_bus() {
        return Some(BusName::bus());
    }
    let number = registry.owner(name)?;
    Some(BusName::from(UniqueName::of(number)))
}

fn queued(alloc: Global, registry: &Registry, name: &BusName) -> Result<Vec<BusName>, AllocError> {
    let mut names = Vec::new(alloc);
    for waiting in registry.queue(name.as_str()) {
        names.push(BusName::from(UniqueName::of(waiting.connection)))?;
    }
    Ok(names)
}

/// The names that have owners, of which a monitor is none.
fn all_names(alloc: Global, registry: &Registry) -> Result<Vec<BusName>, AllocError> {
    let mut names = Vec::new(alloc);
    names.push(BusName::bus())?;
    for member in registry.connections() {
        let number = member.conn.number;
        if registry.is_client(number) {
            names.push(BusName::from(UniqueName::of(number)))?;
        }
    }
    for entry in registry.names() {
        names.push(entry.name)?;
    }
    Ok(names)
}

fn services(alloc: Global, registry: &Registry) -> Result<Vec<BusName>, AllocError> {
    let mut names = Vec::new(alloc);
    names.push(BusName::bus())?;
    for service in registry.services() {
        names.push(BusName::from(*service))?;
    }
    Ok(names)
}

/// The line of a query of a registry.
pub fn answered(
    alloc: Global,
    place: u64,
    seat: u64,
    query: &Query,
    registry: &Registry,
) -> Result<String, AllocError> {
    match query {
        Query::GetNameOwner(name) => match owner(registry, name) {
            Some(owner) => {
                let answer = AnswerWords::OneName(owner.as_str());
                query_line(alloc, place, seat, query, Some(answer))
            }
            None => query_line(alloc, place, seat, query, None),
        },
        Query::NameHasOwner(name) => {
            let answer = AnswerWords::HasOwner(owner(registry, name).is_some());
            query_line(alloc, place, seat, query, Some(answer))
        }
        Query::ListNames => {
            let names = all_names(alloc, registry)?;
            listed(alloc, place, seat, query, &names)
        }
        Query::ListActivatableNames => {
            let names = services(alloc, registry)?;
            listed(alloc, place, seat, query, &names)
        }
        Query::ListQueuedOwners(name) => {
            let names = queued(alloc, registry, name)?;
            if names.is_empty() {
                return query_line(alloc, place, seat, query, None);
            }
            listed(alloc, place, seat, query, &names)
        }
    }
}
