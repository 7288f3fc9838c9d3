//! A service that is read, started and given up, where one allocation may be refused.

use names::BusName;
use seq_bus_core::{Change, Ending};
use service_files::{FileFault, Service, read};
use std::alloc::{AllocError, Global};
use supervisor::{Deed, Event, Supervisor};

const FILE: &[u8] = b"[D-BUS Service]\nName=com.example.Clock\nExec=clockd  --bus\n";

/// Whether the file describes what it should; an error where memory was refused.
fn is_read(alloc: Global) -> Result<bool, AllocError> {
    match read(alloc, FILE) {
        Ok(service) => Ok(is_clock(&service)),
        Err(FileFault::NoMemory) => Err(AllocError),
        Err(_) => Ok(false),
    }
}

fn is_clock(service: &Service) -> bool {
    let mut arguments = service.arguments();
    service.name().as_str() == "com.example.Clock"
        && service.program() == "clockd"
        && matches!(arguments.next(), Some("--bus"))
        && arguments.next().is_none()
}

/// The deeds of an event, at the second try where memory was refused at the first.
fn deeds(supervisor: &mut Supervisor, event: &Event) -> Result<Vec<Deed>, AllocError> {
    match supervisor.event(event) {
        Ok(deeds) => Ok(deeds),
        Err(_) => supervisor.event(event),
    }
}

/// Whether two starts are run, and given up one by one, as they should be.
fn is_supervised(alloc: Global) -> Result<bool, AllocError> {
    let mut supervisor = Supervisor::new(alloc);
    let Ok(name) = BusName::parse("com.example.Clock") else {
        return Ok(false);
    };
    let asked = deeds(&mut supervisor, &Event::Asked { name, start: 1 })?;
    let second = deeds(&mut supervisor, &Event::Asked { name, start: 2 })?;
    let killed = deeds(&mut supervisor, &Event::Killed { start: 1 })?;
    let late = deeds(&mut supervisor, &Event::Tick { now: 25_000 })?;
    let later = deeds(&mut supervisor, &Event::Tick { now: 50_000 })?;
    Ok(
        matches!(asked.as_slice(), [Deed::Run { start: 1, .. }])
            && matches!(second.as_slice(), [Deed::Run { start: 2, .. }])
            && matches!(
                killed.as_slice(),
                [Deed::Report(Change::ChildEnded {
                    start: 1,
                    how: Ending::Killed,
                    ..
                })]
            )
            && matches!(
                late.as_slice(),
                [Deed::Report(Change::StartTimedOut { start: 2, .. })]
            )
            && later.is_empty(),
    )
}

/// Whether both answer as they should, at the second try where memory was refused at the first: a
/// refused call of the supervisor has changed nothing.
pub fn is_answered(alloc: Global) -> bool {
    let is_read = match is_read(alloc) {
        Ok(is_right) => is_right,
        Err(_) => is_read(alloc).unwrap_or(false),
    };
    is_read && is_supervised(alloc).unwrap_or(false)
}

/// `refused`: whether calls are answered as they should be whichever one allocation is refused.
pub fn refused(alloc: Global) -> Result<String, AllocError> {
    String::from_str(
        alloc,
        if is_answered(alloc) {
            "as it should be"
        } else {
            "wrong"
        },
    )
}
