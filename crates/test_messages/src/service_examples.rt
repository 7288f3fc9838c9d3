//! The examples of the two libraries of services, word for word.

use names::BusName;
use seq_bus_core::Change;
use service_files::{FileFault, read};
use std::alloc::{AllocError, Global};
use supervisor::{Deed, Event, Supervisor};

fn describes_clock(alloc: Global) -> Result<bool, FileFault> {
    let file = b"[D-BUS Service]\nName=com.example.Clock\nExec=/usr/bin/clockd --bus\n";
    let service = read(alloc, file)?;
    let mut arguments = service.arguments();
    Ok(
        service.name().as_str() == "com.example.Clock"
            && service.program() == "/usr/bin/clockd"
            && matches!(arguments.next(), Some("--bus"))
            && arguments.next().is_none(),
    )
}

fn gives_up(alloc: Global, name: BusName) -> Result<bool, AllocError> {
    let mut supervisor = Supervisor::new(alloc);
    supervisor.event(&Event::Tick { now: 1_000 })?;
    let asked = supervisor.event(&Event::Asked { name, start: 1 })?;
    let early = supervisor.event(&Event::Tick { now: 25_999 })?;
    let late = supervisor.event(&Event::Tick { now: 26_000 })?;
    Ok(
        matches!(asked.as_slice(), [Deed::Run { start: 1, .. }])
            && early.is_empty()
            && matches!(
                late.as_slice(),
                [Deed::Report(Change::StartTimedOut { start: 1, .. })]
            ),
    )
}

/// `example | LIBRARY`: whether its example answers as it says.
pub fn example(alloc: Global, library: &str) -> Result<String, AllocError> {
    let is_right = if library == "service_files" {
        describes_clock(alloc).unwrap_or(false)
    } else {
        match BusName::parse("com.example.Clock") {
            Ok(name) => gives_up(alloc, name)?,
            Err(_) => false,
        }
    };
    String::from_str(alloc, if is_right { "yes" } else { "no" })
}
