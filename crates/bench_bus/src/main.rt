//! How fast the registry is that several routers share, by its seats: what is routed, what is
//! changed, and both at once in threads.
//!
//! `plain`, those works that tables behind a lock do too (`rust/`), prints the same checksums.
//! `make` in `rust/` runs both.
#![tactic(auto)]

ghost use Rattle.std.specs.Prelude.{◌≡◌, [], ◌∷◌};
ghost use Rattle.owner_queues.specs.declared.request.Profile.TheVariants.{Two};
ghost use Rattle.seq_bus_core.specs.Tickets.{opening_bus};
ghost use Rattle.registry_snapshots.specs.Openings.{identity};

mod bus;
mod samples;
mod thread_works;
mod works;

use crate::bus::Bus;
use crate::samples::{CONNECTIONS, ROUTERS, SERVICE};
use crate::thread_works::Reader;
use crate::works::Doing;
use anyhow::{Context, Result};
use bench_core::{Opening, Report, close, open};
use names::WellKnown;
use registry_snapshots::{Naming, NewHistory, Seat, Shared};
use seq_bus_core::Change;
use std::alloc::Global;
use std::marker::Brand;
use std::process::ExitCode;
use std::sync::Wait;
use std::thread::Threads;
use std::time::Clock;

/// A part of what is measured, on a registry of its own.
#[derive(Clone, Copy)]
enum Part {
    Signals,
    Changes,
    Threads,
}

/// Measures everything, one part after the other, or one of them.
fn measure<R: Print + Clock + Threads + Wait + Sync>(
    alloc: Global,
    report: &Report<'_, R>,
) -> Result<()> {
    let service = WellKnown::parse(SERVICE)?;
    for (name, part) in [
        ("signals", Part::Signals),
        ("changes", Part::Changes),
        ("threads", Part::Threads),
    ] {
        if report.covers(name) {
            measure_opened::<Brand, R>(alloc, report, NewHistory::new(), service, part)?;
        }
    }
    Ok(())
}

fn measure_opened<J: Naming + Send + Sync, R: Print + Clock + Threads + Wait + Sync>(
    alloc: Global,
    report: &Report<'_, R>,
    opened: NewHistory,
    service: WellKnown,
    part: Part,
) -> Result<()>
    requires { (opened ≡ identity J.book J.name J.parts)
        × (J.opening ≡ opening_bus Two ROUTERS (service ∷ [])) }
{
    let opened = Shared::<J>::new(report.rt, alloc, opened, &[service], ROUTERS);
    let (shared, seats) = opened.ok().context("the registry is not opened")?;
    let measured = measure_seats(alloc, report, &shared, seats, part);
    shared.end(report.rt);
    measured
}

fn measure_seats<J: Naming + Send + Sync, R: Print + Clock + Threads + Wait + Sync>(
    alloc: Global,
    report: &Report<'_, R>,
    shared: &Shared<J>,
    mut seats: Vec<Seat<J>>,
    part: Part,
) -> Result<()> {
    let seat = seats.pop().context("there are nine seats")?;
    let mut doing = Doing::at(Bus {
        rt: report.rt,
        alloc,
        shared,
        seat,
    });
    let measured = measure_part(report, &mut doing, seats, part);
    drop(doing);
    measured
}

fn measure_part<J: Naming + Send + Sync, R: Print + Clock + Threads + Wait + Sync>(
    report: &Report<'_, R>,
    doing: &mut Doing<'_, J, R>,
    others: Vec<Seat<J>>,
    part: Part,
) -> Result<()> {
    for _ in 0..CONNECTIONS {
        let hello = Change::Hello { privileged: false };
        doing.bus.make(hello).context("a Hello is refused")?;
    }
    match part {
        Part::Signals => works::signals(report, doing),
        Part::Changes => works::changes(report, doing),
        Part::Threads => measure_threads(report, &mut doing.bus, others),
    }
}

fn measure_threads<J: Naming + Send + Sync, R: Print + Clock + Threads + Wait + Sync>(
    report: &Report<'_, R>,
    bus: &mut Bus<'_, J, R>,
    others: Vec<Seat<J>>,
) -> Result<()> {
    let mut readers = Vec::new(bus.alloc);
    for seat in others {
        readers.push(Reader { seat, found: 0 })?;
    }
    let measured = thread_works::measure(report, bus, &mut readers);
    drop(readers);
    measured
}

fn main(rt: HostRuntime) -> Result<ExitCode> {
    let about = "How fast the registry is that several routers share";
    let parts = ["signals", "changes", "threads"];
    match open(&rt, "bench-bus", about, &parts)? {
        Opening::Report(report) => Ok(close(&rt, "bench-bus", measure(rt.alloc(), &report))),
        Opening::Ended(status) => Ok(status),
    }
}
