//! How fast the host of a router is, from the bytes that its clients send to those that they are
//! written.
//!
//! The clients are in memory; the host works over the desk of a seat and lanes, as in the daemon.
#![tactic(auto)]

mod client;
mod messages;
mod rounds;
mod scenes;
mod stage;

use crate::scenes::SCENES;
use crate::stage::Stage;
use anyhow::{Result, bail};
use bench_core::{Opening, Report, close, open};
use registry_snapshots::start;
use std::alloc::Global;
use std::process::ExitCode;
use std::sync::Wait;
use std::time::Clock;

/// Measures every scene, each over a registry of its own.
fn measure<R: Print + Clock + Wait>(alloc: Global, report: &Report<'_, R>) -> Result<()> {
    for scene in SCENES {
        let stage = Stage {
            report: &*report,
            alloc,
            scene,
        };
        match start(report.rt, alloc, &[], 1, stage) {
            Ok(measured) => measured?,
            Err(fault) => bail!("no registry: {fault}"),
        }
    }
    Ok(())
}

fn main(rt: HostRuntime) -> Result<ExitCode> {
    let about = "How fast the host of a router is";
    match open(&rt, "bench-host", about, &[])? {
        Opening::Report(report) => Ok(close(&rt, "bench-host", measure(rt.alloc(), &report))),
        Opening::Ended(status) => Ok(status),
    }
}
