//! How fast the byte layer of the bus is: names, match rules, the codec, messages.
//!
//! `plain`, the same works in plain Rust (`rust/`), prints the same checksums. `make` in `rust/`
//! runs both.
#![tactic(auto)]

mod codec_works;
mod message_works;
mod name_works;
mod rule_works;
mod samples;

use anyhow::Result;
use bench_core::{Opening, Report, close, open};
use std::alloc::Global;
use std::process::ExitCode;
use std::time::Clock;

/// The parts of what is measured.
const PARTS: &[&str] = &["names", "rules", "codec", "messages"];

/// Measures everything, one crate after the other, or one part of it.
fn measure<R: Print + Clock>(alloc: Global, report: &Report<'_, R>) -> Result<()> {
    if report.covers("names") {
        name_works::measure(report)?;
    }
    if report.covers("rules") {
        rule_works::measure(report)?;
    }
    if report.covers("codec") {
        codec_works::measure(alloc, report)?;
    }
    if report.covers("messages") {
        message_works::measure(alloc, report)?;
    }
    Ok(())
}

fn main(rt: HostRuntime) -> Result<ExitCode> {
    match open(
        &rt,
        "bench-bytes",
        "How fast the byte layer of the bus is",
        PARTS,
    )? {
        Opening::Report(report) => Ok(close(&rt, "bench-bytes", measure(rt.alloc(), &report))),
        Opening::Ended(status) => Ok(status),
    }
}
