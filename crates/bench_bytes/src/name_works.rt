//! Names.

use anyhow::Result;
use bench_core::{Report, Work};
use names::{ObjectPath, UniqueName, WellKnown};
use std::time::Clock;

pub fn measure<R: Print + Clock>(report: &Report<'_, R>) -> Result<()> {
    report.tell(&mut ParseUnique)?;
    report.tell(&mut ParseWellKnown)?;
    report.tell(&mut ParsePath)?;
    Ok(())
}

#[derive(Drop)]
struct ParseUnique;

impl Work for ParseUnique {
    fn name(&self) -> &'static str {
        "names: parse a unique name"
    }

    fn once(&mut self, round: u64) -> u64 {
        let texts = [":1.42", ":1.100042"];
        match UniqueName::parse(texts[(round % 2) as usize]) {
            Ok(name) => name.as_str().len() as u64,
            Err(_) => 0,
        }
    }
}

#[derive(Drop)]
struct ParseWellKnown;

impl Work for ParseWellKnown {
    fn name(&self) -> &'static str {
        "names: parse a well-known name"
    }

    fn once(&mut self, round: u64) -> u64 {
        let texts = ["org.freedesktop.DBus", "org.freedesktop.login1"];
        match WellKnown::parse(texts[(round % 2) as usize]) {
            Ok(name) => name.as_str().len() as u64,
            Err(_) => 0,
        }
    }
}

#[derive(Drop)]
struct ParsePath;

impl Work for ParsePath {
    fn name(&self) -> &'static str {
        "names: parse an object path"
    }

    fn once(&mut self, round: u64) -> u64 {
        let texts = ["/org/freedesktop/DBus", "/org/freedesktop/login1"];
        match ObjectPath::parse(texts[(round % 2) as usize]) {
            Ok(path) => path.as_str().len() as u64,
            Err(_) => 0,
        }
    }
}
