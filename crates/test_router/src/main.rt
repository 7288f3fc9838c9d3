//! What clients of a message bus see on their sockets, as the rows of a table say.
//!
//! A row is a line of standard input, and the line of the same number answers it with all that it
//! brought; `-` is nothing. Empty lines and headings (`#`) stand in both. Rows are steps of a
//! scenario, which goes on up to the next one. One that begins with `bus` is played by the daemon's
//! own hosts over sockets in memory; [`scene`] says what a row of it may ask. One that begins with
//! `engine` is about an engine alone, which no host serves; [`engine_scene`] says what a row of it
//! may ask.
//!
//! - `bus plain N`, `bus registry N`: a bus of N routers, as one thread has it or as several share
//!   it. The plain one has one router, which has the places of one of N. `bus both N`: each of the
//!   two, one after the other, which must answer the same.
//! - `login`, in the next row: connections may be asked who they are, and the user is `alice`.
//!   `login anonymous`: anybody may come in.
//! - `watch`, in a later row: where a call is shown that requests or releases a name, it is told
//!   whether the name has an owner then, and where it adds or removes a rule, whether a signal
//!   `Ticked` has a listener. Only the registry's first router looks.
//! - `again`: the scenario is played again byte by byte, and must answer the same. `again cut N`:
//!   also by the plain bus with the bytes of each row in two pieces, for each length of the first
//!   up to N.
#![tactic(auto)]

mod client;
mod engine_scene;
mod happening;
mod journal;
mod plain_bus;
mod scenario;
mod scene;
mod script;
mod sent;
mod shared_bus;
mod shown;
mod watch;
mod words;

use crate::scenario::{Pieces, Scenario, View};
use anyhow::{Result, ensure};
use std::alloc::Global;
use std::io::{BufRead, BufReader};
use std::sync::Wait;

/// The answers of the bus that the scenario asks for, or of each of the two, which must be the
/// same.
fn answers<R: Wait>(rt: &R, alloc: Global, scenario: Scenario<'_>) -> Result<String> {
    match scenario.view {
        View::Plain => plain_bus::play(alloc, scenario),
        View::Registry => shared_bus::play(rt, alloc, scenario),
        View::Both => {
            let plain = plain_bus::play(alloc, scenario)?;
            let shared = shared_bus::play(rt, alloc, scenario)?;
            ensure!(plain == shared, "the shared bus answers\n{shared}");
            Ok(plain)
        }
        View::Engine => engine_scene::play(alloc, scenario.rows),
    }
}

/// Whether a row begins a scenario.
fn begins(row: &str) -> bool {
    row == "engine" || row.starts_with("engine ") || row.starts_with("bus ")
}

/// Plays a scenario again with its bytes in pieces: the answers must be these.
fn play_in_pieces<R: Wait>(
    rt: &R,
    alloc: Global,
    scenario: Scenario<'_>,
    whole: &String,
) -> Result<()> {
    let cut = answers(rt, alloc, scenario.in_pieces(Pieces::ByteByByte))?;
    ensure!(cut == *whole, "byte by byte the answers are\n{cut}");
    for place in 1..=scenario.last_cut {
        let cut = plain_bus::play(alloc, scenario.in_pieces(Pieces::CutAt(place)))?;
        ensure!(cut == *whole, "cut at {place} the answers are\n{cut}");
    }
    Ok(())
}

/// The answers to the rows of a scenario.
fn play<R: Wait>(rt: &R, alloc: Global, rows: &[String]) -> Result<String> {
    let scenario = Scenario::new(rows);
    let whole = answers(rt, alloc, scenario)?;
    if scenario.is_again {
        play_in_pieces(rt, alloc, scenario, &whole)?;
    }
    Ok(whole)
}

fn main(rt: HostRuntime) -> Result<()> {
    let alloc = rt.alloc();
    let mut rows = Vec::new(alloc);
    for line in BufReader::new(alloc, rt.reader())?.lines(alloc) {
        let line = line?;
        if begins(line.as_str()) {
            let answers = play(&rt, alloc, &rows)?;
            print!(rt; "{answers}")?;
            rows.clear();
        }
        rows.push(line)?;
    }
    let answers = play(&rt, alloc, &rows)?;
    print!(rt; "{answers}")?;
    Ok(())
}
