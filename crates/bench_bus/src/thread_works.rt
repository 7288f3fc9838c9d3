//! Seats in threads of their own: some are measured, while others do something else.
//!
//! Whoever is measured says when it is done, and the others go on until then.

use crate::bus::Bus;
use crate::samples::{OTHER_RULE, call};
use anyhow::{Result, ensure};
use bench_core::Report;
use match_rules::Rule;
use registry_snapshots::{Naming, Seat};
use std::io;
use std::sync::Wait;
use std::sync::atomic::{AtomicBool, Ordering};
use std::thread::{Threads, for_each_mut, join};
use std::time::{Clock, Instant};

/// How many routes a seat makes in a turn.
const ROUTES: u64 = 4_000;

/// How many pairs of changes are made in a turn where they are timed. Where not, there are as many
/// as there are rounds.
const PAIRS: u64 = 2_000;

/// The best of so many turns is told.
const TURNS: u64 = 10;

/// As often it is done at most while others are measured.
const MOST: u64 = 100_000_000;

/// What is measured: changes, while so many seats read, or as many seats that read, while one makes
/// changes.
const RUNS: [(&str, bool, usize); 5] = [
    ("changes: AddMatch or RemoveMatch, no seat reads", true, 0),
    ("changes: AddMatch or RemoveMatch, 7 seats read", true, 7),
    ("reads: a route by 1 seat, while one changes", false, 1),
    ("reads: a route by 2 seats, while one changes", false, 2),
    ("reads: a route by 4 seats, while one changes", false, 4),
];

/// A seat that reads, and what it found.
#[derive(Drop)]
pub struct Reader<J: Naming> {
    pub seat: Seat<J>,
    pub found: u64,
}

/// The checksum of changes has 1,000,003 for each that is made, and 1 for each seat that reads
/// meanwhile: with 64 rounds 128,000,384, and 7 more with seven seats. That of routes has 1 for
/// each call that arrives, 4,000 for each seat, and 1,000,003 for the seat that makes changes
/// meanwhile.
pub fn measure<J: Naming + Send + Sync, R: Print + Clock + Threads + Wait + Sync>(
    report: &Report<'_, R>,
    bus: &mut Bus<'_, J, R>,
    readers: &mut [Reader<J>],
) -> Result<()> {
    let pairs = if report.timed { PAIRS } else { report.rounds };
    let turns = if report.timed { TURNS } else { 1 };
    for (name, is_change, count) in RUNS {
        ensure!(count < readers.len(), "there are nine seats");
        let mut sum = 0;
        let mut best = u64::MAX;
        for _ in 0..turns {
            let readers = &mut readers[1..=count];
            let (found, took) = turn(bus, is_change, pairs, readers);
            sum = found;
            best = best.min(took);
        }
        let rounds = if is_change {
            pairs.saturating_mul(2)
        } else {
            ROUTES
        };
        report.tell_run(name, sum, rounds, best)?;
    }
    Ok(())
}

/// Makes changes and reads at once: what is found, and the nanoseconds of what is measured.
fn turn<J: Naming + Send + Sync, R: Clock + Threads + Wait + Sync>(
    bus: &mut Bus<'_, J, R>,
    is_change: bool,
    pairs: u64,
    readers: &mut [Reader<J>],
) -> (u64, u64) {
    let rt = bus.rt;
    let flag = AtomicBool::new(false);
    let done = &flag;
    let pairs = if is_change { pairs } else { MOST };
    let routes = if is_change { MOST } else { ROUTES };
    let ((made, changing), (found, reading)) = join(
        rt,
        move || change(done, pairs, bus),
        move || read_all(rt, done, routes, readers),
    );
    let took = if is_change { changing } else { reading };
    (made.wrapping_mul(1_000_003).wrapping_add(found), took)
}

/// So many times, or until others are done, gives connection 1 a rule and takes it away: how many
/// changes are made, or 1 where they are, and the nanoseconds.
fn change<J: Naming, R: Clock + Wait>(
    done: &AtomicBool,
    pairs: u64,
    bus: &mut Bus<'_, J, R>,
) -> (u64, u64) {
    let rule = Rule::parse(OTHER_RULE).unwrap_or_default();
    let start = Instant::now(bus.rt);
    let mut made = 0u64;
    for _ in 0..pairs {
        made = made.wrapping_add(bus.change_in_turn(&rule, 1));
        if done.load(Ordering::SeqCst) {
            made = made.min(1);
            break;
        }
    }
    let took = nanoseconds(bus.rt, start);
    if pairs < MOST {
        done.store(true, Ordering::SeqCst);
    }
    (made, took)
}

/// Reads in all seats at the same time: the sum of what they find, and the nanoseconds.
fn read_all<J: Naming + Send + Sync, R: Clock + Threads + Sync>(
    rt: &R,
    done: &AtomicBool,
    routes: u64,
    readers: &mut [Reader<J>],
) -> (u64, u64) {
    let start = Instant::now(rt);
    for_each_mut(
        rt,
        readers,
        7,
        &|_, reader| { read(done, routes, &mut *reader) },
    );
    let took = nanoseconds(rt, start);
    if routes < MOST {
        done.store(true, Ordering::SeqCst);
    }
    let mut found = 0u64;
    for reader in readers.iter() {
        found = found.wrapping_add(reader.found);
    }
    (found, took)
}

/// Routes so many calls, or until others are done: it finds how many arrive, or 1 where they do.
fn read<J: Naming>(done: &AtomicBool, routes: u64, reader: &mut Reader<J>) {
    let facts = call();
    let mut found = 0u64;
    for _ in 0..routes {
        if let Ok(verdict) = reader.seat.route(1, &facts) {
            found = found.wrapping_add(verdict.to.as_slice().len() as u64);
        }
        if done.load(Ordering::SeqCst) {
            found = found.min(1);
            break;
        }
    }
    reader.found = found;
}

/// How many nanoseconds have passed, if the clock can be read.
fn nanoseconds<R: Clock>(rt: &R, start: io::Result<Instant>) -> u64 {
    let Ok(start) = start else {
        return u64::MAX;
    };
    match start.elapsed(rt) {
        Ok(took) => u64::try_from(took.as_nanos()).unwrap_or(u64::MAX),
        Err(_) => u64::MAX,
    }
}
