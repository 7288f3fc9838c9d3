//! What is printed.

use crate::plain_times::PlainTimes;
use crate::work::{Work, checksum};
use std::io;
use std::time::{Clock, Instant};

/// A run has at least so many nanoseconds: the clock's own time does not count, and most runs are
/// not interrupted.
const LONG_ENOUGH: u64 = 1_000_000;

/// The best of so many runs is told.
const RUNS: u32 = 100;

/// Where and how it is told what works find or take.
#[derive(Drop)]
pub struct Report<'a, R> {
    pub rt: &'a R,
    /// The part of the works that is told of, if not all are.
    pub part: Option<String>,
    /// Whether times are told, in place of checksums.
    pub timed: bool,
    /// How many rounds make a checksum.
    pub rounds: u64,
    pub plain: PlainTimes,
}

impl<R: Print + Clock> Report<'_, R> {
    /// Whether works of this part are told of.
    pub fn covers(&self, part: &str) -> bool {
        match &self.part {
            Some(chosen) => chosen.as_str() == part,
            None => true,
        }
    }

    /// Tells of one work: its checksum, or its time.
    pub fn tell<W: Work>(&self, work: &mut W) -> io::Result<()> {
        if self.timed {
            return self.tell_time(work);
        }
        let sum = checksum(work, self.rounds);
        println!(self.rt; "{}\t{sum:016x}", work.name())
    }

    fn tell_time<W: Work>(&self, work: &mut W) -> io::Result<()> {
        let time = self.best(work)?;
        self.print_time(work.name(), time)
    }

    /// Prints a time, in tenths of a nanosecond, and what plain Rust takes for it, if that is
    /// known.
    fn print_time(&self, name: &str, time: u64) -> io::Result<()> {
        match self.plain.of(name) {
            Some(plain) => {
                let percent = time.saturating_mul(100) / plain.max(1);
                println!(self.rt;
                    "{name}\t{}.{} ns\tplain {}.{} ns\tratio {}.{:02}",
                    time / 10,
                    time % 10,
                    plain / 10,
                    plain % 10,
                    percent / 100,
                    percent % 100
                )
            }
            None => println!(self.rt; "{name}\t{}.{} ns", time / 10, time % 10),
        }
    }

    /// Tells of a run that was made by others: its checksum, or the time of one of its rounds, of
    /// which it took so many nanoseconds in all.
    pub fn tell_run(&self, name: &str, sum: u64, rounds: u64, took: u64) -> io::Result<()> {
        if self.timed {
            return self.print_time(name, took.saturating_mul(10) / rounds.max(1));
        }
        println!(self.rt; "{name}\t{sum:016x}")
    }

    /// The shortest time of a round, in tenths of a nanosecond.
    fn best<W: Work>(&self, work: &mut W) -> io::Result<u64> {
        let rounds = self.enough_rounds(work)?;
        let mut best = u64::MAX;
        for _ in 0..RUNS {
            let took = self.nanoseconds(work, rounds)?;
            best = best.min(took.saturating_mul(10) / rounds.max(1));
        }
        Ok(best)
    }

    /// How many rounds take long enough.
    fn enough_rounds<W: Work>(&self, work: &mut W) -> io::Result<u64> {
        let mut rounds = 1u64;
        for _ in 0..30 {
            if self.nanoseconds(work, rounds)? >= LONG_ENOUGH {
                return Ok(rounds);
            }
            rounds = rounds.saturating_mul(2);
        }
        Ok(rounds)
    }

    fn nanoseconds<W: Work>(&self, work: &mut W, rounds: u64) -> io::Result<u64> {
        let start = Instant::now(self.rt)?;
        let sum = checksum(work, rounds);
        let took = start.elapsed(self.rt)?.as_nanos();
        // The sum is used, so that the work is done.
        if sum == 0x5eed_5eed_5eed_5eed {
            println!(self.rt; "{sum}")?;
        }
        Ok(u64::try_from(took).unwrap_or(u64::MAX))
    }
}
