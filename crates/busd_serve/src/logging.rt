//! What `busd serve --verbose` writes to standard error.

use busd_sockets::{AcceptLog, EndLog};
use router_core::CloseCause;
use router_host::{EndCause, Ended};
use std::rt::Clock;
use std::time::{Duration, Instant};
use std::{fmt, io};

/// What is told of a connection that was closed with a fault.
#[derive(Drop)]
struct Notice(Ended);

/// Writes a cause in words.
fn write_words<W: fmt::Write>(cause: CloseCause, f: &mut fmt::Formatter<W>) -> fmt::Result {
    match cause {
        CloseCause::Faulty(fault) => write!(f, "{fault}"),
        CloseCause::TooLong => write!(f, "its message would be too long with its name"),
        CloseCause::NotHello => write!(f, "it didn't begin with Hello"),
        CloseCause::MonitorSent => write!(f, "it is a monitor, and sent a message"),
        CloseCause::Left => write!(f, "it didn't read its messages"),
        CloseCause::LimitsExceeded => write!(f, "the bus is full"),
        CloseCause::Unauthenticated(fault) => write!(f, "{fault}"),
    }
}

impl fmt::Display for Notice {
    fn fmt<W: fmt::Write>(&self, f: &mut fmt::Formatter<W>) -> fmt::Result {
        match self.0.number {
            Some(number) => write!(f, "busd: :1.{number}: {}", self.0.cause)?,
            None => write!(f, "busd: unnamed: {}", self.0.cause)?,
        }
        match self.0.cause {
            EndCause::Closed(cause) => {
                write!(f, ": ")?;
                write_words(cause, f)
            }
            _ => Ok(()),
        }
    }
}

/// Writes of connections that were closed with a fault or are not served, where that is wanted.
#[derive(Drop)]
pub(crate) struct EndLogger<'a, R: Eprint + Clock> {
    refusals: AcceptLogger<'a, R>,
}

impl<'a, R: Eprint + Clock> EndLogger<'a, R> {
    pub(crate) fn new(rt: &'a R, is_wanted: bool) -> EndLogger<'a, R> {
        EndLogger {
            refusals: AcceptLogger::new(rt, is_wanted),
        }
    }
}

impl<R: Eprint + Clock> EndLog for EndLogger<'_, R> {
    fn ended(&mut self, ended: Ended) {
        let is_fault = !matches!(ended.cause, EndCause::EndOfInput | EndCause::HungUp);
        if self.refusals.is_wanted && is_fault {
            let _unwritten = eprintln!(self.refusals.rt; "{}", Notice(ended));
        }
    }

    fn refused<T: fmt::Display>(&mut self, why: &T) {
        self.refusals.write(why);
    }
}

/// The least time between two lines of an [`AcceptLogger`], in seconds.
const SECONDS_BETWEEN: u64 = 1;

/// Writes why connections can't be accepted or served, where that is wanted, once a second at most.
#[derive(Drop)]
pub(crate) struct AcceptLogger<'a, R: Eprint + Clock> {
    rt: &'a R,
    is_wanted: bool,
    last: Option<Instant>,
}

impl<'a, R: Eprint + Clock> AcceptLogger<'a, R> {
    pub(crate) fn new(rt: &'a R, is_wanted: bool) -> AcceptLogger<'a, R> {
        AcceptLogger {
            rt,
            is_wanted,
            last: None,
        }
    }

    /// Writes why, if the last time is long ago.
    fn write<T: fmt::Display>(&mut self, why: &T) {
        if !self.is_wanted {
            return;
        }
        let Ok(now) = Instant::now(self.rt) else {
            return;
        };
        if self.is_due(now) {
            self.last = Some(now);
            let _unwritten = eprintln!(self.rt; "busd: accept: {why}");
        }
    }

    /// Whether the last one is long ago.
    fn is_due(&self, now: Instant) -> bool {
        match self.last {
            Some(last) => now.duration_since(last) >= Duration::from_secs(SECONDS_BETWEEN),
            None => true,
        }
    }
}

impl<R: Eprint + Clock> AcceptLog for AcceptLogger<'_, R> {
    fn failed(&mut self, error: &io::Error) {
        self.write(error);
    }
}
