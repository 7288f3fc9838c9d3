//! A program that measures: its command line, its messages and its exit status.

use crate::plain_times::PlainTimes;
use crate::report::Report;
use anyhow::{Context, Result, ensure};
use clap::{Arg, ArgAction, ArgMatches, Command, Error};
use std::alloc::{AllocError, Global};
use std::process::ExitCode;
use std::rt::{Env, Files};
use std::{env, fs, io};

/// How many rounds make a checksum where the command line does not say.
const ROUNDS: u64 = 64;

/// What a command line asks for.
#[derive(Drop)]
pub enum Opening<'a, R> {
    /// Works are measured.
    Report(Report<'a, R>),
    /// There is nothing more to do: the help was asked for, or the command line is wrong.
    Ended(ExitCode),
}

fn time<'a>(alloc: Global) -> Arg<'a> {
    Arg::new(alloc, "time")
        .long("time")
        .action(ArgAction::SetTrue)
        .help("Prints times in place of checksums")
}

fn plain<'a>(alloc: Global) -> Arg<'a> {
    Arg::new(alloc, "plain")
        .long("plain")
        .value_name("FILE")
        .action(ArgAction::Set)
        .help("The times of the same in plain Rust")
}

fn rounds<'a>(alloc: Global) -> Arg<'a> {
    Arg::new(alloc, "rounds")
        .long("rounds")
        .value_name("COUNT")
        .action(ArgAction::Set)
        .help("How many rounds make a checksum, 64 if it is not said")
}

fn part<'a>(alloc: Global) -> Arg<'a> {
    Arg::new(alloc, "part")
        .value_name("PART")
        .action(ArgAction::Set)
        .help("The works that are measured, all if it is not said")
}

fn command_line<'a>(
    alloc: Global,
    name: &'a str,
    about: &'a str,
) -> Result<Command<'a>, AllocError> {
    Command::new(alloc, name)
        .about(about)
        .arg(time(alloc))?
        .arg(plain(alloc))?
        .arg(rounds(alloc))?
        .arg(part(alloc))
}

fn words<R: Env + AllocGlobal>(rt: &R) -> io::Result<Vec<String>> {
    Ok(env::args(rt)?.collect(rt.alloc())?)
}

fn refuse<R: Print + Eprint>(rt: &R, error: &Error) -> ExitCode {
    let status = if error.use_stderr() { 2 } else { 0 };
    if error.print(rt).is_err() {
        return ExitCode::from(4);
    }
    ExitCode::from(status)
}

/// The times that the command line names.
fn plain_times<R: Files + AllocGlobal>(rt: &R, file: Option<&str>) -> Result<PlainTimes> {
    let Some(file) = file else {
        return Ok(PlainTimes::new(rt.alloc()));
    };
    let text = fs::read_to_string(rt, file).context("the plain times")?;
    PlainTimes::read(rt.alloc(), text.as_str())
}

/// How many rounds the command line asks for.
fn rounds_of(count: Option<&str>) -> Result<u64> {
    match count {
        Some(count) => count.parse::<u64>().context("a count of rounds"),
        None => Ok(ROUNDS),
    }
}

/// The part that the command line names, which is to be one of these.
fn part_of(alloc: Global, word: Option<&str>, parts: &[&str]) -> Result<Option<String>> {
    let Some(word) = word else {
        return Ok(None);
    };
    ensure!(parts.contains(&word), "there is no part {word}");
    Ok(Some(String::from_str(alloc, word)?))
}

fn report<'a, R: Files + AllocGlobal>(
    rt: &'a R,
    matches: &ArgMatches<'_>,
    parts: &[&str],
) -> Result<Report<'a, R>> {
    let rounds = rounds_of(matches.get_str("rounds"))?;
    let part = part_of(rt.alloc(), matches.get_str("part"), parts)?;
    let plain = plain_times(rt, matches.get_str("plain"))?;
    Ok(Report {
        rt,
        part,
        timed: matches.get_flag("time"),
        rounds,
        plain,
    })
}

/// Reads the command line of a program of this name, whose works have these parts. A word chooses
/// one of them.
pub fn open<'a, R: Print + Eprint + Env + Files + AllocGlobal>(
    rt: &'a R,
    name: &str,
    about: &str,
    parts: &[&str],
) -> Result<Opening<'a, R>> {
    let words = words(rt)?;
    let command = command_line(rt.alloc(), name, about)?;
    match command.try_get_matches_from(words.as_slice()) {
        Ok(matches) => Ok(Opening::Report(report(rt, &matches, parts)?)),
        Err(error) => Ok(Opening::Ended(refuse(rt, &error))),
    }
}

/// The exit status after so much was measured; a failure is told on standard error.
pub fn close<R: Eprint>(rt: &R, name: &str, measured: Result<()>) -> ExitCode {
    match measured {
        Ok(()) => ExitCode::SUCCESS,
        Err(error) => {
            let _ = eprintln!(rt; "{name}: {error:#}");
            ExitCode::from(1)
        }
    }
}
