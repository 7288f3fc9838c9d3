//! `bus-check`: whether a trace of a bus is legal.
#![tactic(auto)]

ghost use Rattle.std.specs.Prelude.{◌≡◌, ◌⊎◌, IfOk};
ghost use Rattle.std.specs.IoError.{error_kind};
ghost use Rattle.std.specs.Process.{exit_status};
ghost use Rattle.clap.specs.Values.{kind_of};
ghost use Rattle.trace_check_core.specs.Verdicts.{verdict_of_file};
ghost use Rattle.trace_check.specs.Statuses.{refusal_status, status_of, unread_status, verdict_status};
ghost use Rattle.trace_check.specs.declared.fault.CheckFault.TheVariants.{Output};

mod explaining;
mod fault;

use crate::explaining::explain;
use crate::fault::CheckFault;
use clap::error::ErrorKind;
use clap::{Arg, ArgAction, Command, Error};
use std::alloc::{AllocError, Global};
use std::io::{Read, Write};
use std::process::ExitCode;
use std::rt::{Env, Files};
use std::{env, fs, io};
use trace_check_core::{Verdict, check};

/// What stands behind the help.
const NOTES: &str = "Example, a trace that `busd serve --trace DIR` wrote:
  cat DIR/head.trace DIR/main.trace DIR/router-*.trace | bus-check -

Exit status:
  0  the trace is legal: `yes COUNT`, the count of its lines behind the head
  1  it is not: `no LINE CAUSE`, 70 form, 71 order, 72 place or 73 content
  2  the command line is wrong
  4  the file can't be read, or standard output fails
  5  there is no memory";

fn command_line<'a>(alloc: Global) -> Result<Command<'a>, AllocError> {
    Command::new(alloc, "bus-check")
        .bin_name("bus-check")?
        .about("Checks a trace of a message bus")
        .version("0.1.0")
        .after_help(NOTES)
        .arg(
            Arg::new(alloc, "file")
                .value_name("FILE")
                .help("The trace, - for standard input")
                .required(true)
                .action(ArgAction::Set),
        )?
        .arg(
            Arg::new(alloc, "explain")
                .long("explain")
                .help("Also writes to standard error which line is not legal, and why")
                .action(ArgAction::SetTrue),
        )
}

/// Reads a file, or standard input.
fn read<R: Files + Input + AllocGlobal>(rt: &R, path: &str) -> Result<Vec<u8>, CheckFault> {
    if path != "-" {
        return Ok(fs::read(rt, path)?);
    }
    let mut bytes = Vec::new(rt.alloc());
    rt.reader().read_to_end(&mut bytes)?;
    Ok(bytes)
}

/// Prints a verdict, and gives the status that tells it.
fn tell<R: Print>(rt: &R, verdict: Verdict) -> Result<ExitCode, CheckFault>
    ensures { IfOk result (λ status. exit_status status ≡ verdict_status verdict) }
{
    let mut output = io::writer(rt);
    let (printed, status) = match verdict {
        Verdict::Yes { lines } => (writeln!(output, "yes {lines}"), 0),
        Verdict::No { line, cause } => (writeln!(output, "no {line} {}", cause.code()), 1),
    };
    match printed.and_then(|_| output.flush()) {
        Ok(()) => Ok(ExitCode::from(status)),
        Err(_) => Err(CheckFault::Output),
    }
}

/// Checks what stands in a file, and prints the verdict.
fn check_bytes<R: Print + Eprint + AllocGlobal>(
    rt: &R,
    file: &[u8],
    explains: bool,
) -> Result<ExitCode, CheckFault>
    ensures { IfOk result (λ status. exit_status status
        ≡ verdict_status (verdict_of_file file.now)) }
{
    let verdict = check(rt.alloc(), file)?;
    let status = tell(rt, verdict)?;
    if explains {
        explain_no(rt, file, verdict)?;
    }
    Ok(status)
}

fn explain_no<R: Eprint + AllocGlobal>(
    rt: &R,
    file: &[u8],
    verdict: Verdict,
) -> Result<(), CheckFault> {
    match verdict {
        Verdict::Yes { .. } => Ok(()),
        Verdict::No { line, cause } => explain(rt, file, line, cause),
    }
}

fn check_file<R: Files + Input + Print + Eprint + AllocGlobal>(
    rt: &R,
    path: &str,
    explains: bool,
) -> Result<ExitCode, CheckFault> {
    check_bytes(rt, read(rt, path)?.as_slice(), explains)
}

/// Tells why there is no verdict.
fn fail<R: Eprint>(rt: &R, fault: CheckFault) -> ExitCode
    ensures { exit_status result ≡ status_of fault }
{
    let _ = eprintln!(rt; "bus-check: {fault}");
    ExitCode::from(fault.status())
}

/// Tells what is wrong with the command line, or prints the help that it asks for.
fn refuse<R: Print + Eprint>(rt: &R, error: &Error) -> ExitCode
    ensures { (exit_status result ≡ refusal_status (kind_of error.now))
        ⊎ (exit_status result ≡ status_of Output) }
{
    if error.kind() == ErrorKind::OutOfMemory {
        return fail(rt, CheckFault::Memory);
    }
    if error.print(rt).is_err() {
        return fail(rt, CheckFault::Output);
    }
    ExitCode::from(if error.use_stderr() { 2 } else { 0 })
}

fn words<R: Env + AllocGlobal>(rt: &R) -> io::Result<Vec<String>> {
    Ok(env::args(rt)?.collect(rt.alloc())?)
}

/// Tells why the command line can't be read: a word of it is no text, or there is no memory for it.
fn fail_unread<R: Eprint>(rt: &R, error: &io::Error) -> ExitCode
    ensures { exit_status result ≡ unread_status (error_kind error.now) }
{
    if error.kind() == io::ErrorKind::InvalidData {
        let _ = eprintln!(rt; "error: an argument is not valid UTF-8");
        return ExitCode::from(2);
    }
    fail(rt, CheckFault::Memory)
}

fn main(rt: HostRuntime) -> ExitCode {
    let words = match words(&rt) {
        Ok(words) => words,
        Err(error) => return fail_unread(&rt, &error),
    };
    let Ok(command) = command_line(rt.alloc()) else {
        return fail(&rt, CheckFault::Memory);
    };
    let found = match command.try_get_matches_from(words.as_slice()) {
        Ok(found) => found,
        Err(error) => return refuse(&rt, &error),
    };
    let path = found.get_str("file").unwrap_or("-");
    match check_file(&rt, path, found.get_flag("explain")) {
        Ok(status) => status,
        Err(fault) => fail(&rt, fault),
    }
}
