//! The message bus as a program: `busd serve` serves the clients of a socket, `busd run` the
//! message stream on standard input.
#![tactic(auto)]

ghost use Rattle.std.specs.Prelude.{◌≡◌, ◌⊎◌};
ghost use Rattle.std.specs.Process.{exit_status};
ghost use Rattle.clap.specs.Values.{kind_of};
ghost use Rattle.busd_core.specs.Statuses.{run_status};
ghost use Rattle.busd_core.specs.declared.run_fault.RunFault.TheVariants.{Output};
ghost use Rattle.std.specs.IoError.{error_kind};
ghost use Rattle.busd.specs.Statuses.{refusal_status, unread_status};

mod daemon;
mod standard_files;
mod stream;

use crate::daemon::run_daemon;
use crate::stream::run_stream;
use busd_core::{RunFault, serve_command};
use clap::error::ErrorKind;
use clap::{Command, Error};
use std::alloc::{AllocError, Global};
use std::process::ExitCode;
use std::rt::Env;
use std::{env, io};

/// What stands behind the commands in the help.
const NOTES: &str = "Example, a bus for one command (busd-run-session starts busd):
  busd-run-session dbus-send --session --print-reply \\
    --dest=org.freedesktop.DBus / org.freedesktop.DBus.ListNames

Exit status:
  0  the input came to its end, or help was asked for
  2  the command line is wrong
  3  `busd run`: the bus closed the connection
  4  a file, a socket or another device of the system fails, or a keyring or a
     service file does not read
  5  there is no memory, or `busd serve` can start no thread";

/// What stands behind the help of `busd run`.
const RUN_NOTES: &str =
    "The stream is what a client sends behind its authentication; its first message
is Hello. What the bus sends to that client is written to standard output.

Example, where messages.stream has such messages:
  busd run < messages.stream > replies.stream

Exit status:
  0  the input came to its end
  2  the command line is wrong
  3  the bus closed the connection: `busd: closed: CODE` on standard error
  4  standard input or output fails
  5  there is no memory";

fn command_line<'a>(alloc: Global) -> Result<Command<'a>, AllocError> {
    let stream = Command::new(alloc, "run")
        .about(
            "Serves one message stream, from standard input to standard output, without authentication",
        )
        .after_help(RUN_NOTES);
    Command::new(alloc, "busd")
        .about("A D-Bus message bus")
        .version("0.1.0")
        .after_help(NOTES)
        .subcommand_required(true)
        .subcommand(serve_command(alloc)?)?
        .subcommand(stream)
}

/// Tells what is wrong with the command line, or prints the help that it asks for.
fn refuse<R: Print + Eprint>(rt: &R, error: &Error) -> ExitCode
    ensures { (exit_status result ≡ refusal_status (kind_of error.now))
        ⊎ (exit_status result ≡ run_status Output) }
{
    if error.kind() == ErrorKind::OutOfMemory {
        return fail(rt, RunFault::Memory);
    }
    if error.print(rt).is_err() {
        return fail(rt, RunFault::Output);
    }
    ExitCode::from(if error.use_stderr() { 2 } else { 0 })
}

/// Tells why a run ended.
fn fail<R: Eprint>(rt: &R, fault: RunFault) -> ExitCode
    ensures { exit_status result ≡ run_status fault }
{
    let _ = eprintln!(rt; "busd: {fault}");
    ExitCode::from(fault.status())
}

fn words<R: Env + AllocGlobal>(rt: &R) -> io::Result<Vec<String>> {
    Ok(env::args(rt)?.collect(rt.alloc())?)
}

/// Tells why the command line can't be read: a word of it is no text, or there is no memory for it.
fn fail_unread<R: Eprint>(rt: &R, error: &io::Error) -> ExitCode
    ensures { exit_status result ≡ unread_status (error_kind error.now) }
{
    if error.kind() == io::ErrorKind::InvalidData {
        let _ = eprintln!(rt; "error: an argument is not valid UTF-8");
        return ExitCode::from(2);
    }
    fail(rt, RunFault::Memory)
}

fn main(rt: HostRuntime) -> ExitCode {
    let words = match words(&rt) {
        Ok(words) => words,
        Err(error) => return fail_unread(&rt, &error),
    };
    let Ok(command) = command_line(rt.alloc()) else {
        return fail(&rt, RunFault::Memory);
    };
    match command.try_get_matches_from(words.as_slice()) {
        Ok(found) => match found.subcommand_matches("serve") {
            Some(asked) => run_daemon(&rt, asked),
            None => match run_stream(&rt, &mut rt.reader(), &mut io::writer(&rt)) {
                Ok(()) => ExitCode::SUCCESS,
                Err(fault) => fail(&rt, fault),
            },
        },
        Err(error) => refuse(&rt, &error),
    }
}
