//! The command line of `busd serve`.

use clap::builder::ValueParser;
use clap::{Arg, ArgAction, Command};
use std::alloc::{AllocError, Global};

/// What stands behind the options in the help of `busd serve`.
const NOTES: &str = "All options with a value but --trace are needed; others are off unless given.

Example:
  busd serve --address \"$XDG_RUNTIME_DIR/bus.sock\" --routers 2 \\
    --services /usr/share/dbus-1/services --user \"$(id -u)\" \\
    --keyring \"$HOME/.dbus-keyrings/org_freedesktop_general\" --print-address
  DBUS_SESSION_BUS_ADDRESS=unix:path=$XDG_RUNTIME_DIR/bus.sock dbus-send ..

Each line of the keyring is `ID TIME COOKIE`: a number, the time in seconds
since 1970, and a secret; the last is used. Clients look for its ID in the file
of the example, and most take no line that is older than seven minutes.
busd-run-session writes such a line, and runs a command with a bus of its own.

A socket's file that is there already is not replaced: remove it where no other
bus uses it.

With --trace each change of the bus, each query and where each message went is
written to the folder's files. What stood in them is gone. Whether they tell of
a legal run is checked by
  cat DIR/head.trace DIR/main.trace DIR/router-*.trace | bus-check -

Exit status:
  0  this help: a daemon serves until a signal ends it
  2  the command line is wrong
  4  the keyring, a service file, or a device of the system fails: input (a file
     that is read), output (the standard one), trace (a file of it), random
     (/dev/urandom), listen (the socket), poll (word of what sockets are ready)
  5  there is no memory, or no thread can be started";

fn value<'a>(alloc: Global, name: &'a str, shown: &'a str, help: &'a str) -> Arg<'a> {
    Arg::new(alloc, name)
        .long(name)
        .value_name(shown)
        .required(true)
        .action(ArgAction::Set)
        .help(help)
}

fn optional<'a>(alloc: Global, name: &'a str, shown: &'a str, help: &'a str) -> Arg<'a> {
    Arg::new(alloc, name)
        .long(name)
        .value_name(shown)
        .action(ArgAction::Set)
        .help(help)
}

fn flag<'a>(alloc: Global, name: &'a str, help: &'a str) -> Arg<'a> {
    Arg::new(alloc, name)
        .long(name)
        .action(ArgAction::SetTrue)
        .help(help)
}

fn options<'a>(alloc: Global) -> Result<Vec<Arg<'a>>, AllocError> {
    Ok(vec![in alloc;
        value(alloc, "address", "PATH", "Path of the socket to create"),
        value(
            alloc,
            "routers",
            "N",
            "Threads that serve connections, 1 to 8",
        )
        .value_parser(ValueParser::unsigned(1, 8)),
        value(alloc, "services", "DIR", "Folder of the services' files"),
        value(
            alloc,
            "keyring",
            "FILE",
            "File of the cookies; its last line is used",
        ),
        value(
            alloc,
            "user",
            "NAME",
            "User that clients log in as; most send their uid",
        ),
        optional(alloc, "trace", "DIR", "Folder to record the run in"),
        flag(
            alloc,
            "anonymous",
            "Also lets clients in that do not authenticate (ANONYMOUS)",
        ),
        flag(
            alloc,
            "print-address",
            "Prints the address once clients can connect",
        ),
        flag(
            alloc,
            "verbose",
            "Writes to standard error why connections are closed or refused",
        ),
    ]?)
}

/// The subcommand `serve`, whose matches [`Options::of`](crate::Options::of) reads.
///
/// # Errors
///
/// There is no memory for it.
pub fn serve_command<'a>(alloc: Global) -> Result<Command<'a>, AllocError> {
    let options = options(alloc)?;
    Command::new(alloc, "serve")
        .about("Serves the clients that connect to a socket, until it is stopped")
        .after_help(NOTES)
        .args(options)
}
