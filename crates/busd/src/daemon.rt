//! `busd serve`: the bus of a socket.

use crate::standard_files::fill_standard_files;
use busd_core::{Device, Options, ServeFault};
use busd_serve::{Bus, BusAddress, DaemonRuntime, Listening};
use clap::ArgMatches;
use std::fs::remove_file;
use std::io;
use std::io::Write;
use std::os::fd::AsRawFd;
use std::process::ExitCode;

/// Tells where the bus is reached.
fn print_address<R: Print>(rt: &R, address: BusAddress<'_>) -> Result<(), ServeFault> {
    let mut output = io::writer(rt);
    let printed = writeln!(output, "{address}").and_then(|_| output.flush());
    printed.map_err(|_error| ServeFault::Device(Device::Output))
}

/// Opens the bus that the command line asks for, serves its clients, and removes its socket.
///
/// # Errors
///
/// What is wrong at the start, the first of: the command line, what [`Bus::open`] tells, standard
/// output; and later what the system gave no more.
fn open_and_serve<R: DaemonRuntime + Print>(
    rt: &R,
    found: &ArgMatches<'_>,
) -> Result<(), ServeFault>
where
    R::File: Send,
{
    let options = Options::of(found)?;
    let (bus, listening) = Bus::open(rt, options)?;
    let served = announce_and_serve(rt, &bus, listening, options.prints_address);
    // A file that is left there keeps the next bus from starting.
    let _ = remove_file(rt, options.path.as_str());
    served
}

/// Tells where the bus is reached, if that is wanted, and serves its clients.
fn announce_and_serve<R: DaemonRuntime + Print>(
    rt: &R,
    bus: &Bus<'_>,
    listening: Listening<R::File>,
    prints_address: bool,
) -> Result<(), ServeFault>
where
    R::File: Send,
{
    if prints_address {
        print_address(rt, bus.address())?;
    }
    bus.serve(rt, listening)
}

/// Serves the clients of a socket, and tells why it ends.
pub(crate) fn run_daemon<R: DaemonRuntime + Print>(rt: &R, found: &ArgMatches<'_>) -> ExitCode
where
    R::File: Send + AsRawFd,
{
    let _standard_files = fill_standard_files(rt);
    let Err(fault) = open_and_serve(rt, found) else {
        return ExitCode::SUCCESS;
    };
    let _ = eprintln!(rt; "busd: {fault}");
    ExitCode::from(fault.status())
}
