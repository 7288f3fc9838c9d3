//! Who runs programs.

use service_files::Service;
use std::alloc::Global;
use std::io;
use std::process::{Child, Command, Processes, Stdio};

/// How a program ended.
#[derive(Clone, Copy, Debug, PartialEq, Eq)]
pub enum ProgramEnd {
    /// It could not be run.
    NotRun,
    /// It exited with a status.
    Exited(u32),
    /// A signal ended it.
    Killed,
}

/// Runs programs, in whatever thread.
pub trait RunsPrograms {
    /// Runs the program of a service to its end, where the bus has this address. Where the system
    /// does not tell how it ended, it is as if it had exited with 0.
    fn run_program(&self, alloc: Global, service: &Service, address: &str) -> ProgramEnd;
}

/// Starts the program of a service, with the variables that "Message Bus Starting Services
/// (Activation)" of the D-Bus Specification names.
fn spawn<R: Processes>(
    rt: &R,
    alloc: Global,
    service: &Service,
    address: &str,
) -> io::Result<Child<R::Started>> {
    let mut command = Command::new(alloc, service.program())?;
    for argument in service.arguments() {
        command.arg(argument)?;
    }
    command
        .env("DBUS_STARTER_ADDRESS", address)?
        .env("DBUS_STARTER_BUS_TYPE", "session")?
        .env("DBUS_SESSION_BUS_ADDRESS", address)?
        .stdin(Stdio::null())
        .stdout(Stdio::null());
    command.spawn(rt)
}

impl<R: Processes> RunsPrograms for R {
    fn run_program(&self, alloc: Global, service: &Service, address: &str) -> ProgramEnd {
        let Ok(mut child) = spawn(self, alloc, service, address) else {
            return ProgramEnd::NotRun;
        };
        let Ok(ended) = child.wait() else {
            return ProgramEnd::Exited(0);
        };
        match ended.code() {
            Some(code) => ProgramEnd::Exited(code.unsigned_abs()),
            None => ProgramEnd::Killed,
        }
    }
}
