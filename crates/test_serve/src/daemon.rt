//! A daemon in a process of its own.

use crate::client::Wrong;
use crate::scene::Scene;
use crate::two_clients::two_clients;
use busd_serve::DaemonRuntime;
use std::alloc::Global;
use std::io;
use std::io::{Read, Write};
use std::net::Net;
use std::process::{Child, Command, OpenProcess, Processes, Stdio};
use std::rt::Files;

/// The argument that makes this program the daemon.
pub(crate) const SERVE: &str = "serve";

/// The scene that is played over it.
const SCENE: Scene = Scene::TwoClients;

/// How the address that it prints begins.
const ADDRESS: &str = "unix:path=two-clients,guid=";

/// Serves as the daemon, until it is killed. It prints its address once clients can connect.
pub(crate) fn serve<R: DaemonRuntime + Print>(rt: &R) -> Result<(), Wrong>
where
    R::File: Send,
{
    let (bus, listening) = SCENE.open(rt)?;
    let mut output = io::writer(rt);
    writeln!(output, "{}", bus.address())?;
    output.flush()?;
    match bus.serve(rt, listening) {
        Ok(()) => Ok(()),
        Err(_fault) => Err(Wrong("the bus ends by a fault")),
    }
}

/// Starts a program, which is this one, as the daemon.
fn start<R: Processes>(rt: &R, alloc: Global, program: &str) -> io::Result<Child<R::Started>> {
    let mut command = Command::new(alloc, program)?;
    command
        .arg(SERVE)?
        .stdin(Stdio::null())
        .stdout(Stdio::piped());
    command.spawn(rt)
}

/// Waits until the daemon prints its address.
fn await_address<P: OpenProcess>(daemon: &mut Child<P>) -> Result<(), Wrong> {
    let Some(output) = &mut daemon.stdout else {
        return Err(Wrong("the daemon has no output"));
    };
    for wanted in ADDRESS.as_bytes() {
        let mut byte = [0u8; 1];
        output.read_exact(&mut byte)?;
        if byte[0] != *wanted {
            return Err(Wrong("the daemon prints another address"));
        }
    }
    Ok(())
}

/// Plays the clients over a daemon that was started, which serves on.
fn play_over<R: Net + AllocGlobal, P: OpenProcess>(
    rt: &R,
    daemon: &mut Child<P>,
) -> Result<(), Wrong> {
    await_address(daemon)?;
    two_clients(rt, rt.alloc(), SCENE.name())?;
    match daemon.try_wait()? {
        None => Ok(()),
        Some(_status) => Err(Wrong("the daemon has ended")),
    }
}

/// Plays the clients over a daemon of their own, which is this program.
pub(crate) fn serve_two_clients<R: Net + Files + Processes + AllocGlobal>(
    rt: &R,
    program: &str,
) -> Result<(), Wrong> {
    let mut daemon = start(rt, rt.alloc(), program)?;
    let played = play_over(rt, &mut daemon);
    daemon.kill()?;
    daemon.wait()?;
    SCENE.clean_up(rt);
    played
}
