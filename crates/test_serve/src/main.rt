//! Clients of a bus over real sockets. The program starts itself as a daemon, a process of its own,
//! and plays two clients of it; further scenes it plays over buses that a thread of its own serves,
//! and the last over a queue of connections alone. It tells how each went.
#![tactic(auto)]

mod client;
mod crowd;
mod daemon;
mod half_messages;
mod many_at_once;
mod scene;
mod served;
mod two_clients;

use crate::client::Wrong;
use crate::daemon::{SERVE, serve, serve_two_clients};
use crate::many_at_once::many_at_once;
use crate::scene::Scene;
use crate::served::{outcome, play};
use std::process::ExitCode;
use std::rt::Env;
use std::{env, io, thread};

fn words<R: Env + AllocGlobal>(rt: &R) -> io::Result<Vec<String>> {
    Ok(env::args(rt)?.collect(rt.alloc())?)
}

fn status(is_done: bool) -> ExitCode {
    ExitCode::from(if is_done { 0 } else { 1 })
}

/// Tells how something went.
fn tell<R: Print>(rt: &R, what: &str, played: Result<(), Wrong>) -> io::Result<()> {
    match played {
        Ok(()) => println!(rt; "{what}: as it should be"),
        Err(Wrong(why)) => println!(rt; "{what}: {why}"),
    }
}

fn main(rt: HostRuntime) -> ExitCode {
    let Ok(words) = words(&rt) else {
        return ExitCode::from(1);
    };
    let told = match words.as_slice() {
        [program] => {
            let played = serve_two_clients(&rt, program.as_str());
            tell(&rt, "two clients of a daemon", played)
        }
        [_program, word] if word.as_str() == SERVE => return status(serve(&rt).is_ok()),
        _ => return status(false),
    };
    if told.is_err() {
        return status(false);
    }
    for scene in [Scene::TwoClients, Scene::Crowd, Scene::HalfMessages] {
        let Ok((bus, listening)) = scene.open(&rt) else {
            return status(false);
        };
        let (played, served) = thread::join(
            &rt,
            || play(&rt, scene, &bus),
            || bus.serve(&rt, listening),
        );
        scene.clean_up(&rt);
        if tell(&rt, scene.name(), outcome(played, served)).is_err() {
            return status(false);
        }
    }
    status(tell(&rt, "many-at-once", many_at_once(&rt)).is_ok())
}
