//! What a daemon needs of the system.

use crate::runner::RunsPrograms;
use std::net::Net;
use std::rt::{Clock, Files};
use std::sync::Wait;
use std::thread::Threads;

/// What it takes to serve a bus: threads, sockets, files, a clock, programs.
pub trait DaemonRuntime: Threads
    + Wait
    + Net
    + RunsPrograms
    + Files
    + Eprint
    + Clock
    + AllocGlobal
    + Copy
    + Send
    + Sync
    + 'static {}

impl<
    R: Threads
        + Wait
        + Net
        + RunsPrograms
        + Files
        + Eprint
        + Clock
        + AllocGlobal
        + Copy
        + Send
        + Sync
        + 'static,
> DaemonRuntime for R {}
