//! The threads that run the programs of services.

use crate::runner::{ProgramEnd, RunsPrograms};
use busd_core::SocketPath;
use busd_sockets::PollWaker;
use crossbeam_channel::Receiver;
use crossbeam_queue::ArrayQueue;
use names::BusName;
use routers::{RETRY_AFTER, Wake};
use service_files::Service;
use std::alloc::{AllocError, Global};
use std::rt::Clock;
use std::sync::{Arc, Wait};
use std::thread;
use std::thread::Threads;
use std::time::Duration;
use supervisor::Event;

/// How many ends of programs wait for the main thread at most.
const ENDS: usize = 512;

/// The stack of a thread that waits for a program.
const STACK: usize = 131_072;

/// What the threads that wait for programs share.
#[derive(Drop)]
pub(crate) struct LaunchShared {
    services: Vec<Service>,
    /// The address of the bus, as its programs are told it.
    address: String,
    ends: ArrayQueue<Event>,
    /// Wakes the main thread.
    waker: PollWaker,
}

impl LaunchShared {
    /// Programs of these services, for a bus at this path.
    pub(crate) fn new(
        alloc: Global,
        services: Vec<Service>,
        path: SocketPath<'_>,
        waker: PollWaker,
    ) -> Result<LaunchShared, AllocError> {
        Ok(LaunchShared {
            services,
            address: format!(in alloc; "{path}")?,
            ends: ArrayQueue::new(alloc, ENDS)?,
            waker,
        })
    }

    /// Whether there are services.
    pub(crate) fn has_services(&self) -> bool {
        !self.services.is_empty()
    }

    /// The place of the service of this name.
    pub(crate) fn place_of(&self, name: &BusName) -> Option<usize> {
        self.services
            .iter()
            .position(|service| service.name().as_str() == name.as_str())
    }

    /// What became of a program, of what is not taken yet the first.
    pub(crate) fn next_end<R: Wait>(&self, rt: &R) -> Option<Event> {
        self.ends.pop(rt)
    }

    /// Puts into the queue what became of a program, if there is room for it.
    fn offer<R: Wait>(&self, rt: &R, event: &Event) -> bool {
        self.ends.push(rt, *event).is_ok()
    }

    /// Tells the main thread what became of a program.
    fn tell<R: Wait + Clock>(&self, rt: &R, event: Event) {
        for _ in rt.forever() {
            if self.offer(rt, &event) {
                self.waker.wake();
                return;
            }
            thread::sleep(rt, Duration::from_millis(RETRY_AFTER));
        }
    }

    /// Runs the program of a service to its end, and tells how that was.
    fn run<R: RunsPrograms>(&self, rt: &R, alloc: Global, place: usize, start: u64) -> Event {
        let Some(service) = self.services.get(place) else {
            return Event::NotRun { start };
        };
        match rt.run_program(alloc, service, self.address.as_str()) {
            ProgramEnd::NotRun => Event::NotRun { start },
            ProgramEnd::Exited(status) => Event::Exited {
                start,
                status: u64::from(status),
            },
            ProgramEnd::Killed => Event::Killed { start },
        }
    }
}

/// A program that is to be run, for a start.
#[derive(Drop)]
pub(crate) struct ProgramJob {
    pub(crate) alloc: Global,
    pub(crate) launch: Arc<LaunchShared, Global>,
    /// The place of the service.
    pub(crate) place: usize,
    pub(crate) start: u64,
}

impl ProgramJob {
    fn run<R: RunsPrograms + Wait + Clock>(self, rt: &R) {
        let event = self.launch.run(rt, self.alloc, self.place, self.start);
        self.launch.tell(rt, event);
    }
}

/// Starts a thread that runs a program to its end, and tells the main thread how that was. Nobody
/// waits for the thread. It is false where there can't be one more.
fn spawn_runner<R: Threads + Wait + RunsPrograms + Clock + Copy + Send + 'static>(
    rt: &R,
    job: ProgramJob,
) -> bool {
    let theirs = *rt;
    let thread = thread::Builder::new().stack_size(STACK);
    thread.spawn(rt, move || job.run(&theirs)).is_ok()
}

/// Runs the program of a job in a thread of its own. Where that can't be, the main thread is told
/// so.
fn run_in_thread<R: Threads + Wait + RunsPrograms + Clock + Copy + Send + 'static>(
    rt: &R,
    job: ProgramJob,
) {
    let start = job.start;
    let Ok(launch) = Arc::try_clone(&job.launch) else {
        return job.launch.tell(rt, Event::NotRun { start });
    };
    if !spawn_runner(rt, job) {
        launch.tell(rt, Event::NotRun { start });
    }
}

/// Runs the programs of the jobs that come, until none will come any more.
fn run_jobs<R: Threads + Wait + RunsPrograms + Clock + Copy + Send + 'static>(
    rt: &R,
    jobs: &Receiver<ProgramJob, Global>,
) {
    for job in jobs.iter(rt) {
        run_in_thread(rt, job);
    }
}

/// Starts the thread that starts programs. It ends once no more of them can be asked for. It is
/// false where there can be none.
pub(crate) fn spawn_job_thread<R: Threads + Wait + RunsPrograms + Clock + Copy + Send + 'static>(
    rt: &R,
    jobs: Receiver<ProgramJob, Global>,
) -> bool {
    let theirs = *rt;
    let thread = thread::Builder::new().stack_size(STACK);
    thread.spawn(rt, move || run_jobs(&theirs, &jobs)).is_ok()
}
