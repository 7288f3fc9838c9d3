//! The programs of services.

use crate::bus::Bus;
use crate::launch::{LaunchShared, ProgramJob, spawn_job_thread};
use crate::runtime::DaemonRuntime;
use busd_core::ServeFault;
use busd_sockets::PollWaker;
use crossbeam_channel::{Sender, bounded};
use names::BusName;
use outbox::Tap;
use router_host::StartRequest;
use service_files::Service;
use starter::Programs;
use std::alloc::Global;
use std::sync::{Arc, Wait};
use supervisor::Event;

/// How many programs wait to be started at most.
const JOBS: usize = 512;

/// Runs the programs of services: a thread starts them, each in a thread of its own that waits for
/// its end. Nothing waits for these threads.
#[derive(Drop)]
pub(crate) struct Launcher<'a, R: Wait> {
    rt: &'a R,
    alloc: Global,
    requests: Tap<StartRequest>,
    launch: Arc<LaunchShared, Global>,
    jobs: Sender<ProgramJob, Global>,
}

/// Runs the programs of these services for a bus, as they are asked for. Where there are any, a
/// thread is started that waits for programs to start. The waker wakes the main thread.
///
/// # Errors
///
/// There was no memory, or no thread could be started.
pub(crate) fn start_launcher<'a, R: DaemonRuntime>(
    rt: &'a R,
    alloc: Global,
    bus: &'a Bus<'_>,
    services: Vec<Service>,
    requests: Tap<StartRequest>,
    waker: PollWaker,
) -> Result<Launcher<'a, R>, ServeFault> {
    let launch = LaunchShared::new(alloc, services, bus.options.path, waker)?;
    let (jobs, taken) = bounded(alloc, JOBS)?;
    if launch.has_services() && !spawn_job_thread(rt, taken) {
        return Err(ServeFault::Memory);
    }
    let Ok(launch) = Arc::new(alloc, launch) else {
        return Err(ServeFault::Memory);
    };
    Ok(Launcher {
        rt,
        alloc,
        requests,
        launch,
        jobs,
    })
}

impl<'a, R: Wait> Programs for Launcher<'a, R> {
    fn run(&mut self, name: &BusName, start: u64) -> bool {
        let Some(place) = self.launch.place_of(name) else {
            return false;
        };
        let Ok(launch) = Arc::try_clone(&self.launch) else {
            return false;
        };
        let job = ProgramJob {
            alloc: self.alloc,
            launch,
            place,
            start,
        };
        self.jobs.try_send(self.rt, job).is_ok()
    }

    fn next<Q: Wait>(&mut self, rt: &Q) -> Option<Event> {
        if let Some(event) = self.launch.next_end(rt) {
            return Some(event);
        }
        let request = self.requests.take(rt)?;
        Some(Event::Asked {
            name: request.name,
            start: request.start,
        })
    }
}
