//! The seat of the thread that started the routers.

ghost use Rattle.std.specs.Prelude.{◌≡◌, ◌⊎◌, [], IfOk};
ghost use Rattle.routers.specs.declared.source.TheConstants.{RETRY_AFTER};
ghost use Rattle.starter.specs.MainSeats.{MakesMainSteps};
ghost use Rattle.starter.specs.States.{IsIdle, new_starter};

use crate::programs::Programs;
use crate::starter::Starter;
use crate::unfinished::Unfinished;
use registry_snapshots::{Desk, Naming, Shared};
use router::Traced;
use router_core::OpenGate;
use router_host::Socket;
use routers::{
    Coordinator, Fault, LanePost, MAIN_THREAD, RETRY_AFTER, SeatSetup, TraceSink, TraceWriter,
    Wake, traced,
};
use std::alloc::{AllocError, Global};
use std::marker::Model;
use std::sync::Wait;

/// The seat and the lanes that are no router's, in the hands of the thread that started the
/// routers. It serves no connection: it runs the programs of services, tells the bus how starts
/// end, and writes what it recorded.
///
/// Contracts see it as a starter.
pub struct MainSeat<'a, J: Naming, S: Socket, W: Wake + Drop, Q: Programs + Drop, T, R: Wait> {
    rt: &'a R,
    starter: Starter<Traced<Desk<'a, J, R>>, OpenGate, LanePost<'a, J, W>, S, Q>,
    trace: T,
}

impl<'a, J: Naming, S: Socket, W: Wake + Drop, Q: Programs + Drop, T, R: Wait> Model
    for MainSeat<'a, J, S, W, Q, T, R> {
    ghost use Rattle.starter.specs.MainSeats.{MainState};

    ghost Value = { MainState Q };

    ghost view = { λ m. m.starter };
}

impl<'a, J: Naming, S: Socket, W: Wake + Drop, Q: Programs + Drop, T: Drop, R: Wait> Drop
    for MainSeat<'a, J, S, W, Q, T, R> {
    fn drop(self) {
        let MainSeat {
            rt: _,
            starter,
            trace,
        } = self;
        drop(starter);
        drop(trace);
    }
}

impl<
    'a,
    J: Naming,
    S: Socket,
    W: Wake + Drop,
    Q: Programs + Drop,
    T: TraceSink + Drop,
    R: Wait,
> MainSeat<'a, J, S, W, Q, T, R> {
    /// The main thread's part of a bus. It takes memory.
    pub fn new(
        rt: &'a R,
        alloc: Global,
        shared: &'a Shared<J>,
        coordinator: &'a Coordinator<W>,
        setup: SeatSetup<J, T>,
        programs: Q,
    ) -> Result<MainSeat<'a, J, S, W, Q, T, R>, AllocError>
        ensures new { IfOk result (λ main. main ≡ new_starter programs main.host) }
        ensures lane { IfOk result (λ main. main.host.carried.post.lane ≡ setup.lane) }
        ensures starts { IfOk result (λ main. main.host.carried.post.starts ≡ setup.starts) }
        ensures none { IfOk result (λ main. main.host.carried.post.places ≡ []) }
    {
        let SeatSetup {
            seat,
            lane,
            starts,
            trace,
        } = setup;
        let desk: Desk<'_, J, R> = Desk::new(seat, shared);
        let view = traced(alloc, desk, trace.records());
        let none = Vec::new(alloc);
        let post = LanePost::new(alloc, MAIN_THREAD, lane, none, starts, coordinator)?;
        let starter = Starter::over(alloc, view, post, programs)?;
        Ok(MainSeat { rt, starter, trace })
    }

    /// Runs what is asked for, tells the bus how starts ended, and writes what it recorded, at this
    /// moment in milliseconds. Answers in how many the next turn is due though nothing happens, 0
    /// where more may be waiting.
    ///
    /// # Errors
    ///
    /// What it recorded can't be written.
    pub fn turn<X: Wait>(&mut self, rt: &X, now: u64) -> Result<Option<u64>, Fault>
        ensures steps { MakesMainSteps Q.Programs J.book.number now self.old self.new }
        ensures all { IfOk result (λ wait. (wait ≡ Some RETRY_AFTER) ⊎ IsIdle self.new) }
    {
        let turned = self.starter.turn(rt, self.rt, now);
        self.starter.record(&mut self.trace)?;
        Ok(match turned {
            Ok(true) => Some(0),
            Ok(false) => self.starter.due().map(|due| due.saturating_sub(now)),
            Err(Unfinished) => Some(RETRY_AFTER),
        })
    }
}
