//! The programs of services: which are run, and what routers are told of them.

ghost use Rattle.std.specs.Prelude.{◌≡◌, ◌⊎◌, ◌<◌, ◌++◌, ◌∷◌, [], IfErr, IfOk, OnErr, OnOk, IsOk};
ghost use Rattle.std.specs.Prelude.{option_map, reverse, slice_get, vec_capacity, vec_len};
ghost use Rattle.supervisor.specs.Supervising.{due_of};
ghost use Rattle.supervisor.specs.declared.deed.Deed.TheVariants.{Run};
ghost use Rattle.starter.specs.Ends.{HasEndedBy, MayCatchUpBy, end_of};
ghost use Rattle.starter.specs.Starting.{GoesAheadBy, IsDoneBy, MakesStepsBy};
ghost use Rattle.starter.specs.States.{AreInOrder, AreReports, IsIdle, IsNotRun, IsReport, new_starter};

use crate::programs::Programs;
use crate::unfinished::Unfinished;
use bus_view::BusView;
use names::BusName;
use router::Engine;
use router_core::{Gate, HowEnded, OpenGate, StartEnd};
use router_host::{Host, Post, Socket};
use routers::{Fault, TraceWriter};
use seq_bus_core::Change;
use std::alloc::{AllocError, Global};
use std::marker::Model;
use std::mem;
use std::sync::Wait;
use supervisor::{Deed, Event, Supervisor};

/// How many happenings are looked at in a turn.
const EVENTS_AT_ONCE: u32 = 512;

/// A supervisor of started programs, and a host without connections, by which the bus is told how
/// starts end.
#[derive(Drop)]
pub struct Starter<V: BusView, G: Gate, P: Post<V>, S: Socket, Q: Programs + Drop> {
    alloc: Global,
    host: Host<V, G, P, S>,
    supervisor: Supervisor,
    programs: Q,
    /// What is to be done, the last first.
    deeds: Vec<Deed>,
    /// What the supervisor is to be told next.
    happened: Option<Event>,
}

impl<V: BusView, G: Gate, P: Post<V>, S: Socket, Q: Programs + Drop> Model
    for Starter<V, G, P, S, Q> {
    ghost use Rattle.std.specs.Prelude.{reverse};
    ghost use Rattle.starter.specs.States.{AreReports, StarterState};

    ghost Value = { StarterState Q P G V.Note };

    ghost view = { λ s. record {
      kept = s.supervisor;
      due = reverse s.deeds.items;
      untold = s.happened;
      programs = s.programs;
      host = s.host;
    } };

    ghost invariant = { λ s. AreReports (reverse s.deeds.items) };
}

/// How a start ended, where a change of the bus tells that.
fn end_of(change: &Change) -> Option<StartEnd>
    ensures { result ≡ end_of change.now }
{
    match change {
        Change::ChildEnded { name, start, how } => Some(StartEnd {
            name: *name,
            start: *start,
            how: HowEnded::Program(*how),
        }),
        Change::StartTimedOut { name, start } => Some(StartEnd {
            name: *name,
            start: *start,
            how: HowEnded::TimedOut,
        }),
        _ => None,
    }
}

impl<V: BusView + Drop, P: Post<V>, S: Socket, Q: Programs + Drop> Starter<V, OpenGate, P, S, Q> {
    /// A starter over a view of the bus, which tells it by a host without connections. It takes
    /// memory.
    pub fn over(alloc: Global, view: V, post: P, programs: Q) -> Result<Self, AllocError>
        requires { P.registry post ≡ (V.knows view).registry }
        ensures new { IfOk result (λ starter. starter ≡ new_starter programs starter.host) }
        ensures post { IfOk result (λ starter. starter.host.carried.post ≡ post) }
    {
        let engine = Engine::new(alloc, view, OpenGate, None)?;
        let host = Host::new(alloc, engine, post, 0, 0)?;
        Ok(Starter::new(alloc, host, programs))
    }
}

impl<V: BusView, G: Gate, P: Post<V>, S: Socket, Q: Programs + Drop> Starter<V, G, P, S, Q> {
    /// A starter without starts, which tells the bus by this host.
    pub fn new(alloc: Global, host: Host<V, G, P, S>, programs: Q) -> Self
        ensures { result ≡ new_starter programs host }
    {
        Starter {
            alloc,
            host,
            supervisor: Supervisor::new(alloc),
            programs,
            deeds: Vec::new(alloc),
            happened: None,
        }
    }

    /// The moment when a turn is due though nothing happens, in milliseconds.
    pub fn due(&self) -> Option<u64>
        ensures { result ≡ option_map due_of (slice_get self.now.kept.starts 0) }
    {
        self.supervisor.due()
    }

    /// Runs what is asked for, and tells the bus how starts ended, at this moment in milliseconds.
    /// Tells whether more may be waiting.
    ///
    /// # Errors
    ///
    /// Something could not be done yet. It is done first in the next turn, which is to come some
    /// time later.
    pub fn turn<R: Wait>(&mut self, rt: &R, right: &V::Right, now: u64) -> Result<bool, Unfinished>
        ensures steps { MakesStepsBy Q.Programs V.BusView G.Gate P.Post now self.old self.new }
        ensures all { OnOk result (IsIdle self.new) }
    {
        let reported = self.tell_all(rt, right, now);
        let ticked = self.tick(right);
        let turned = self.host.turn(right);
        self.outcome(reported, ticked, turned)
    }

    /// Time has passed, where a tick is wanted.
    fn tick(&mut self, right: &V::Right) -> Result<(), AllocError>
        ensures steps { GoesAheadBy Q.Programs V.BusView G.Gate P.Post self.old self.new }
        ensures same { self.new ≡ record self.old { host = self.new.host } }
    {
        if !self.host.wants_tick() {
            return Ok(());
        }
        self.host.tick(right)
    }

    /// What a turn came to.
    fn outcome(
        &self,
        reported: Result<bool, Unfinished>,
        ticked: Result<(), AllocError>,
        turned: Result<(), AllocError>,
    ) -> Result<bool, Unfinished>
        ensures { OnOk result (IsOk reported) }
    {
        turned?;
        ticked?;
        match self.host.wants_tick() {
            true => Err(Unfinished),
            false => reported,
        }
    }

    /// Writes what the turns up to now recorded.
    ///
    /// # Errors
    ///
    /// It can't be written, or there was no memory for a part of it.
    pub fn record<T: TraceWriter<V, G, P, S>>(&mut self, trace_writer: &mut T) -> Result<(), Fault>
        ensures same { self.new ≡ self.old }
    {
        trace_writer.record(&mut self.host)
    }

    /// Tells the supervisor the time, and what happened since, up to so many. Tells whether more may
    /// be waiting.
    fn tell_all<R: Wait>(&mut self, rt: &R, right: &V::Right, now: u64) -> Result<bool, Unfinished>
        ensures steps { MakesStepsBy Q.Programs V.BusView G.Gate P.Post now self.old self.new }
        ensures all { OnOk result (IsIdle self.new) }
    {
        self.go_on(right)?;
        self.tell(right, Event::Tick { now })?;
        for _ in 0..EVENTS_AT_ONCE {
            let Some(event) = self.programs.next(rt) else {
                return Ok(false);
            };
            self.tell(right, event)?;
        }
        Ok(true)
    }

    /// Something happened to a program, or is asked for.
    fn tell(&mut self, right: &V::Right, event: Event) -> Result<(), Unfinished>
        ensures steps { GoesAheadBy Q.Programs V.BusView G.Gate P.Post
            (record self.old { untold = Some event }) self.new }
        ensures all { OnOk result (IsIdle self.new) }
    {
        self.happened = Some(event);
        self.go_on(right)
    }

    /// Does what is left to be done. A program that can't be run is one more thing that happened.
    fn go_on(&mut self, right: &V::Right) -> Result<(), Unfinished>
        ensures steps { GoesAheadBy Q.Programs V.BusView G.Gate P.Post self.old self.new }
        ensures all { OnOk result (IsIdle self.new) }
    {
        let deeds = mem::replace(&mut self.deeds, Vec::new(self.alloc));
        self.do_all(right, deeds)?;
        self.supervise(right)?;
        self.supervise(right)
    }

    /// Tells the supervisor what happened, and does what it decides.
    fn supervise(&mut self, right: &V::Right) -> Result<(), Unfinished>
        requires idle { self.old.due ≡ [] }
        ensures steps { GoesAheadBy Q.Programs V.BusView G.Gate P.Post self.old self.new }
        ensures all { OnOk result (self.new.due ≡ []) }
        ensures not_run { OnOk result (IsNotRun self.new.untold) }
        ensures told { OnOk result (IsNotRun self.old.untold → self.new.untold ≡ None) }
    {
        let Some(event) = self.happened else {
            return Ok(());
        };
        let mut deeds = self.supervisor.event(&event)?;
        self.happened = None;
        deeds.reverse();
        self.do_all(right, deeds)
    }

    /// Does these things, from the last to the first. What can't be done yet is due still.
    fn do_all(&mut self, right: &V::Right, mut deeds: Vec<Deed>) -> Result<(), Unfinished>
        requires idle { self.old.due ≡ [] }
        requires order { AreInOrder (reverse deeds.items) self.old.untold }
        ensures steps { GoesAheadBy Q.Programs V.BusView G.Gate P.Post
            (record self.old { due = reverse deeds.items }) self.new }
        ensures all { OnOk result (self.new.due ≡ []) }
        ensures told { AreReports (reverse deeds.items) → self.new.untold ≡ self.old.untold }
        ensures not_run { IsNotRun self.old.untold → IsNotRun self.new.untold }
    {
        while let Some(deed) = deeds.pop() {
            if let Err(deed) = self.do_one(right, deed) {
                push_back(&mut deeds, deed);
                self.deeds = deeds;
                return Err(Unfinished);
            }
        }
        Ok(())
    }

    /// Does one thing. Where there is no memory for it, it comes back.
    fn do_one(&mut self, right: &V::Right, deed: Deed) -> Result<(), Deed>
        requires { IsReport deed ⊎ (self.old.untold ≡ None) }
        ensures done { OnOk result
            (IsDoneBy Q.Programs V.BusView G.Gate P.Post deed self.old self.new) }
        ensures err { OnErr result (MayCatchUpBy V.BusView G.Gate P.Post
            self.old.host self.new.host) }
        ensures same { OnErr result (self.new ≡ record self.old { host = self.new.host }) }
        ensures report { OnErr result (IsReport deed) }
        ensures back { IfErr result (λ later. later ≡ deed) }
    {
        match deed {
            Deed::Run { name, start } => {
                self.run(&name, start);
                Ok(())
            }
            Deed::Report(change) => match self.report(right, &change) {
                Ok(()) => Ok(()),
                Err(AllocError) => Err(Deed::Report(change)),
            },
        }
    }

    /// Runs the program of a service. That it can't be run is the next thing that happened.
    fn run(&mut self, name: &BusName, start: u64)
        requires { self.old.untold ≡ None }
        ensures { IsDoneBy Q.Programs V.BusView G.Gate P.Post (Run name.now start)
            self.old self.new }
    {
        if self.programs.run(name, start) {
            return;
        }
        self.happened = Some(Event::NotRun { start });
    }

    /// Tells the bus how a start ended.
    fn report(&mut self, right: &V::Right, change: &Change) -> Result<(), AllocError>
        ensures happens { OnOk result (HasEndedBy V.BusView G.Gate P.Post
            (end_of change.now) self.old.host self.new.host) }
        ensures err { OnErr result (MayCatchUpBy V.BusView G.Gate P.Post
            self.old.host self.new.host) }
        ensures same { self.new ≡ record self.old { host = self.new.host } }
    {
        let Some(end) = end_of(change) else {
            return Ok(());
        };
        match Box::new(self.alloc, end) {
            Ok(end) => self.host.end_start(right, end),
            Err(_) => Err(AllocError),
        }
    }
}

/// An element that was taken from the end stands there again.
fn push_back<T: Drop>(elements: &mut Vec<T>, element: T)
    requires { vec_len elements.old < vec_capacity elements.old }
    ensures { elements.new.items ≡ elements.old.items ++ element ∷ [] }
{
    let _ = elements.push(element);
}
