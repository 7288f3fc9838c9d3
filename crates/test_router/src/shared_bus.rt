//! Scenarios over a registry that several routers share.

ghost use Rattle.std.specs.Prelude.{◌≡◌, ◌≤◌};
ghost use Rattle.seq_bus_core.specs.Histories.{max_routers};

use crate::scenario::Scenario;
use crate::scene;
use crate::scene::{Places, StageHost};
use crate::watch::{Findings, Lookout, Watch};
use anyhow::{Result, bail};
use outbox::{Outboxes, open_queue};
use registry_snapshots::{Desk, Naming, Seat, Serve, Shared, start};
use router::Traced;
use routers::{Coordinator, LanePost, Wake};
use std::alloc::{AllocError, Global};
use std::sync::Wait;

/// Wakes nobody: all routers look.
#[derive(Clone, Copy)]
struct NoWaker;

impl Wake for NoWaker {
    fn wake(&self) {}
}

/// What this many routers tell one another by.
fn coordinator(alloc: Global, routers: u8) -> Result<Coordinator<NoWaker>, AllocError> {
    let wakers = Vec::from_elem(alloc, NoWaker, usize::from(routers))?;
    Coordinator::new(alloc, wakers, NoWaker)
}

/// A router of a registry.
type SharedHost<'b, 'c, J, R> = StageHost<
    Traced<Desk<'b, J, R>>,
    Watch<'b, J, R>,
    LanePost<'c, J, NoWaker>,
>;

/// The answers of a registry, whose routers all serve in this thread.
pub fn play<R: Wait>(rt: &R, alloc: Global, scenario: Scenario<'_>) -> Result<String> {
    let routers = scenario.routers;
    let stage = Stage {
        rt,
        alloc,
        scenario,
        routers,
    };
    match start(rt, alloc, &[], routers, stage) {
        Ok(answers) => answers,
        Err(fault) => bail!("no registry: {fault}"),
    }
}

/// What a scenario is played with.
#[derive(Drop)]
struct Stage<'a, R> {
    rt: &'a R,
    alloc: Global,
    scenario: Scenario<'a>,
    routers: u8,
}

impl<'a, R: Wait> Serve for Stage<'a, R> {
    ghost use Rattle.std.specs.Prelude.{[]};
    ghost use Rattle.owner_queues.specs.declared.request.Profile.TheVariants.{Two};
    ghost use Rattle.seq_bus_core.specs.Tickets.{opening_bus};

    type Out = Result<String>;

    ghost bus = { λ s. opening_bus Two s.routers [] };

    fn serve<J: Naming + Send + Sync>(
        self,
        shared: Shared<J>,
        seats: Vec<Seat<J>>,
    ) -> Result<String> {
        let answers = self.answers(&shared, seats);
        shared.end(self.rt);
        answers
    }
}

impl<'a, R: Wait> Stage<'a, R> {
    fn answers<J: Naming>(&self, shared: &Shared<J>, seats: Vec<Seat<J>>) -> Result<String>
        requires { self.now.routers ≡ J.opening.state.routers }
    {
        let routers = self.routers;
        if routers == 0 || routers > 8 {
            bail!("no such number of routers");
        }
        let coordinator = coordinator(self.alloc, routers)?;
        self.answers_over(shared, seats, &coordinator)
    }

    fn answers_over<'b, 'c, J: Naming>(
        &self,
        shared: &'b Shared<J>,
        seats: Vec<Seat<J>>,
        coordinator: &'c Coordinator<NoWaker>,
    ) -> Result<String> {
        let findings = Findings::new(self.alloc)?;
        let found = findings.try_clone()?;
        let (lanes, taps) = Outboxes::new(self.alloc, shared)?;
        // Nobody runs programs.
        let (starts, _requests) = open_queue(self.alloc, usize::from(shared.routers()) + 1)?;
        // Seat 0 and its lanes are those of the thread that accepts connections.
        let mut seats = seats.into_iter();
        let mut lookout = self.lookout(shared, seats.next(), found);
        let ways = lanes.into_iter().zip(starts).skip(1).zip(taps);
        let mut hosts: Vec<SharedHost<'b, 'c, J, R>> = Vec::new(self.alloc);
        let mut is_short = false;
        for ((router, seat), ((lane, starts), taps)) in seats.enumerate().zip(ways) {
            let desk: Desk<'b, J, R> = Desk::new(seat, shared);
            let gate = Watch {
                alloc: self.alloc,
                lookout: lookout.take(),
            };
            let Ok(post) = LanePost::new(self.alloc, router, lane, taps, starts, coordinator) else {
                is_short = true;
                continue;
            };
            let host = scene::host(
                self.alloc,
                Traced::silent(self.alloc, desk),
                gate,
                self.scenario.login(self.alloc),
                post,
                self.places(router),
            );
            is_short = scene::add(&mut hosts, host).is_err() || is_short;
        }
        drop(lookout);
        if is_short {
            drop(hosts);
            bail!("out of memory");
        }
        scene::play(self.alloc, hosts, findings, self.rt, self.scenario)
    }

    /// The places of a router, of which the first has the number 0.
    fn places(&self, router: usize) -> Places {
        let count = 256 / u16::from(self.routers.max(1));
        let router = u16::try_from(router).unwrap_or(0);
        Places {
            first: router.saturating_mul(count),
            count,
        }
    }

    /// What a gate looks through, where it is to be told what it finds.
    fn lookout<'b, J: Naming>(
        &self,
        shared: &'b Shared<J>,
        seat: Option<Seat<J>>,
        findings: Findings,
    ) -> Option<Lookout<'b, J, R>> {
        if !self.scenario.is_watched {
            return None;
        }
        let desk: Desk<'b, J, R> = Desk::new(seat?, shared);
        Some(Lookout { desk, findings })
    }
}
