//! Traces.

ghost use Rattle.std.specs.Prelude.{◌≡◌, ◌+◌, ◌<◌, ◌≤◌, ◌^◌, false, length, IfOk, option_map, if◌then◌else◌};
ghost use Rattle.std.specs.List.{AllByRecursion};
ghost use Rattle.seq_bus_core.specs.Histories.{CanOpen, max_routers};
ghost use Rattle.seq_bus_core.specs.Steps.{is_reserved};
ghost use Rattle.trace_check_core.specs.KeptLines.{IsSeated};
ghost use Rattle.trace_check_core.specs.Legality.{changes_in};
ghost use Rattle.trace_check_core.specs.Traces.{takes_service, trace_headed, with_line, with_service, with_text};
ghost use Rattle.trace_lines.specs.Lines.{line_of};
ghost use Rattle.trace_check_core.specs.TraceViews.{taken};
ghost use Rattle.trace_check_core.specs.Verdicts.{first_line, next_line};

use crate::kept_line::KeptLine;
use names::WellKnown;
use owner_queues::Profile;
use seq_bus_core::limits::MAX_SERVICES;
use std::alloc::{AllocError, Global};
use std::marker::Model;
use trace_lines::read_service;

/// A trace: its head, and the lines behind it.
///
/// Contracts see what the trace says.
#[derive(Drop)]
pub struct Trace<'a> {
    profile: Profile,
    routers: u8,
    /// By rising bytes.
    services: Vec<WellKnown>,
    lines: Vec<KeptLine<'a>>,
    /// How many lines it has, those of its head with them.
    count: u64,
}

impl<'a> Model for Trace<'a> {
    ghost use Rattle.trace_check_core.specs.Traces.{Trace as Said};
    ghost use Rattle.trace_check_core.specs.TraceViews.{IsHeld, trace_said};

    ghost Value = { Said };

    ghost view = { trace_said };

    ghost invariant = { IsHeld };
}

impl<'a> Trace<'a> {
    /// A trace with a head of two lines.
    #[tactic(auto, using(crate::proofs::Openings::headed_opens))]
    pub(crate) fn headed(alloc: Global, profile: Profile, routers: u8) -> Trace<'a>
        requires { (1 ≤ routers) × (routers ≤ max_routers) }
        ensures { result ≡ trace_headed profile routers }
    {
        Trace {
            profile,
            routers,
            services: Vec::new(alloc),
            lines: Vec::new(alloc),
            count: 2,
        }
    }

    /// Takes one line more, and says whether the text is one that may stand there.
    #[tactic(auto, using(crate::proofs::Openings::said_ownable))]
    pub(crate) fn take(&mut self, alloc: Global, text: &'a str) -> Result<bool, AllocError>
        requires { next_line self.old < 2 ^ 64 }
        ensures taken { IfOk result (λ is_line.
            taken is_line self.new ≡ with_text self.old text.now) }
        ensures counted { IfOk result (λ is_line. next_line self.new
            ≡ next_line self.old + (if is_line then 1 else 0)) }
    {
        if let Some(name) = read_service(text) {
            return self.take_service(name);
        }
        self.take_line(alloc, text)
    }

    #[tactic(auto, using(crate::proofs::Openings::service_opens))]
    fn take_service(&mut self, name: WellKnown) -> Result<bool, AllocError>
        requires numbered { next_line self.old < 2 ^ 64 }
        requires ownable { is_reserved name ≡ false }
        ensures taken { IfOk result (λ is_line.
            taken is_line self.new ≡ with_service self.old name) }
        ensures counted { IfOk result (λ is_line. next_line self.new
            ≡ next_line self.old + (if is_line then 1 else 0)) }
    {
        if !self.takes_service(&name) {
            return Ok(false);
        }
        self.services.push(name)?;
        self.count += 1;
        Ok(true)
    }

    fn takes_service(&self, name: &WellKnown) -> bool
        ensures { result ≡ takes_service self.now name.now }
    {
        self.lines.is_empty()
            && self.services.len() < MAX_SERVICES
            && self.services.iter().all(|service| service < name)
    }

    fn take_line(&mut self, alloc: Global, text: &'a str) -> Result<bool, AllocError>
        requires { next_line self.old < 2 ^ 64 }
        ensures taken { IfOk result (λ is_line. taken is_line self.new
            ≡ option_map (with_line self.old) (line_of self.old.routers text.now)) }
        ensures counted { IfOk result (λ is_line. next_line self.new
            ≡ next_line self.old + (if is_line then 1 else 0)) }
    {
        let Some(line) = KeptLine::read(alloc, self.routers, text)? else {
            return Ok(false);
        };
        self.lines.push(line)?;
        self.count += 1;
        Ok(true)
    }

    /// The profile of the queues.
    pub fn profile(&self) -> Profile
        ensures { result ≡ self.now.profile }
    {
        self.profile
    }

    /// The number of routers.
    pub fn routers(&self) -> u8
        ensures value { result ≡ self.now.routers }
        ensures opened { CanOpen result self.now.services }
        ensures lines_seated { AllByRecursion (IsSeated result) self.now.lines }
    {
        self.routers
    }

    /// The services, by rising bytes.
    pub fn services(&self) -> &[WellKnown]
        ensures { result.now ≡ self.now.services }
    {
        self.services.as_slice()
    }

    /// The lines behind the head.
    pub fn lines(&self) -> &[KeptLine<'a>]
        ensures value { result.now ≡ self.now.lines }
        ensures numbered { next_line self.now ≤ 2 ^ 64 }
    {
        self.lines.as_slice()
    }

    /// The number of the line that would come next.
    pub(crate) fn next_line(&self) -> u64
        requires { next_line self.now < 2 ^ 64 }
        ensures { result ≡ next_line self.now }
    {
        self.count + 1
    }

    /// How many lines the head has.
    pub fn head_lines(&self) -> u64
        ensures { result + 1 ≡ first_line self.now }
    {
        self.services.len() as u64 + 2
    }

    /// How many of the lines are changes.
    pub fn changes(&self) -> usize
        ensures value { result ≡ changes_in self.now.lines }
        ensures few { result ≤ length self.now.lines }
    {
        self.lines
            .iter()
            .filter(|line| line.number().is_some())
            .count()
    }
}
