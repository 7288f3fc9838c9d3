//! The supervisor of started programs.

ghost use Rattle.std.specs.Prelude.{◌≡◌, ◌==◌, not, [], filter, map, option_map, slice_get, IfOk, OnErr, OnOk};
ghost use Rattle.supervisor.specs.Supervising.{asked, decide, due_of, ended, is_late, report_late, start_of, ticked, without};

use crate::{Deed, Event, Start};
use names::BusName;
use seq_bus_core::{Change, Ending};
use std::alloc::{AllocError, Global};
use std::marker::Model;

/// Keeps the starts whose programs may still take their names, and decides what is told to the bus
/// of them.
#[derive(Drop)]
pub struct Supervisor {
    alloc: Global,
    now: u64,
    starts: Vec<Start>,
}

impl Model for Supervisor {
    ghost use Rattle.supervisor.specs.Supervising.{Kept};

    ghost Value = { Kept };

    ghost view = { λ s. record { now = s.now; starts = s.starts.items } };
}

/// The start of this number, the first where there are several.
fn start_of(starts: &[Start], number: u64) -> Option<Start>
    ensures { result ≡ start_of number starts.now }
{
    starts.iter().copied().find(|start| start.number == number)
}

/// Forgets the start of this number.
fn forget(starts: &mut Vec<Start>, number: u64)
    ensures { starts.new.items ≡ without number starts.old.items }
{
    starts.retain(|start| start.number != number);
}

/// Forgets the starts whose programs have had their time.
fn forget_late(starts: &mut Vec<Start>, now: u64)
    ensures { starts.new.items ≡ filter (λ start. not (is_late now start)) starts.old.items }
{
    starts.retain(|start| !start.is_late(now));
}

fn report_late(start: &Start) -> Deed
    ensures { result ≡ report_late start.now }
{
    Deed::Report(Change::StartTimedOut {
        name: start.name,
        start: start.number,
    })
}

/// Reports the starts whose programs have had their time.
fn report_all_late(alloc: Global, starts: &[Start], now: u64) -> Result<Vec<Deed>, AllocError>
    ensures { IfOk result (λ deeds. deeds.items
        ≡ map report_late (filter (is_late now) starts.now)) }
{
    starts
        .iter()
        .filter(|start| start.is_late(now))
        .map(report_late)
        .collect(alloc)
}

impl Supervisor {
    /// A supervisor that keeps no start, at moment 0.
    pub fn new(alloc: Global) -> Supervisor
        ensures { result ≡ record { now = 0; starts = [] } }
    {
        Supervisor {
            alloc,
            now: 0,
            starts: Vec::new(alloc),
        }
    }

    fn ask(&mut self, name: BusName, number: u64) -> Result<Vec<Deed>, AllocError>
        ensures deeds { IfOk result (λ deeds. deeds.items ≡ (asked self.old name number).deeds) }
        ensures kept { OnOk result (self.new ≡ (asked self.old name number).kept) }
        ensures err { OnErr result (self.new ≡ self.old) }
    {
        let start = number;
        let deeds = vec![in self.alloc; Deed::Run { name, start }]?;
        self.starts.push(Start {
            name,
            number,
            since: self.now,
        })?;
        Ok(deeds)
    }

    fn end(&mut self, number: u64, how: Ending) -> Result<Vec<Deed>, AllocError>
        ensures deeds { IfOk result (λ deeds. deeds.items ≡ (ended self.old number how).deeds) }
        ensures kept { OnOk result (self.new ≡ (ended self.old number how).kept) }
        ensures err { OnErr result (self.new ≡ self.old) }
    {
        let Some(start) = start_of(&self.starts, number) else {
            return Ok(Vec::new(self.alloc));
        };
        let change = Change::ChildEnded {
            name: start.name,
            start: number,
            how,
        };
        let deeds = vec![in self.alloc; Deed::Report(change)]?;
        if how != Ending::Exit(0) {
            forget(&mut self.starts, number);
        }
        Ok(deeds)
    }

    fn tick(&mut self, now: u64) -> Result<Vec<Deed>, AllocError>
        ensures deeds { IfOk result (λ deeds. deeds.items ≡ (ticked self.old now).deeds) }
        ensures kept { OnOk result (self.new ≡ (ticked self.old now).kept) }
        ensures err { OnErr result (self.new ≡ self.old) }
    {
        let now = now.max(self.now);
        let deeds = report_all_late(self.alloc, &self.starts, now)?;
        forget_late(&mut self.starts, now);
        self.now = now;
        Ok(deeds)
    }

    /// The moment when the start that was asked for first has had its time, of those that are kept.
    pub fn due(&self) -> Option<u64>
        ensures { result ≡ option_map due_of (slice_get self.entry.now.starts 0) }
    {
        self.starts.first().map(Start::due)
    }

    /// What is to be done at an event, in order. A start is kept from when it is asked for until
    /// its program fails, or [`START_TIMEOUT`](crate::START_TIMEOUT) has passed; an event of one
    /// that is not kept brings nothing.
    ///
    /// # Errors
    ///
    /// `AllocError` where memory is refused; nothing changed then.
    pub fn event(&mut self, event: &Event) -> Result<Vec<Deed>, AllocError>
        ensures deeds { IfOk result (λ deeds. deeds.items ≡ (decide self.old event.now).deeds) }
        ensures kept { OnOk result (self.new ≡ (decide self.old event.now).kept) }
        ensures err { OnErr result (self.new ≡ self.old) }
    {
        match *event {
            Event::Asked { name, start } => self.ask(name, start),
            Event::Ran { .. } => Ok(Vec::new(self.alloc)),
            Event::NotRun { start } => self.end(start, Ending::NotRun),
            Event::Exited { start, status } => self.end(start, Ending::Exit(status)),
            Event::Killed { start } => self.end(start, Ending::Killed),
            Event::Tick { now } => self.tick(now),
        }
    }
}
