//! What is measured at one seat, while no other does anything.

use crate::bus::Bus;
use crate::samples::{BATCH, CONNECTIONS, OTHER_RULE, OWN_RULE, SERVICE, call, request, signal};
use anyhow::{Context, Result};
use bench_core::{Report, Work};
use match_rules::{Facts, Rule};
use names::BusName;
use registry_snapshots::Naming;
use std::sync::Wait;
use std::time::Clock;

/// What is done once.
///
/// It finds the same each time, which the checksum folds 64 times, and which follows from what is
/// done: a call gets to one connection, and a signal to the 16 that have a rule that it fits, to
/// the one that asks for its first argument or to none, and one is added; of rules 2 or 128 changes
/// are done; a name is owned and released, 2; a monitor comes and leaves, 2; of starts 100 wait and
/// 100 are released, 100,100.
#[derive(Drop)]
enum Task {
    Route(Facts<'static>),
    InTurn(Rule, usize),
    AtOnce(Rule),
    Own(BusName),
    Watch,
    Start(BusName),
}

/// A seat, and what is done at it.
#[derive(Drop)]
pub struct Doing<'a, J: Naming, R> {
    name: &'static str,
    pub bus: Bus<'a, J, R>,
    task: Task,
}

impl<'a, J: Naming, R> Doing<'a, J, R> {
    /// A seat at which nothing is done yet that has a name.
    pub fn at(bus: Bus<'a, J, R>) -> Doing<'a, J, R> {
        Doing {
            name: "",
            bus,
            task: Task::Watch,
        }
    }
}

impl<J: Naming, R: Wait> Work for Doing<'_, J, R> {
    fn name(&self) -> &'static str {
        self.name
    }

    fn once(&mut self, _round: u64) -> u64 {
        match &self.task {
            Task::Route(facts) => self.bus.route(facts),
            Task::InTurn(rule, count) => self.bus.change_in_turn(rule, *count),
            Task::AtOnce(rule) => self.bus.change_at_once(rule).unwrap_or(0),
            Task::Own(name) => self.bus.own(*name),
            Task::Watch => self.bus.watch().unwrap_or(0),
            Task::Start(name) => self.bus.start(*name).unwrap_or(0),
        }
    }
}

fn tell<J: Naming, R: Print + Clock + Wait>(
    report: &Report<'_, R>,
    doing: &mut Doing<'_, J, R>,
    name: &'static str,
    task: Task,
) -> Result<()> {
    doing.name = name;
    doing.task = task;
    Ok(report.tell(doing)?)
}

/// Each connection adds this rule so many times, or takes it back.
fn change_rules<J: Naming, R: Wait>(
    bus: &mut Bus<'_, J, R>,
    rule: &Rule,
    is_added: bool,
    each: usize,
) {
    for place in 0..CONNECTIONS {
        bus.change_rules(1 + place, rule, is_added, each);
    }
}

/// The connections add rules in turn, so many in all, that ask for a first argument of their own,
/// `com.example.N` and a number.
fn add_argument_rules<J: Naming, R: Wait>(bus: &mut Bus<'_, J, R>, count: u64) -> Result<()> {
    for number in 0..count {
        let text = format!(in bus.alloc; "{OWN_RULE},arg0='com.example.N{number}'")?;
        let rule = Rule::parse(text.as_str())?;
        bus.change_rules(1 + number % CONNECTIONS, &rule, true, 1);
    }
    Ok(())
}

/// Measures routes, with rules that a signal does not fit and with rules that it fits.
pub fn signals<J: Naming, R: Print + Clock + Wait>(
    report: &Report<'_, R>,
    doing: &mut Doing<'_, J, R>,
) -> Result<()> {
    let (other, own) = (Rule::parse(OTHER_RULE)?, Rule::parse(OWN_RULE)?);
    let name = "signals: route a call to a connection";
    tell(report, doing, name, Task::Route(call()))?;
    let name = "signals: route a signal, no rules";
    tell(report, doing, name, Task::Route(signal()))?;
    change_rules(&mut doing.bus, &other, true, 4);
    let name = "signals: route a signal, 64 rules of another member";
    tell(report, doing, name, Task::Route(signal()))?;
    let name = "signals: AddMatch and RemoveMatch, 64 rules";
    tell(report, doing, name, Task::InTurn(other, 1))?;
    change_rules(&mut doing.bus, &other, true, 252);
    let name = "signals: route a signal, 4,096 rules of another member";
    tell(report, doing, name, Task::Route(signal()))?;
    change_rules(&mut doing.bus, &other, false, 256);
    change_rules(&mut doing.bus, &own, true, 4);
    let name = "signals: route a signal, 64 rules that it fits";
    tell(report, doing, name, Task::Route(signal()))?;
    change_rules(&mut doing.bus, &own, true, 252);
    let name = "signals: route a signal, 4,096 rules that it fits";
    tell(report, doing, name, Task::Route(signal()))?;
    change_rules(&mut doing.bus, &own, false, 256);
    add_argument_rules(&mut doing.bus, 4_096)?;
    let name = "signals: route a signal, 4,096 rules with first arguments of their own";
    tell(report, doing, name, Task::Route(signal()))?;
    Ok(())
}

/// Measures changes of other kinds, and batches.
pub fn changes<J: Naming, R: Print + Clock + Wait>(
    report: &Report<'_, R>,
    doing: &mut Doing<'_, J, R>,
) -> Result<()> {
    let rule = Rule::parse(OTHER_RULE)?;
    let name = "batches: 64 AddMatch and 64 RemoveMatch, one by one";
    tell(report, doing, name, Task::InTurn(rule, BATCH))?;
    let name = "batches: 64 AddMatch and 64 RemoveMatch, a batch each";
    tell(report, doing, name, Task::AtOnce(rule))?;
    let name = "monitors: Hello, BecomeMonitor and Leave";
    tell(report, doing, name, Task::Watch)?;
    let name = "starts: 100 StartServiceByName, RequestName and ReleaseName";
    tell(report, doing, name, Task::Start(BusName::parse(SERVICE)?))?;
    let free = BusName::parse("com.example.Clock")?;
    take_names(&mut doing.bus, 0, 1)?;
    let name = "names: RequestName and ReleaseName, 1 name held";
    tell(report, doing, name, Task::Own(free))?;
    take_names(&mut doing.bus, 1, 1_000)?;
    let name = "names: RequestName and ReleaseName, 1,000 names held";
    tell(report, doing, name, Task::Own(free))?;
    Ok(())
}

/// The connections take names in turn, `com.example.N` with each of these numbers.
fn take_names<J: Naming, R: Wait>(bus: &mut Bus<'_, J, R>, first: u64, end: u64) -> Result<()> {
    for number in first..end {
        let text = format!(in bus.alloc; "com.example.N{number}")?;
        let change = request(1 + number % CONNECTIONS, BusName::parse(text.as_str())?);
        bus.make(change).context("a name is refused")?;
    }
    Ok(())
}
