//! Match rules.

ghost use Rattle.std.specs.Prelude.{None};

use anyhow::Result;
use bench_core::{Report, Work};
use match_rules::{Argument, Facts, MessageKind, Owners, Rule};
use std::time::Clock;

const TEXTS: [&str; 2] = [
    "type='signal',sender='org.freedesktop.DBus',interface='org.freedesktop.DBus',member='NameOwnerChanged',path='/org/freedesktop/DBus',arg0='com.example.A'",
    "type='signal',sender='org.freedesktop.DBus',interface='org.freedesktop.DBus',member='NameOwnerChanged',path='/org/freedesktop/DBus',arg0='com.example.A'",
];

/// Rules that the signal does not fit: it has another member, or another first argument.
const OTHERS: [&str; 2] = [
    "type='signal',interface='org.freedesktop.DBus',member='NameAcquired'",
    "type='signal',sender='org.freedesktop.DBus',interface='org.freedesktop.DBus',member='NameOwnerChanged',arg0='com.example.X'",
];

pub fn measure<R: Print + Clock>(report: &Report<'_, R>) -> Result<()> {
    report.tell(&mut ParseRule)?;
    report.tell(&mut Fit {
        name: "match rules: a rule that does not fit",
        rules: [rule(OTHERS[0]), rule(OTHERS[1])],
        facts: signal(),
    })?;
    report.tell(&mut Fit {
        name: "match rules: a rule that fits",
        rules: [rule(TEXTS[0]), rule(TEXTS[1])],
        facts: signal(),
    })?;
    Ok(())
}

#[derive(Drop)]
struct ParseRule;

impl Work for ParseRule {
    fn name(&self) -> &'static str {
        "match rules: parse"
    }

    fn once(&mut self, round: u64) -> u64 {
        match Rule::parse(TEXTS[(round % 2) as usize]) {
            Ok(rule) => rule.member().map_or(0, |name| name.len() as u64),
            Err(fault) => u64::from(fault.code()),
        }
    }
}

#[derive(Drop)]
struct Fit {
    name: &'static str,
    rules: [Rule; 2],
    facts: Facts<'static>,
}

impl Work for Fit {
    fn name(&self) -> &'static str {
        self.name
    }

    fn once(&mut self, round: u64) -> u64 {
        if does_fit(&self.rules, round, &self.facts) {
            1
        } else {
            2
        }
    }
}

fn does_fit(rules: &[Rule; 2], round: u64, facts: &Facts<'static>) -> bool {
    rules[(round % 2) as usize].fits(facts, &Nobody)
}

/// A bus on which no name is owned.
struct Nobody;

impl Owners for Nobody {
    ghost heads = { λ _ _. None };

    fn head(&self, _name: &str) -> Option<u64> {
        None
    }
}

fn rule(text: &str) -> Rule {
    match Rule::parse(text) {
        Ok(rule) => rule,
        Err(_) => Rule::default(),
    }
}

/// The signal that a name has another owner.
fn signal() -> Facts<'static> {
    Facts {
        kind: MessageKind::Signal,
        auto_start: true,
        sender: 0,
        path: Some("/org/freedesktop/DBus"),
        interface: Some("org.freedesktop.DBus"),
        member: Some("NameOwnerChanged"),
        destination: None,
        arguments: &[
            Argument::String("com.example.A"),
            Argument::String(""),
            Argument::String(":1.42"),
        ],
    }
}
