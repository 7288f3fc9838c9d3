//! How many rules a message is tested by.

ghost use Rattle.std.specs.Prelude.{◌≡◌, ◌≤◌, ◌+◌, option_map, if◌then◌else◌};
ghost use Rattle.match_rules.specs.Fitting.{is_text};
ghost use Rattle.match_index.specs.Near.{is_near};

use crate::listeners::Listeners;
use match_index::Steps;
use match_index::laws::{other_interfaces_are_not_near, other_members_are_not_near};
use match_rules::{Facts, Owners, Rule};
use std::alloc::{AllocError, Global};
use std::marker::Model;
use std::sync::ledger::Ledger;

/// An index, a message, and how many rules of the index the message is tested by at most: those
/// that name no other member and no other interface.
#[derive(Drop)]
pub struct Tally<'a> {
    listeners: Listeners,
    facts: Facts<'a>,
    most: usize,
}

impl<'a> Model for Tally<'a> {
    ghost use Rattle.std.specs.Prelude.{ℕ, ◌≤◌};
    ghost use Rattle.match_index.specs.Near.{near_rules};

    ghost Value = { ℕ };

    ghost view = { λ t. t.most };

    ghost invariant = { λ t. near_rules t.facts t.listeners ≤ t.most };
}

impl<'a> Tally<'a> {
    pub fn new(alloc: Global, facts: Facts<'a>) -> Result<Tally<'a>, AllocError> {
        Ok(Tally {
            listeners: Listeners::new(alloc)?,
            facts,
            most: 0,
        })
    }

    /// How many rules the message is tested by at most.
    pub fn most(&self) -> usize
        ensures { result ≡ self.now }
    {
        self.most
    }

    /// The index.
    pub fn listeners(&self) -> &Listeners {
        &self.listeners
    }

    /// Adds the rule of a text; false where that is none, or where there is no room.
    #[tactic(auto, using(crate::proofs::Near::counted))]
    pub fn add(&mut self, connection: u64, text: &str) -> bool {
        let Ok(rule) = Rule::parse(text) else {
            return false;
        };
        let Some(most) = self.most.checked_add(tests_by(&rule, &self.facts)) else {
            return false;
        };
        self.most = most;
        self.listeners.add_rule(connection, rule)
    }

    /// Whether these connections have a rule that fits the message, and no others. Each rule that
    /// is tested is a step.
    pub fn hear<O: Owners, L: Ledger>(
        &self,
        owners: &O,
        wanted: &[u64],
        steps: &mut Steps<L>,
    ) -> bool
        ensures cost { steps.new ≤ steps.old + self.now }
    {
        self.listeners.hear_in(&self.facts, owners, wanted, steps)
    }
}

/// How often a message is tested by a rule at most: never where the rule names another member or
/// another interface.
fn tests_by(rule: &Rule, facts: &Facts<'_>) -> usize
    ensures { (if is_near facts.now rule.now then 1 else 0) ≤ result }
{
    other_members_are_not_near();
    other_interfaces_are_not_near();
    if let Some(member) = rule.member() {
        if !is_text(member, facts.member) {
            return 0;
        }
    }
    if let Some(interface) = rule.interface() {
        if !is_text(interface, facts.interface) {
            return 0;
        }
    }
    1
}

/// Whether a message has this text in a field.
fn is_text(name: &str, text: Option<&str>) -> bool
    ensures { result ≡ is_text name.now (option_map (λ t. t.now) text.entry) }
{
    match text {
        Some(text) => name == text,
        None => false,
    }
}
