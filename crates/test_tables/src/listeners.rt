//! An index for tests, where few connections have rules.

ghost use Rattle.std.specs.Prelude.{◌≡◌, ◌<◌, ◌≤◌, ◌+◌, ◌++◌, ◌∷◌, [], true, false, IfOk};
ghost use Rattle.match_index.specs.Near.{near_rules};

use match_index::{ConnSet, Index, Steps};
use match_rules::{Facts, Owners, Rule};
use std::alloc::{AllocError, Global};
use std::marker::Model;
use std::sync::ledger::Ledger;

/// An index of the rules of connections with numbers below 256, so that they are few.
#[derive(Drop)]
pub struct Listeners {
    index: Index,
}

impl Model for Listeners {
    ghost use Rattle.std.specs.Prelude.{List, ◌<◌};
    ghost use Rattle.std.specs.List.{AllByRecursion};
    ghost use Rattle.match_rules.specs.OwnedRules.{OwnedRule};

    ghost Value = { List OwnedRule };

    ghost view = { λ l. l.index };

    ghost invariant = { λ l. AllByRecursion (λ r. r.connection < 256) l.index };
}

impl Listeners {
    pub fn new(alloc: Global) -> Result<Listeners, AllocError>
        ensures { IfOk result (λ listeners. listeners ≡ []) }
    {
        Ok(Listeners {
            index: Index::new(alloc)?,
        })
    }

    /// Adds the rule of a text; false where that is none, or where there is no room.
    pub fn add(&mut self, connection: u64, text: &str) -> bool {
        match Rule::parse(text) {
            Ok(rule) => self.add_rule(connection, rule),
            Err(_) => false,
        }
    }

    /// Adds a rule; false where there is no room.
    #[tactic(auto, using(crate::proofs::Few::low_added))]
    pub fn add_rule(&mut self, connection: u64, rule: Rule) -> bool
        ensures added { result ≡ true → self.new
            ≡ self.old ++ record { connection = connection; rule = rule } ∷ [] }
        ensures same { result ≡ false → self.new ≡ self.old }
    {
        if connection >= 256 || !self.index.has_room() {
            return false;
        }
        self.index.add(connection, rule);
        true
    }

    /// Takes out the first rule of this text; false where that is none.
    pub fn remove(&mut self, connection: u64, text: &str) -> bool {
        match Rule::parse(text) {
            Ok(rule) => self.remove_rule(connection, &rule),
            Err(_) => false,
        }
    }

    #[tactic(auto, using(crate::proofs::Few::low_without_first))]
    fn remove_rule(&mut self, connection: u64, rule: &Rule) -> bool {
        let had = self.index.contains(connection, rule);
        self.index.remove_first(connection, rule);
        had
    }

    #[tactic(auto, using(crate::proofs::Few::low_without))]
    pub fn drop_owner(&mut self, connection: u64) {
        self.index.drop_owner(connection);
    }

    pub fn copy_from(&mut self, other: &Listeners) {
        self.index.copy_from(&other.index);
    }

    pub fn len(&self) -> usize {
        self.index.len()
    }

    pub fn count_of(&self, connection: u64) -> usize {
        self.index.count_of(connection)
    }

    /// Whether a connection has these rules, in this order.
    pub fn has_rules(&self, connection: u64, wanted: &[&str]) -> bool {
        let mut rules = self.index.of(connection);
        for text in wanted {
            if rules.next().copied() != Rule::parse(text).ok() {
                return false;
            }
        }
        rules.next().is_none()
    }

    /// Whether these connections have a rule that fits a message, and no others.
    #[tactic(auto, using(crate::proofs::Few::low_are_few))]
    pub fn hear<O: Owners>(&self, facts: &Facts<'_>, owners: &O, wanted: &[u64]) -> bool {
        let mut found = ConnSet::new();
        self.index.gather(facts, owners, &mut found);
        found.as_slice() == wanted
    }

    /// The same, where each rule that is tested is a step.
    #[tactic(auto, using(crate::proofs::Few::low_are_few))]
    pub fn hear_in<O: Owners, L: Ledger>(
        &self,
        facts: &Facts<'_>,
        owners: &O,
        wanted: &[u64],
        steps: &mut Steps<L>,
    ) -> bool
        ensures cost { steps.new ≤ steps.old + near_rules facts.now self.now }
    {
        let mut found = ConnSet::new();
        self.index.collect(facts, owners, &mut found, steps);
        found.as_slice() == wanted
    }
}
