//! AddMatch and RemoveMatch.

ghost use Rattle.std.specs.Prelude.{◌≡◌, IfOk};
ghost use Rattle.seq_bus_core.specs.Steps.{step};
ghost use Rattle.seq_bus_core.specs.declared.change.Change.TheVariants.{AddMatch, RemoveMatch};
ghost use Rattle.registry.specs.Matches.{reply_to_add, reply_to_remove};
ghost use Rattle.registry.specs.PreparedChanges.{prepared_on};

use crate::prepared::{Act, Prepared, replied};
use crate::registry::Registry;
use match_rules::Rule;
use seq_bus_core::Reply;
use seq_bus_core::limits::{MAX_RULES, MAX_RULES_OF_ONE};
use std::alloc::{AllocError, Global};

impl Registry {
    pub(crate) fn prepare_add_match(
        &self,
        alloc: Global,
        seat: u8,
        connection: u64,
        rule: &Rule,
    ) -> Result<Prepared, AllocError>
        ensures { IfOk result (λ prepared. prepared
            ≡ prepared_on self.now seat (AddMatch connection rule.now)) }
    {
        Ok(Prepared {
            seat,
            act: Act::AddMatch {
                connection,
                rule: Box::new(alloc, *rule)?,
            },
            outcome: replied(alloc, self.reply_to_add(connection)),
            caller: None,
        })
    }

    pub(crate) fn prepare_remove_match(
        &self,
        alloc: Global,
        seat: u8,
        connection: u64,
        rule: &Rule,
    ) -> Result<Prepared, AllocError>
        ensures { IfOk result (λ prepared. prepared
            ≡ prepared_on self.now seat (RemoveMatch connection rule.now)) }
    {
        Ok(Prepared {
            seat,
            act: Act::RemoveMatch {
                connection,
                rule: Box::new(alloc, *rule)?,
            },
            outcome: replied(alloc, self.reply_to_remove(connection, rule)),
            caller: None,
        })
    }

    /// A connection adds a rule.
    pub(crate) fn add_match(&mut self, seat: u8, connection: u64, rule: &Rule)
        ensures { self.new ≡ (step self.old seat (AddMatch connection rule.now)).0 }
    {
        match self.reply_to_add(connection) {
            Reply::Done => self.rules.add(connection, *rule),
            _ => {}
        }
    }

    /// A connection gives up the first rule that is equal to this one.
    pub(crate) fn remove_match(&mut self, seat: u8, connection: u64, rule: &Rule)
        ensures { self.new ≡ (step self.old seat (RemoveMatch connection rule.now)).0 }
    {
        match self.reply_to_remove(connection, rule) {
            Reply::Done => self.rules.remove_first(connection, rule),
            _ => {}
        }
    }

    fn reply_to_add(&self, connection: u64) -> Reply
        ensures { result ≡ reply_to_add self.now connection }
    {
        if !self.is_client(connection) {
            return Reply::Gone;
        }
        if self.rules.len() < MAX_RULES && self.rules.count_of(connection) < MAX_RULES_OF_ONE {
            Reply::Done
        } else {
            Reply::LimitsExceeded
        }
    }

    fn reply_to_remove(&self, connection: u64, rule: &Rule) -> Reply
        ensures { result ≡ reply_to_remove self.now connection rule.now }
    {
        if !self.is_client(connection) {
            return Reply::Gone;
        }
        if self.rules.contains(connection, rule) {
            Reply::Done
        } else {
            Reply::RuleNotFound
        }
    }
}
