//! Who listens to a message, where names are owned as others say.

ghost use Rattle.std.specs.Prelude.{◌≡◌, ◌≤◌, ◌+◌, ◌&&◌, true, false, [], length};
ghost use Rattle.match_index.specs.Near.{near_rules};
ghost use Rattle.seq_bus_core.specs.BusState.{is_client};
ghost use Rattle.seq_bus_core.specs.Consistency.{IsConsistent};
ghost use Rattle.seq_bus_core.specs.Steps.{with_monitor};
ghost use Rattle.seq_bus_core.specs.Recipients.{conns_that, wants_by, watches_by};
ghost use Rattle.registry_core.specs.Listening.{stays};

use crate::registry::Registry;
use match_index::Steps;
use match_rules::{Facts, Owners, Rule};
use monitor::is_watched;
use registry_core::listening::{add_all_that_want, add_those_that_want};
use seq_bus_core::Recipients;
use std::sync::ledger::Ledger;

impl Registry {
    /// Whether any connection has a rule.
    pub(crate) fn has_rules(&self) -> bool
        ensures { result ≡ false → self.now.rules ≡ [] }
    {
        let _ = &self.connections;
        self.rules.len() != 0
    }

    /// Adds the connections that want a message. A connection that leaves is not among them.
    pub(crate) fn add_those_that_want<O: Owners>(
        &self,
        facts: &Facts<'_>,
        owners: &O,
        leaver: Option<u64>,
        to: &mut Recipients,
    )
        requires { to.old ≡ [] }
        ensures value { to.new ≡ conns_that
            (λ c. stays leaver c.number
            && wants_by (O.heads owners.now) self.now.rules facts.now c)
            self.now.connections }
        ensures consistent { IsConsistent self.now }
    {
        add_those_that_want(
            self.connections.as_slice(),
            &self.rules,
            facts,
            owners,
            leaver,
            to,
        );
    }

    /// The same where nobody leaves, and each rule that is tested is a step.
    pub(crate) fn add_all_that_want<O: Owners, L: Ledger>(
        &self,
        facts: &Facts<'_>,
        owners: &O,
        to: &mut Recipients,
        steps: &mut Steps<L>,
    )
        requires { to.old ≡ [] }
        ensures value { to.new ≡ conns_that
            (wants_by (O.heads owners.now) self.now.rules facts.now) self.now.connections }
        ensures cost { steps.new ≤ steps.old + near_rules facts.now self.now.rules }
    {
        let entries = self.connections.as_slice();
        add_all_that_want(entries, &self.rules, facts, owners, to, steps);
    }

    /// Adds the monitors that are shown a message. No other connection is looked at.
    pub(crate) fn add_monitors_shown<O: Owners>(
        &self,
        facts: &Facts<'_>,
        owners: &O,
        shown: &mut Recipients,
    )
        requires { shown.old ≡ [] }
        ensures value { shown.new
            ≡ conns_that (watches_by (O.heads owners.now) facts.now) self.now.connections }
        ensures few { length self.now.connections ≤ Recipients.MAX }
        ensures consistent { IsConsistent self.now }
    {
        self.connections.shown(facts, owners, shown);
    }

    /// Adds the monitors that are shown a message once a connection is a monitor with these rules.
    pub(crate) fn add_shown_with<O: Owners>(
        &self,
        facts: &Facts<'_>,
        owners: &O,
        connection: u64,
        rules: &[Rule],
        shown: &mut Recipients,
    )
        requires client { is_client self.now.connections connection ≡ true }
        requires empty { shown.old ≡ [] }
        ensures value { shown.new ≡ conns_that (watches_by (O.heads owners.now) facts.now)
            (with_monitor self.now connection rules.now).connections }
        ensures few { length self.now.connections ≤ Recipients.MAX }
    {
        let _ = &self.connections;
        self.add_monitors_shown(facts, owners, shown);
        if !is_watched(rules, facts, owners) {
            return;
        }
        match self.conn(connection) {
            Some(conn) => shown.insert(conn),
            None => {}
        }
    }
}
