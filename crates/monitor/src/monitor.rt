//! A monitor.

ghost use Rattle.std.specs.Prelude.{◌≡◌, ◌≤◌, [], length, IfOk};
ghost use Rattle.std.specs.List.{list_any};
ghost use Rattle.match_rules.specs.Fitting.{fits};
ghost use Rattle.seq_bus_core.specs.Recipients.{watched};

use match_rules::{Facts, Owners, Rule};
use seq_bus_core::Conn;
use seq_bus_core::limits::MAX_RULES_OF_MONITOR;
use std::alloc::{AllocError, Global};
use std::marker::Model;

/// A monitor, and the rules by which it is shown messages. There is room for as many as a monitor
/// may have.
#[derive(Drop)]
pub struct Monitor {
    conn: Conn,
    rules: Vec<Rule>,
}

impl Model for Monitor {
    ghost use Rattle.std.specs.Prelude.{◌≤◌, length, vec_capacity};
    ghost use Rattle.monitor.specs.Monitors.{Monitor as ConnWithRules};
    ghost use Rattle.seq_bus_core.specs.declared.limits.TheConstants.{MAX_RULES_OF_MONITOR};

    ghost Value = { ConnWithRules };

    ghost view = { λ m. record { conn = m.conn; rules = m.rules.items } };

    ghost invariant = { λ m.
        (length m.rules.items ≤ MAX_RULES_OF_MONITOR)
        × (MAX_RULES_OF_MONITOR ≤ vec_capacity m.rules) };
}

impl Monitor {
    /// Room for a monitor, which is that of no connection yet.
    pub(crate) fn new(alloc: Global) -> Result<Monitor, AllocError> {
        Ok(Monitor {
            conn: Conn::default(),
            rules: Vec::with_capacity(alloc, MAX_RULES_OF_MONITOR)?,
        })
    }

    /// From now on it is this connection, with these rules.
    pub(crate) fn set(&mut self, conn: Conn, rules: &[Rule])
        requires { length rules.now ≤ MAX_RULES_OF_MONITOR }
        ensures { self.new ≡ record { conn = conn; rules = rules.now } }
    {
        self.conn = conn;
        self.rules.clear();
        let _ = self.rules.extend_from_slice(rules);
    }

    /// Where it is reached.
    pub fn conn(&self) -> Conn
        ensures { result ≡ self.now.conn }
    {
        self.conn
    }

    /// Its rules, in order. Where there are none, it is shown every message.
    pub fn rules(&self) -> &[Rule]
        ensures value { result.now ≡ self.now.rules }
        ensures few { length result.now ≤ MAX_RULES_OF_MONITOR }
    {
        self.rules.as_slice()
    }

    /// Whether it is shown a message.
    pub fn watches<O: Owners>(&self, facts: &Facts<'_>, owners: &O) -> bool
        ensures { result ≡ watched (O.heads owners.now) facts.now self.now.rules }
    {
        is_watched(&self.rules, facts, owners)
    }
}

/// Whether a monitor with these rules is shown a message: it has none, or one that fits.
pub fn is_watched<O: Owners>(rules: &[Rule], facts: &Facts<'_>, owners: &O) -> bool
    ensures { result ≡ watched (O.heads owners.now) facts.now rules.now }
{
    rules.is_empty() || any_fits(rules, facts, owners)
}

/// Whether one of these rules fits a message.
fn any_fits<O: Owners>(rules: &[Rule], facts: &Facts<'_>, owners: &O) -> bool
    ensures { result ≡ list_any (λ rule. fits (O.heads owners.now) rule facts.now) rules.now }
{
    rules.iter().any(|rule| rule.fits(facts, owners))
}
