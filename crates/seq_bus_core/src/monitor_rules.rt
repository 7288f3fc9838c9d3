//! The rules of a monitor.

ghost use Rattle.std.specs.Prelude.{◌≡◌, ◌<◌, ◌≤◌, ◌↔◌, [], ◌∷◌, ◌++◌, length, IsTrue, IfOk, OnOk, OnErr};

use crate::limits::MAX_RULES_OF_MONITOR;
use match_rules::Rule;
use std::alloc::{AllocError, Global};
use std::marker::Model;

/// The rules by which a monitor is shown messages, at most 64. Where there are none, it is shown
/// every message.
#[derive(Drop)]
pub struct MonitorRules {
    rules: Vec<Rule>,
}

impl Model for MonitorRules {
    ghost use Rattle.std.specs.Prelude.{◌≤◌, List, vec_len};
    ghost use Rattle.match_rules.specs.Rules.{Rule as Entries};
    ghost use Rattle.seq_bus_core.specs.declared.limits.TheConstants.{MAX_RULES_OF_MONITOR};

    ghost Value = { List Entries };

    ghost view = { λ r. r.rules.items };

    ghost invariant = { λ r. vec_len r.rules ≤ MAX_RULES_OF_MONITOR };
}

impl MonitorRules {
    /// The most rules of one monitor.
    pub const MAX: usize = MAX_RULES_OF_MONITOR;

    /// No rules.
    pub fn new(alloc: Global) -> Self
        ensures { result ≡ [] }
    {
        MonitorRules {
            rules: Vec::new(alloc),
        }
    }

    /// Whether no other rule has room.
    pub fn is_full(&self) -> bool
        ensures { IsTrue result ↔ (length self.now ≡ Self.MAX) }
    {
        self.rules.len() == Self::MAX
    }

    /// One more rule, behind the others.
    pub fn push(&mut self, rule: Rule) -> Result<(), AllocError>
        requires { length self.old < Self.MAX }
        ensures ok { OnOk result (self.new ≡ self.old ++ rule ∷ []) }
        ensures err { OnErr result (self.new ≡ self.old) }
    {
        self.rules.push(rule)?;
        Ok(())
    }

    /// The same rules once more. It takes memory.
    pub fn copy(&self, alloc: Global) -> Result<MonitorRules, AllocError>
        ensures { IfOk result (λ rules. rules ≡ self.now) }
    {
        let rules = Vec::from_slice(alloc, self.rules.as_slice())?;
        Ok(MonitorRules { rules })
    }

    /// The rules, in order.
    pub fn as_slice(&self) -> &[Rule]
        ensures value { result.now ≡ self.now }
        ensures few { length self.now ≤ Self.MAX }
    {
        self.rules.as_slice()
    }
}
