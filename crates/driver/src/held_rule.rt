//! Match rules that lie apart.

ghost use Rattle.std.specs.Prelude.{◌≡◌, IfOk};

use match_rules::Rule;
use std::alloc::{AllocError, Global};
use std::marker::Model;

/// The match rule of a call. It lies apart from the call: a rule has fixed room, and is too large
/// to be moved with each call.
#[derive(Drop)]
pub struct HeldRule {
    rule: Box<Rule>,
}

impl Model for HeldRule {
    ghost use Rattle.match_rules.specs.Rules.{Rule};

    ghost Value = { Rule };

    ghost view = { λ h. h.rule.value };
}

impl HeldRule {
    /// A rule that is kept apart. It takes memory.
    pub fn new(alloc: Global, rule: Rule) -> Result<HeldRule, AllocError>
        ensures { IfOk result (λ held. held ≡ rule) }
    {
        match Box::new(alloc, rule) {
            Ok(rule) => Ok(HeldRule { rule }),
            Err(_) => Err(AllocError),
        }
    }

    /// The rule itself.
    pub fn get(&self) -> &Rule
        ensures { result.now ≡ self.now }
    {
        &self.rule
    }
}
