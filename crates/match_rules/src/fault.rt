//! Why a text is no match rule.

ghost use Rattle.std.specs.Prelude.{◌≡◌};

use thiserror::Error;

/// Why a text is no match rule. `TooLong` comes first, then the faults of the first item from the
/// left that has one, in the order in which they stand here.
#[derive(Clone, Copy, Debug, PartialEq, Eq, Error)]
pub enum RuleFault {
    #[error("an item of the rule does not begin with a key and '='")]
    Key,
    #[error("a key stands twice in the rule")]
    Twice,
    #[error("path and path_namespace stand both in the rule")]
    Both,
    #[error("an apostrophe of the rule is not closed")]
    Quote,
    #[error("a value of the rule is none that its key takes")]
    Value,
    #[error("the rule is longer than 1024 bytes")]
    TooLong,
}

impl RuleFault {
    ghost use Rattle.match_rules.specs.RuleFaults.{fault_code};

    /// The number of the fault.
    pub fn code(self) -> u8
        ensures { result ≡ fault_code self }
    {
        match self {
            RuleFault::Key => 40,
            RuleFault::Twice => 41,
            RuleFault::Value => 42,
            RuleFault::Quote => 43,
            RuleFault::Both => 44,
            RuleFault::TooLong => 45,
        }
    }
}
