//! A match rule.

ghost use Rattle.std.specs.Prelude.{◌≡◌, [], option_map};

use crate::entry_map::EntryMap;
use crate::{Key, MessageKind};
use std::default::Default;
use std::marker::Model;
use std::str;

/// A match rule: keys, each with a value that it takes. It lies in fixed room, and has a text of at
/// most 1,024 bytes. (D-Bus Specification: "Match Rules".)
#[derive(Clone, Copy)]
pub struct Rule {
    pub(crate) entries: EntryMap,
}

impl Model for Rule {
    ghost use Rattle.match_rules.specs.Rules.{Rule as Entries};
    ghost use Rattle.match_rules.specs.RuleTexts.{HasText};

    ghost Value = { Entries };

    ghost view = { λ rule. rule.entries };

    ghost invariant = { λ rule. ∥ HasText rule.entries ∥₁ };

    ghost inverse = { λ entries. record { entries = entries } };
}

/// What an index may part rules by. No method looks at more than nine keys of the rule, however
/// long the rule is.
impl Rule {
    ghost use Rattle.std.specs.Option.{option_and_then};
    ghost use Rattle.match_rules.specs.Kinds.{kind_named};
    ghost use Rattle.match_rules.specs.Rules.{value_at};
    ghost use Rattle.match_rules.specs.declared.key.Key.TheVariants.{«Type» as MessageType, Argument, Member, Interface, Sender};

    /// The type of the messages that the rule asks for, where it names one.
    pub fn kind(&self) -> Option<MessageKind>
        ensures { result ≡ option_and_then kind_named (value_at MessageType self.now) }
    {
        MessageKind::named(self.entries.value(Key::Type)?)
    }

    /// The member that the rule names, if any.
    pub fn member(&self) -> Option<&str>
        ensures { option_map (λ name. name.now) result ≡ value_at Member self.now }
    {
        self.entries.name(Key::Member)
    }

    /// The interface that the rule names, if any.
    pub fn interface(&self) -> Option<&str>
        ensures { option_map (λ name. name.now) result ≡ value_at Interface self.now }
    {
        self.entries.name(Key::Interface)
    }

    /// The bus name of the sender that the rule names, if any.
    pub fn sender(&self) -> Option<&str>
        ensures { option_map (λ name. name.now) result ≡ value_at Sender self.now }
    {
        self.entries.name(Key::Sender)
    }

    /// The text that the rule wants as the first argument of a message, if any, in bytes.
    pub fn argument0(&self) -> Option<&[u8]>
        ensures { option_map (λ text. text.now) result ≡ value_at (Argument 0) self.now }
    {
        self.entries.value(Key::Argument(0))
    }
}

impl EntryMap {
    ghost use Rattle.match_rules.specs.Keys.{TakesNames};
    ghost use Rattle.match_rules.specs.Rules.{value_at};

    /// The name that a key has as its value.
    fn name(&self, key: Key) -> Option<&str>
        requires { TakesNames key }
        ensures { option_map (λ name. name.now) result ≡ value_at key self.now }
    {
        let name = self.value(key)?;
        Some(unsafe { str::from_utf8_unchecked(name) })
    }
}

impl Default for Rule {
    ghost is_default = { λ rule. rule ≡ [] };

    /// The rule without keys, which fits every message.
    fn default() -> Self {
        Rule {
            entries: EntryMap::new(),
        }
    }
}

impl PartialEq for Rule {
    ghost use Rattle.match_rules.specs.Rules.{same_rule};
    ghost use Rattle.match_rules.specs.RuleEquality.{same_rule_partial};

    ghost eq = { same_rule };

    ghost laws = { same_rule_partial };

    fn eq(&self, other: &Self) -> bool {
        self.entries.is_same(&other.entries)
    }
}

impl Eq for Rule {
    ghost use Rattle.match_rules.specs.RuleEquality.{same_rule_equivalence};

    ghost laws = { same_rule_equivalence };
}

const _: () = prove!(size_of::<Rule>() <= 1026);
