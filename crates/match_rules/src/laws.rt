//! The laws of match rules. Each function does nothing: what it ensures is the law.

ghost use Rattle.match_rules.specs.CanonicalTexts.{rule_text};
ghost use Rattle.match_rules.specs.RuleTexts.{IsRuleText};
ghost use Rattle.match_rules.specs.Laws.{CanonicalTextsAreShortest, CanonicalTextsAreTexts, FaultsAreExact, RulesHaveRoom, SameRulesAreOne, SendersAreKnownByName, TextsHaveOneRule};

use crate::Rule;

/// A text has no fault exactly where it is the text of a rule.
pub fn faults_are_exact()
    ensures { FaultsAreExact }
{}

/// No text is that of two rules.
pub fn texts_have_one_rule()
    ensures { TextsHaveOneRule }
{}

/// Rules with the same keys and values are one rule.
pub fn same_rules_are_one()
    ensures { SameRulesAreOne }
{}

/// A rule whose text is short enough has room in the bytes of a [`crate::Rule`].
pub fn rules_have_room()
    ensures { RulesHaveRoom }
{}

/// A rule by a connection's unique name fits what the connection sends.
pub fn senders_are_known_by_name()
    ensures { SendersAreKnownByName }
{}

/// The canonical text of a rule is a text of that rule.
pub fn canonical_texts_are_texts()
    ensures { CanonicalTextsAreTexts }
{}

/// The canonical text of a rule is no longer than any other.
pub fn canonical_texts_are_shortest()
    ensures { CanonicalTextsAreShortest }
{}

/// The canonical text of a rule, which it is shown as, is read as that rule again.
pub fn rules_are_read_again(rule: &Rule)
    ensures { ∥ IsRuleText (rule_text rule.now) rule.now ∥₁ }
{
    let _ = &rule.entries;
}
