//! Reading the texts of rules.

ghost use Rattle.std.specs.Prelude.{◌≡◌, ◌≤◌, ◌+◌, ◌<◌, length, drop, true, false, Some, None, OnOk, MatchResult, MatchOption, position};
ghost use Rattle.match_rules.specs.RuleBytes.{rule_bytes};
ghost use Rattle.match_rules.specs.RuleTexts.{IsRuleText};
ghost use Rattle.match_rules.specs.Keys.{IsKey};
ghost use Rattle.match_rules.specs.RuleFaults.{Outside, is_among, is_equals, is_excluded, item_fault, item_key, item_value, rule_fault, takes, value_from};
ghost use Rattle.match_rules.specs.Reading.{keys_of, put, with_item};

use crate::entry_map::EntryMap;
use crate::quoting::{behind, item_length, plain_value, value_of};
use crate::{Key, MAX_RULE_LENGTH, Rule, RuleFault};
use names::{BusName, Interface, Member, ObjectPath, UniqueName, WellKnown};
use std::str;

impl Rule {
    /// Reads the text of a rule. (D-Bus Specification: "Match Rules".)
    ///
    /// # Errors
    ///
    /// The fault of a text that is no rule: that it is too long, else that of its first item that
    /// has one.
    pub fn parse(text: &str) -> Result<Self, RuleFault>
        ensures { MatchResult result (λ rule. IsRuleText text.now rule)
            (λ fault. rule_fault text.now ≡ Some fault) }
    {
        let mut rest = text.as_bytes();
        if rest.len() > MAX_RULE_LENGTH {
            return Err(RuleFault::TooLong);
        }
        let mut entries = EntryMap::new();
        if rest.is_empty() {
            return Ok(Rule { entries });
        }
        'items: loop {
            let length = item_length(rest);
            if let Err(fault) = entries.read_item(&rest[..length]) {
                return Err(fault);
            }
            if length == rest.len() {
                return Ok(Rule { entries });
            }
            rest = behind(rest, length);
        }
    }
}

impl EntryMap {
    /// Adds an item's key and value.
    fn read_item(&mut self, item: &[u8]) -> Result<(), RuleFault>
        requires { length (rule_bytes self.old) + length item.now ≤ MAX_RULE_LENGTH }
        ensures fault { MatchResult result
            (λ _. item_fault (keys_of self.old) item.now (item_key item.now) ≡ None)
            (λ fault. item_fault (keys_of self.old) item.now (item_key item.now) ≡ Some fault) }
        ensures rule { OnOk result (self.new ≡ with_item self.old item.now) }
        ensures room { OnOk result (length (rule_bytes self.new)
            ≤ length (rule_bytes self.old) + length item.now) }
    {
        let Some((key, at)) = key_of(item) else {
            return Err(RuleFault::Key);
        };
        if self.has(key) {
            return Err(RuleFault::Twice);
        }
        if self.excludes(key) {
            return Err(RuleFault::Both);
        }
        let written = &item[at + 1..];
        if let Some(value) = plain_value(written) {
            return self.put_taken(key, value);
        }
        match value_of(written) {
            Some(value) => self.put_taken(key, value.as_slice()),
            None => Err(RuleFault::Quote),
        }
    }

    /// Adds a key and its value, where the key takes the value.
    fn put_taken(&mut self, key: Key, value: &[u8]) -> Result<(), RuleFault>
        requires is_key { IsKey key }
        requires new { is_among key (keys_of self.old) ≡ false }
        requires not_excluded { is_excluded key (keys_of self.old) ≡ false }
        requires room { length (rule_bytes self.old) + 3 + length value.now ≤ MAX_RULE_LENGTH }
        ensures fault { MatchResult result (λ _. takes key value.now ≡ true)
            (λ fault. (takes key value.now ≡ false) × (fault ≡ RuleFault.Value)) }
        ensures rule { OnOk result (self.new ≡ put (key, value.now) self.old) }
    {
        if !takes(key, value) {
            return Err(RuleFault::Value);
        }
        self.put(key, value);
        Ok(())
    }
}

/// The key of an item, and the place of its first equals sign.
fn key_of(item: &[u8]) -> Option<(Key, usize)>
    ensures { MatchOption result (item_key item.now ≡ None)
        (λ found. (item_key item.now ≡ Some found.0)
        × (item_value item.now ≡ value_from Outside (drop (found.1 + 1) item.now))
        × (found.1 < length item.now) × (1 < found.1)) }
{
    let Some(at) = equals_place(item) else {
        return None;
    };
    match Key::named(&item[..at]) {
        Some(key) => Some((key, at)),
        None => None,
    }
}

fn equals_place(item: &[u8]) -> Option<usize>
    ensures { result ≡ position is_equals item.now }
{
    item.iter().position(|byte| *byte == b'=')
}

/// Whether a key takes a value.
fn takes(key: Key, value: &[u8]) -> bool
    ensures { result ≡ takes key value.now }
{
    match key {
        Key::Type => {
            value == b"signal".as_slice()
                || value == b"method_call".as_slice()
                || value == b"method_return".as_slice()
                || value == b"error".as_slice()
        }
        Key::Sender => match str::from_utf8(value) {
            Ok(name) => BusName::parse(name).is_ok(),
            Err(_) => false,
        },
        Key::Interface => match str::from_utf8(value) {
            Ok(name) => Interface::parse(name).is_ok(),
            Err(_) => false,
        },
        Key::Member => match str::from_utf8(value) {
            Ok(name) => Member::parse(name).is_ok(),
            Err(_) => false,
        },
        Key::Path => match str::from_utf8(value) {
            Ok(path) => ObjectPath::parse(path).is_ok(),
            Err(_) => false,
        },
        Key::PathNamespace => match str::from_utf8(value) {
            Ok(path) => ObjectPath::parse(path).is_ok(),
            Err(_) => false,
        },
        Key::Destination => match str::from_utf8(value) {
            Ok(name) => UniqueName::parse(name).is_ok(),
            Err(_) => false,
        },
        Key::Argument(_) => true,
        Key::ArgumentPath(_) => true,
        Key::Argument0Namespace => match str::from_utf8(value) {
            Ok(name) => WellKnown::is_namespace(name),
            Err(_) => false,
        },
        Key::Eavesdrop => value == b"true".as_slice() || value == b"false".as_slice(),
    }
}
