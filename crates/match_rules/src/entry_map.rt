//! The keys of a rule with their values, in fixed room.

ghost use Rattle.std.specs.Prelude.{◌≡◌, ◌≤◌, ◌+◌, length, [], option_map};

use crate::Key;
use crate::entries::{Entries, HEAD_LENGTH};
use crate::room::{MAX_RULE_LENGTH, Room};
use std::marker::Model;

/// A map from keys to values that they take.
#[derive(Clone, Copy)]
pub struct EntryMap {
    /// The keys in their order: a byte for the key, two for the length of its value, the lower
    /// first, and the value.
    bytes: Room,
}

impl Model for EntryMap {
    ghost use Rattle.std.specs.Prelude.{◌≡◌};
    ghost use Rattle.std.proofs.Common.{sym};
    ghost use Rattle.match_rules.specs.Rules.{Rule, IsRule};
    ghost use Rattle.match_rules.specs.RuleBytes.{rule_bytes, rule_in};

    ghost Value = { Rule };

    ghost view = { λ map. rule_in map.bytes };

    ghost invariant = { λ map.
        ∥ IsRule (rule_in map.bytes) ∥₁ × (map.bytes ≡ rule_bytes (rule_in map.bytes)) };

    ghost inverse = { λ rule. record { bytes = rule_bytes rule } };

    ghost inverse_ok = { λ map h. λ i. record { bytes = sym h.1 i } };
}

impl EntryMap {
    ghost use Rattle.std.specs.Prelude.{◌≡◌, ◌≤◌, ◌+◌, length, true, false, [], option_map, IfSome};
    ghost use Rattle.match_rules.specs.EntryView.{all_taken, entries_left};
    ghost use Rattle.match_rules.specs.Keys.{IsKey};
    ghost use Rattle.match_rules.specs.Rules.{IsRising, same_rule, value_at};
    ghost use Rattle.match_rules.specs.Reading.{bytes_before, keys_of, put};
    ghost use Rattle.match_rules.specs.RuleBytes.{rule_bytes};
    ghost use Rattle.match_rules.specs.RuleFaults.{is_among, is_excluded, takes};

    pub fn new() -> Self
        ensures { result ≡ [] }
    {
        EntryMap { bytes: Room::new() }
    }

    pub fn entries(&self) -> Entries<'_>
        ensures value { entries_left result ≡ self.now }
        ensures rising { ∥ IsRising self.now ∥₁ }
        ensures taken { all_taken self.now ≡ true }
        ensures room { length (rule_bytes self.now) ≤ MAX_RULE_LENGTH }
    {
        Entries::new(self.bytes.as_slice())
    }

    /// The value of a key. No entry behind the key's place is looked at.
    pub fn value(&self, key: Key) -> Option<&[u8]>
        requires { IsKey key }
        ensures value { option_map (λ value. value.now) result ≡ value_at key self.now }
        ensures taken { IfSome result (λ value. takes key value.now ≡ true) }
    {
        let place = key.place();
        for entry in self.entries() {
            let here = entry.key.place();
            if here == place {
                return Some(entry.value);
            }
            if place < here {
                return None;
            }
        }
        None
    }

    pub fn has(&self, key: Key) -> bool
        ensures { result ≡ is_among key (keys_of self.now) }
    {
        for entry in self.entries() {
            if entry.key.place() == key.place() {
                return true;
            }
        }
        false
    }

    /// Whether the key may not stand beside a key of the map.
    pub fn excludes(&self, key: Key) -> bool
        ensures { result ≡ is_excluded key (keys_of self.now) }
    {
        match key {
            Key::Path => self.has(Key::PathNamespace),
            Key::PathNamespace => self.has(Key::Path),
            _ => false,
        }
    }

    fn bytes_before(&self, place: u16) -> usize
        ensures { result ≡ bytes_before place self.now }
    {
        let mut before = 0;
        for entry in self.entries() {
            if place < entry.key.place() {
                return before;
            }
            before += HEAD_LENGTH + entry.value.len();
        }
        before
    }

    /// Puts a key with its value where the key belongs.
    pub fn put(&mut self, key: Key, value: &[u8])
        requires is_key { IsKey key }
        requires taken { takes key value.now ≡ true }
        requires new { is_among key (keys_of self.old) ≡ false }
        requires not_excluded { is_excluded key (keys_of self.old) ≡ false }
        requires room { length (rule_bytes self.old) + 3 + length value.now ≤ MAX_RULE_LENGTH }
        ensures { self.new ≡ put (key, value.now) self.old }
    {
        let place = key.place();
        let at = self.bytes_before(place);
        let length = value.len();
        self.bytes
            .append(&[place as u8, (length % 256) as u8, (length / 256) as u8]);
        self.bytes.append(value);
        self.bytes.move_last(HEAD_LENGTH + length, at);
    }

    /// Whether both have the same keys with the same values.
    pub fn is_same(&self, other: &Self) -> bool
        ensures { result ≡ same_rule self.now other.now }
    {
        self.bytes.as_slice() == other.bytes.as_slice()
    }
}
