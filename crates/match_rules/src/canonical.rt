//! The canonical text of a rule.

ghost use Rattle.std.specs.Prelude.{◌≡◌, ◌+◌, ◌≤◌, ◌++◌, Some, decimal, length};
ghost use Rattle.std.specs.List.{position_or_len};
ghost use Rattle.match_rules.specs.Keys.{key_text};
ghost use Rattle.match_rules.specs.EntryView.{pair_of};
ghost use Rattle.match_rules.specs.CanonicalTexts.{entry_text, is_apostrophe, piece_text, value_text};

use crate::entries::Entry;
use crate::quoting::behind;
use crate::room::{MAX_RULE_LENGTH, Room};
use crate::{Key, Rule};
use std::{fmt, str};

/// The canonical text of the rule: its keys in order, each with its value as short as it can be
/// written. No text of the rule is shorter.
impl fmt::Display for Rule {
    ghost use Rattle.std.specs.Prelude.{Some};
    ghost use Rattle.match_rules.specs.CanonicalTexts.{rule_text};

    ghost output = { λ rule. Some (rule_text rule) };

    fn fmt<W: fmt::Write>(&self, f: &mut fmt::Formatter<W>) -> fmt::Result {
        let text = self.text();
        match str::from_utf8(text.as_slice()) {
            Ok(text) => f.pad(text),
            // The values are parts of a text, so that this does not come.
            Err(_) => Err(fmt::Error),
        }
    }
}

impl Rule {
    ghost use Rattle.match_rules.specs.CanonicalTexts.{rule_text};

    fn text(&self) -> Room
        ensures { result ≡ rule_text self.now }
    {
        let mut text = Room::new();
        let mut entries = self.entries.entries();
        if let Some(first) = entries.next() {
            first.append_to(&mut text);
            for entry in entries {
                text.append(b",");
                entry.append_to(&mut text);
            }
        }
        text
    }
}

impl Entry<'_> {
    fn append_to(self, text: &mut Room)
        requires { length text.old + length (entry_text (pair_of self)) ≤ MAX_RULE_LENGTH }
        ensures { text.new ≡ text.old ++ entry_text (pair_of self.entry) }
    {
        append_key(text, self.key);
        text.append(b"=");
        append_value(text, self.value);
    }
}

fn append_key(text: &mut Room, key: Key)
    requires { length text.old + length (key_text key) ≤ MAX_RULE_LENGTH }
    ensures { text.new ≡ text.old ++ key_text key }
{
    match key {
        Key::Type => text.append(b"type"),
        Key::Member => text.append(b"member"),
        Key::Interface => text.append(b"interface"),
        Key::Path => text.append(b"path"),
        Key::PathNamespace => text.append(b"path_namespace"),
        Key::Sender => text.append(b"sender"),
        Key::Destination => text.append(b"destination"),
        Key::Argument(number) => {
            text.append(b"arg");
            append_decimal(text, number);
        }
        Key::ArgumentPath(number) => {
            text.append(b"arg");
            append_decimal(text, number);
            text.append(b"path");
        }
        Key::Argument0Namespace => text.append(b"arg0namespace"),
        Key::Eavesdrop => text.append(b"eavesdrop"),
    }
}

fn append_decimal(text: &mut Room, number: u8)
    requires { length text.old + length (decimal number) ≤ MAX_RULE_LENGTH }
    ensures { text.new ≡ text.old ++ decimal number }
{
    if number < 10 {
        text.append(&[b'0' + number]);
        return;
    }
    append_decimal(text, number / 10);
    text.append(&[b'0' + number % 10]);
}

fn append_value(text: &mut Room, value: &[u8])
    requires { length text.old + length (value_text value.now) ≤ MAX_RULE_LENGTH }
    ensures { text.new ≡ text.old ++ value_text value.now }
{
    let mut rest = value;
    'pieces: loop {
        let end = piece_length(rest);
        append_piece(text, &rest[..end]);
        if end == rest.len() {
            return;
        }
        text.append(b"\\'");
        rest = behind(rest, end);
    }
}

/// How much of a value stands before its first apostrophe.
fn piece_length(value: &[u8]) -> usize
    ensures piece { result ≡ position_or_len is_apostrophe value.now }
    ensures within { result ≤ length value.now }
{
    for (i, byte) in value.iter().enumerate() {
        if *byte == b'\'' {
            return i;
        }
    }
    value.len()
}

/// Appends a part of a value that has no apostrophe.
fn append_piece(text: &mut Room, piece: &[u8])
    requires { length text.old + length (piece_text piece.now) ≤ MAX_RULE_LENGTH }
    ensures { text.new ≡ text.old ++ piece_text piece.now }
{
    if piece.contains(&b',') {
        text.append(b"'");
        text.append(piece);
        text.append(b"'");
    } else {
        text.append(piece);
    }
}
