//! Which rules fit a message.

ghost use Rattle.std.specs.Prelude.{◌≡◌, ◌++◌, ◌∷◌, [], true, decimal, option_map, slice_get};
ghost use Rattle.names.specs.Texts.{text_eq};
ghost use Rattle.names.specs.UniqueName.{unique_text};
ghost use Rattle.match_rules.specs.FactsView.{argument_of};
ghost use Rattle.match_rules.specs.RuleFaults.{takes};
ghost use Rattle.match_rules.specs.Fitting.{Heads, begins, are_one_head, are_paths_alike, ends_in_slash, fits, holds, is_destination, is_number, is_path_argument, is_sender, is_string_argument, is_text, is_within_namespace, is_within_path};

use crate::entries::Entry;
use crate::{Argument, Facts, Key, Rule};
use names::BUS_NAME;
use std::str;

/// Who owns which names.
pub trait Owners {
    ghost heads: { Self → Heads };

    /// The number of the connection that a bus name stands for: the owner of a well-known name, the
    /// holder of a unique name.
    fn head(&self, name: &str) -> Option<u64>
        ensures { result ≡ heads self.now name.now };
}

impl Rule {
    /// Whether every key of the rule holds of a message. (D-Bus Specification: "Match Rules".)
    pub fn fits<O: Owners>(&self, facts: &Facts<'_>, owners: &O) -> bool
        ensures { result ≡ fits (O.heads owners.now) self.now facts.now }
    {
        for entry in self.entries.entries() {
            if !entry.holds(facts, owners) {
                return false;
            }
        }
        true
    }
}

impl Entry<'_> {
    fn holds<O: Owners>(self, facts: &Facts<'_>, owners: &O) -> bool
        requires { takes self.key self.value.now ≡ true }
        ensures { result ≡ holds (O.heads owners.now)
            self.entry.key self.entry.value.now facts.now }
    {
        let value = self.value;
        match self.key {
            Key::Type => is_text(value, facts.kind.word()),
            Key::Sender => is_sender(
                unsafe { str::from_utf8_unchecked(value) },
                facts.sender,
                owners,
            ),
            Key::Interface => is_text(value, facts.interface),
            Key::Member => is_text(value, facts.member),
            Key::Path => is_text(value, facts.path),
            Key::PathNamespace => is_within_path(value, facts.path),
            Key::Destination => is_destination(
                unsafe { str::from_utf8_unchecked(value) },
                facts.destination,
                owners,
            ),
            Key::Argument(number) => is_string_argument(value, argument_at(facts, number)),
            Key::ArgumentPath(number) => is_path_argument(value, argument_at(facts, number)),
            Key::Argument0Namespace => is_within_namespace(value, argument_at(facts, 0)),
            Key::Eavesdrop => true,
        }
    }
}

fn argument_at<'a>(facts: &Facts<'a>, number: u8) -> Option<Argument<'a>>
    ensures { option_map argument_of result ≡ slice_get facts.now.arguments number }
{
    facts.arguments.get(number as usize).copied()
}

/// Whether a text is there, and is this value.
pub fn is_text(value: &[u8], text: Option<&str>) -> bool
    ensures { result ≡ is_text value.now (option_map (λ t. t.now) text.entry) }
{
    match text {
        Some(text) => text.as_bytes() == value,
        None => false,
    }
}

fn is_sender<O: Owners>(name: &str, sender: u64, owners: &O) -> bool
    ensures { result ≡ is_sender (O.heads owners.now) name.now sender }
{
    if name == BUS_NAME {
        return sender == 0;
    }
    if sender == 0 {
        return false;
    }
    if name.as_bytes().first() == Some(&b':') {
        return is_name_of(name.as_bytes(), sender);
    }
    is_number(sender, owners.head(name))
}

/// Whether the name is the one that the bus gives to the connection of a number.
fn is_name_of(name: &[u8], number: u64) -> bool
    ensures { result ≡ text_eq name.now (unique_text number) }
{
    match name.strip_prefix(b":1.") {
        Some(digits) => is_decimal(digits, number),
        None => false,
    }
}

/// Whether these are the decimal digits of a number.
fn is_decimal(digits: &[u8], number: u64) -> bool
    ensures { result ≡ text_eq digits.now (decimal number) }
{
    let Some((last, front)) = digits.split_last() else {
        return false;
    };
    if *last != b'0' + (number % 10) as u8 {
        return false;
    }
    if number < 10 {
        return front.is_empty();
    }
    is_decimal(front, number / 10)
}

fn is_number(number: u64, head: Option<u64>) -> bool
    ensures { result ≡ is_number number head }
{
    match head {
        Some(head) => head == number,
        None => false,
    }
}

fn is_destination<O: Owners>(name: &str, destination: Option<&str>, owners: &O) -> bool
    ensures { result ≡ is_destination (O.heads owners.now) name.now
        (option_map (λ t. t.now) destination.entry) }
{
    let Some(destination) = destination else {
        return false;
    };
    match owners.head(name) {
        Some(number) => is_number(number, owners.head(destination)),
        None => false,
    }
}

/// Whether a text begins with another and a byte behind it.
fn goes_on(front: &[u8], byte: u8, text: &[u8]) -> bool
    ensures { result ≡ begins (front.now ++ byte ∷ []) text.now }
{
    front.len() < text.len() && text[front.len()] == byte && text.starts_with(front)
}

fn is_within_path(value: &[u8], path: Option<&str>) -> bool
    ensures { result ≡ is_within_path value.now (option_map (λ t. t.now) path.entry) }
{
    let Some(path) = path else {
        return false;
    };
    let path = path.as_bytes();
    value == b"/".as_slice() || path == value || goes_on(value, b'/', path)
}

fn ends_in_slash(text: &[u8]) -> bool
    ensures { result ≡ ends_in_slash text.now }
{
    text.ends_with(b"/")
}

fn are_paths_alike(a: &[u8], b: &[u8]) -> bool
    ensures { result ≡ are_paths_alike a.now b.now }
{
    a == b || (ends_in_slash(a) && b.starts_with(a)) || (ends_in_slash(b) && a.starts_with(b))
}

/// Whether an argument is a string with this value.
pub fn is_string_argument(value: &[u8], argument: Option<Argument<'_>>) -> bool
    ensures { result ≡ is_string_argument value.now (option_map argument_of argument.entry) }
{
    match argument {
        Some(Argument::String(text)) => text.as_bytes() == value,
        _ => false,
    }
}

fn is_path_argument(value: &[u8], argument: Option<Argument<'_>>) -> bool
    ensures { result ≡ is_path_argument value.now (option_map argument_of argument.entry) }
{
    match argument {
        Some(Argument::String(text)) => are_paths_alike(value, text.as_bytes()),
        Some(Argument::ObjectPath(text)) => are_paths_alike(value, text.as_bytes()),
        _ => false,
    }
}

fn is_within_namespace(value: &[u8], argument: Option<Argument<'_>>) -> bool
    ensures { result ≡ is_within_namespace value.now (option_map argument_of argument.entry) }
{
    match argument {
        Some(Argument::String(text)) => {
            let text = text.as_bytes();
            text == value || goes_on(value, b'.', text)
        }
        _ => false,
    }
}
