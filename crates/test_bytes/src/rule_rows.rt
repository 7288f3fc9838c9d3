//! Rows of match rules.

ghost use Rattle.names.specs.Texts.{text_eq};
ghost use Rattle.std.specs.Prelude.{◌≡◌, ℕ, Some, None, if◌then◌else◌, codes};

use arrayvec::ArrayVec;
use match_rules::{Argument, Facts, MessageKind, Owners, Rule};
use std::alloc::{AllocError, Global};
use test_support::Row;

/// Holds `com.example.A` by one connection, and the unique names of connections 1 and 2.
#[derive(Clone, Copy)]
struct OwnedBy(u64);

impl Owners for OwnedBy {
    ghost heads = { λ owners name. if text_eq name (codes "com.example.A") then Some owners.0
        else if text_eq name (codes ":1.1") then Some 1
        else if text_eq name (codes ":1.2") then Some 2
        else None };

    fn head(&self, name: &str) -> Option<u64> {
        if name == "com.example.A" {
            return Some(self.0);
        }
        if name == ":1.1" {
            return Some(1);
        }
        if name == ":1.2" {
            return Some(2);
        }
        None
    }
}

/// `rule | TEXT`: the text as a rule. `same | A | B`: whether two texts are one rule. `kind |
/// NUMBER`: a type of messages. `fits | TEXT ..`: whether a rule fits a message. `no-keys`: the
/// rule without keys.
pub fn rule(alloc: Global, row: &Row<'_>) -> Result<String, AllocError> {
    if row.text(0) == "kind" {
        return kind(alloc, row.number(1));
    }
    let rule = match Rule::parse(row.text(1)) {
        Ok(rule) => rule,
        Err(fault) => return format!(in alloc; "{}: {fault}", fault.code()),
    };
    match row.text(0) {
        "rule" => shown(alloc, &rule),
        "no-keys" => shown(alloc, &Rule::default()),
        "same" => format!(in alloc; "{}", Rule::parse(row.text(2)).ok() == Some(rule)),
        _ => fits(alloc, &rule, row),
    }
}

fn kind(alloc: Global, number: u64) -> Result<String, AllocError> {
    format!(in alloc; "{}", MessageKind::from(u8::try_from(number).unwrap_or(0)))
}

/// The rule's text, what an index parts it by, and whether the text is read as the rule again.
fn shown(alloc: Global, rule: &Rule) -> Result<String, AllocError> {
    let text = rule.to_string(alloc)?;
    let again = Rule::parse(text.as_str()).ok() == Some(*rule);
    format!(in alloc;
        "{text} {:?} {:?} {:?} {:?} {again}",
        rule.kind(),
        rule.member(),
        rule.interface(),
        rule.sender()
    )
}

/// Behind the rule's text the row has the owner of `com.example.A`, and the message's type, sender,
/// path and destination, and its arguments: `s` and a string, `o` and an object path, or another.
fn fits(alloc: Global, rule: &Rule, row: &Row<'_>) -> Result<String, AllocError> {
    let arguments = arguments(row);
    let facts = Facts {
        kind: MessageKind::from(u8::try_from(row.number(3)).unwrap_or(0)),
        auto_start: true,
        sender: row.number(4),
        path: Some(row.text(5)),
        interface: Some("com.example.Backend"),
        member: Some("Changed"),
        destination: Some(row.text(6)).filter(|name| !name.is_empty()),
        arguments: arguments.as_slice(),
    };
    format!(in alloc; "{}", rule.fits(&facts, &OwnedBy(row.number(2))))
}

fn arguments<'a>(row: &Row<'a>) -> ArrayVec<Argument<'a>, 64> {
    let mut arguments = ArrayVec::new();
    for column in row.columns.iter().skip(7) {
        if arguments.is_full() {
            return arguments;
        }
        arguments.push(argument(column));
    }
    arguments
}

fn argument<'a>(column: &'a str) -> Argument<'a> {
    if let Some(text) = column.strip_prefix("s ") {
        return Argument::String(text);
    }
    match column.strip_prefix("o ") {
        Some(path) => Argument::ObjectPath(path),
        None => Argument::Other,
    }
}
