//! Changes that have rules or carry a message. To read them takes memory.

ghost use Rattle.std.specs.Prelude.{◌≡◌, [], option_map, IfOk};
ghost use Rattle.std.specs.List.{list_any};
ghost use Rattle.std.specs.Result.{result_ok};
ghost use Rattle.hex.specs.Hex.{decode_of};
ghost use Rattle.seq_bus_core.specs.Changes.{no_call};
ghost use Rattle.seq_bus_core.specs.declared.change.Change.TheVariants.{AddMatch, Hold, RemoveMatch};
ghost use Rattle.trace_words.specs.Changes.{Read, change_from, monitor_from, named_from, rule_in, rule_of, rule_of_bytes, ruled_from, rules_from, rules_of};
ghost use Rattle.trace_words.specs.Cutting.{parts_left};
ghost use Rattle.trace_words.specs.Hex.{bytes_of, hex_bytes, is_upper_case};

use crate::changes::{NO_CALL, plain_change};
use crate::parts::Parts;
use crate::texts::utf8;
use crate::words::{name, number};
use hex::FromHexError;
use match_rules::Rule;
use seq_bus_core::{Change, MonitorRules, SharedBytes};
use std::alloc::{AllocError, Global};
use std::sync::Arc;

/// Decodes digits.
fn decoded(alloc: Global, digits: &[u8]) -> Result<Option<Vec<u8>>, AllocError>
    ensures { IfOk result (λ bytes. option_map (λ b. b.items) bytes
        ≡ result_ok (decode_of digits.now)) }
{
    match hex::decode(alloc, digits) {
        Ok(bytes) => Ok(Some(bytes)),
        Err(FromHexError::OutOfMemory) => Err(AllocError),
        Err(_) => Ok(None),
    }
}

/// Whether one of these is a letter in upper case.
fn has_upper_case(digits: &[u8]) -> bool
    ensures { result ≡ list_any is_upper_case digits.now }
{
    digits.iter().any(|digit| *digit > 64 && *digit < 91)
}

/// Decodes digits in lower case.
fn hex_bytes(alloc: Global, digits: &[u8]) -> Result<Option<Vec<u8>>, AllocError>
    ensures { IfOk result (λ bytes. option_map (λ b. b.items) bytes ≡ hex_bytes digits.now) }
{
    if has_upper_case(digits) {
        return Ok(None);
    }
    decoded(alloc, digits)
}

/// Reads bytes in hex behind an x.
pub(crate) fn bytes(alloc: Global, word: &[u8]) -> Result<Option<Vec<u8>>, AllocError>
    ensures { IfOk result (λ bytes. option_map (λ b. b.items) bytes ≡ bytes_of word.now) }
{
    let Some((first, digits)) = word.split_first() else {
        return Ok(None);
    };
    if *first != b'x' {
        return Ok(None);
    }
    hex_bytes(alloc, digits)
}

/// The rule of a text that is one.
#[tactic(auto, using(crate::proofs::RuleReading::rule_reads, crate::proofs::RuleReading::fault_reads))]
fn rule_in(text: &str) -> Option<Rule>
    ensures { result ≡ rule_in text.now }
{
    match Rule::parse(text) {
        Ok(rule) => Some(rule),
        Err(_) => None,
    }
}

fn rule_of_bytes(bytes: &[u8]) -> Option<Rule>
    ensures { result ≡ rule_of_bytes bytes.now }
{
    match utf8(bytes) {
        Some(text) => rule_in(text),
        None => None,
    }
}

/// Reads a rule.
fn rule(alloc: Global, word: &str) -> Result<Option<Rule>, AllocError>
    ensures { IfOk result (λ rule. rule ≡ rule_of word.now) }
{
    match bytes(alloc, word.as_bytes())? {
        Some(bytes) => Ok(rule_of_bytes(bytes.as_slice())),
        None => Ok(None),
    }
}

/// Reads rules, of which a monitor may have as many as they are.
fn rules_in(alloc: Global, mut words: Parts<'_>) -> Result<Option<MonitorRules>, AllocError>
    ensures { IfOk result (λ rules. rules ≡ rules_from [] (parts_left words.entry)) }
{
    let mut rules = MonitorRules::new(alloc);
    while let Some(word) = words.take() {
        if rules.is_full() {
            return Ok(None);
        }
        let Some(rule) = rule(alloc, word)? else {
            return Ok(None);
        };
        rules.push(rule)?;
    }
    Ok(Some(rules))
}

fn rules(alloc: Global, word: &str) -> Result<Option<MonitorRules>, AllocError>
    ensures { IfOk result (λ rules. rules ≡ rules_of word.now) }
{
    if word == "-" {
        return Ok(Some(MonitorRules::new(alloc)));
    }
    rules_in(alloc, Parts::of(word, ','))
}

/// Reads a connection and a rule.
fn ruled(alloc: Global, words: &mut Parts<'_>) -> Result<Option<(u64, Rule)>, AllocError>
    ensures { IfOk result (λ ruled. option_map (λ r. (r, parts_left words.new)) ruled
        ≡ ruled_from (parts_left words.old)) }
{
    let Some(connection) = words.take() else {
        return Ok(None);
    };
    let Some(text) = words.take() else {
        return Ok(None);
    };
    let Some(connection) = number(connection) else {
        return Ok(None);
    };
    match rule(alloc, text)? {
        Some(rule) => Ok(Some((connection, rule))),
        None => Ok(None),
    }
}

fn become_monitor(alloc: Global, words: &mut Parts<'_>) -> Result<Option<Change>, AllocError>
    ensures { IfOk result (λ change. option_map (λ c. (c, parts_left words.new)) change
        ≡ monitor_from (parts_left words.old)) }
{
    let Some(connection) = words.take() else {
        return Ok(None);
    };
    let Some(texts) = words.take() else {
        return Ok(None);
    };
    let Some(connection) = number(connection) else {
        return Ok(None);
    };
    match rules(alloc, texts)? {
        Some(rules) => Ok(Some(Change::BecomeMonitor { connection, rules })),
        None => Ok(None),
    }
}

/// A message that is not there.
fn no_message(alloc: Global) -> Result<SharedBytes, AllocError>
    ensures { IfOk result (λ message. message ≡ []) }
{
    match Arc::new(alloc, Vec::new(alloc)) {
        Ok(bytes) => Ok(SharedBytes::new(bytes)),
        Err(_) => Err(AllocError),
    }
}

fn hold(alloc: Global, words: &mut Parts<'_>) -> Result<Option<Change>, AllocError>
    ensures { IfOk result (λ change. option_map (λ c. (c, parts_left words.new)) change
        ≡ named_from (λ c n. Hold c n no_call []) (parts_left words.old)) }
{
    let Some(connection) = words.take() else {
        return Ok(None);
    };
    let Some(wanted) = words.take() else {
        return Ok(None);
    };
    let Some(connection) = number(connection) else {
        return Ok(None);
    };
    let Some(name) = name(wanted) else {
        return Ok(None);
    };
    let message = no_message(alloc)?;
    Ok(Some(Change::Hold {
        connection,
        name,
        call: NO_CALL,
        message,
    }))
}

fn add_match(alloc: Global, words: &mut Parts<'_>) -> Result<Option<Change>, AllocError>
    ensures { let said : Read = option_map (λ r. (AddMatch r.0.0 r.0.1, r.1))
        (ruled_from (parts_left words.old)) in
        IfOk result (λ change. option_map (λ c. (c, parts_left words.new)) change ≡ said) }
{
    match ruled(alloc, words)? {
        Some((connection, rule)) => Ok(Some(Change::AddMatch { connection, rule })),
        None => Ok(None),
    }
}

fn remove_match(alloc: Global, words: &mut Parts<'_>) -> Result<Option<Change>, AllocError>
    ensures { let said : Read = option_map (λ r. (RemoveMatch r.0.0 r.0.1, r.1))
        (ruled_from (parts_left words.old)) in
        IfOk result (λ change. option_map (λ c. (c, parts_left words.new)) change ≡ said) }
{
    match ruled(alloc, words)? {
        Some((connection, rule)) => Ok(Some(Change::RemoveMatch { connection, rule })),
        None => Ok(None),
    }
}

/// Reads a change, and leaves the words behind it. None where they say no change; then some may be
/// taken.
pub fn read_change(alloc: Global, words: &mut Parts<'_>) -> Result<Option<Change>, AllocError>
    ensures { IfOk result (λ change. option_map (λ c. (c, parts_left words.new)) change
        ≡ change_from (parts_left words.old)) }
{
    let Some(verb) = words.take() else {
        return Ok(None);
    };
    if verb == "addmatch" {
        return add_match(alloc, words);
    }
    if verb == "removematch" {
        return remove_match(alloc, words);
    }
    if verb == "monitor" {
        return become_monitor(alloc, words);
    }
    if verb == "hold" {
        return hold(alloc, words);
    }
    Ok(plain_change(verb, words))
}
