//! What stands behind the arrow of a line.

ghost use Rattle.std.specs.Prelude.{◌≡◌, ◌||◌, ◌&&◌, ◌<◌, unwrap_or, codes, false, None};
ghost use Rattle.names.specs.Texts.{text_eq};
ghost use Rattle.std.specs.Option.{option_copied};
ghost use Rattle.trace_words.specs.Cutting.{parts_left};
ghost use Rattle.trace_words.specs.Recorded.{are_names, are_rising, has_value, is_answer, is_held, is_kind, is_name_told, is_number_or_none, is_numbered, is_outcome, is_owner_change, is_passed, is_recipients, is_reply, is_signal, is_signal_of, is_signals, is_ticket, is_tickets, is_verdict, rises, value_of};
ghost use Rattle.trace_words.specs.Words.{equals, is_bus_name, is_number, parts};

use crate::parts::Parts;
use crate::words::{is_bus_name, is_number, number};
use seq_bus_core::{Change, Query};

fn is_number_or_none(text: &str) -> bool
    ensures { result ≡ is_number_or_none text.now }
{
    text == "-" || is_number(text)
}

/// Whether a number is there, and above the last one.
fn rises(last: Option<u64>, number: Option<u64>) -> bool
    ensures { result ≡ rises last number }
{
    match (last, number) {
        (_, None) => false,
        (None, Some(_)) => true,
        (Some(last), Some(number)) => last < number,
    }
}

fn are_rising(mut numbers: Parts<'_>) -> bool
    ensures { result ≡ are_rising None (parts_left numbers.entry) }
{
    let mut last = None;
    while let Some(text) = numbers.take() {
        let number = number(text);
        if !rises(last, number) {
            return false;
        }
        last = number;
    }
    true
}

fn is_recipients(text: &str) -> bool
    ensures { result ≡ is_recipients text.now }
{
    text == "-" || are_rising(Parts::of(text, '+'))
}

/// Whether these are the recipients of a signal or a message, and the monitors that see it.
fn are_told(to: &str, monitors: &str) -> bool
    ensures { result ≡ (is_recipients to.now && is_recipients monitors.now) }
{
    is_recipients(to) && is_recipients(monitors)
}

fn owner_change(mut told: Parts<'_>) -> Option<bool>
    ensures { unwrap_or result false ≡ is_owner_change (parts_left told.entry) }
{
    let name = told.take()?;
    let old = told.take()?;
    let new = told.take()?;
    let to = told.take()?;
    let monitors = told.take()?;
    if told.take().is_some() {
        return None;
    }
    Some(
        is_bus_name(name)
            && is_number_or_none(old)
            && is_number_or_none(new)
            && are_told(to, monitors),
    )
}

fn name_told(mut told: Parts<'_>) -> Option<bool>
    ensures { unwrap_or result false ≡ is_name_told (parts_left told.entry) }
{
    let name = told.take()?;
    let to = told.take()?;
    let monitors = told.take()?;
    if told.take().is_some() {
        return None;
    }
    Some(is_bus_name(name) && are_told(to, monitors))
}

fn signal(mut parts: Parts<'_>) -> Option<bool>
    ensures { unwrap_or result false ≡ is_signal_of (parts_left parts.entry) }
{
    let kind = parts.take()?;
    if kind == "noc" {
        return owner_change(parts);
    }
    if kind == "lost" {
        return name_told(parts);
    }
    if kind == "acq" {
        return name_told(parts);
    }
    None
}

fn is_signal(text: &str) -> bool
    ensures { result ≡ is_signal text.now }
{
    signal(Parts::of(text, '/')).unwrap_or(false)
}

fn is_signals(text: &str) -> bool
    ensures { result ≡ is_signals text.now }
{
    if text == "-" {
        return true;
    }
    let mut signals = Parts::of(text, ',');
    while let Some(told) = signals.take() {
        if !is_signal(told) {
            return false;
        }
    }
    true
}

/// Whether the parts are a word and a number.
fn numbered(word: &str, mut parts: Parts<'_>) -> Option<bool>
    ensures { unwrap_or result false ≡ is_numbered word.now (parts_left parts.entry) }
{
    let front = parts.take()?;
    let number = parts.take()?;
    if parts.take().is_some() {
        return None;
    }
    Some(front == word && is_number(number))
}

fn is_numbered(word: &str, separator: char, text: &str) -> bool
    requires { separator < 128 }
    ensures { result ≡ is_numbered word.now (parts separator text.now) }
{
    numbered(word, Parts::of(text, separator)).unwrap_or(false)
}

fn is_ticket(text: &str) -> bool
    ensures { result ≡ is_ticket text.now }
{
    is_numbered("", '+', text) || is_numbered("", '!', text)
}

fn is_tickets(text: &str) -> bool
    ensures { result ≡ is_tickets text.now }
{
    if text == "-" {
        return true;
    }
    let mut tickets = Parts::of(text, ',');
    while let Some(ticket) = tickets.take() {
        if !is_ticket(ticket) {
            return false;
        }
    }
    true
}

fn is_reply_to_request(text: &str) -> bool
    ensures { result ≡ (text_eq text.now (codes "1") || text_eq text.now (codes "2")
        || text_eq text.now (codes "3") || text_eq text.now (codes "4")
        || text_eq text.now (codes "limits") || text_eq text.now (codes "invalid")
        || text_eq text.now (codes "gone")) }
{
    text == "1"
        || text == "2"
        || text == "3"
        || text == "4"
        || text == "limits"
        || text == "invalid"
        || text == "gone"
}

fn is_reply_to_release(text: &str) -> bool
    ensures { result ≡ (text_eq text.now (codes "1") || text_eq text.now (codes "2")
        || text_eq text.now (codes "3") || text_eq text.now (codes "invalid")
        || text_eq text.now (codes "gone")) }
{
    text == "1" || text == "2" || text == "3" || text == "invalid" || text == "gone"
}

fn is_reply_to_start(text: &str) -> bool
    ensures { result ≡ (text_eq text.now (codes "2") || text_eq text.now (codes "unknown")
        || text_eq text.now (codes "limits") || text_eq text.now (codes "gone")
        || is_held text.now) }
{
    text == "2"
        || text == "unknown"
        || text == "limits"
        || text == "gone"
        || is_numbered("held", '/', text)
}

fn is_reply_to_hold(text: &str) -> bool
    ensures { result ≡ (text_eq text.now (codes "unknown") || text_eq text.now (codes "limits")
        || text_eq text.now (codes "gone") || is_held text.now || is_passed text.now) }
{
    text == "unknown"
        || text == "limits"
        || text == "gone"
        || is_numbered("held", '/', text)
        || is_numbered("pass", '/', text)
}

fn is_done(text: &str) -> bool
    ensures { result ≡ (text_eq text.now (codes "ok") || text_eq text.now (codes "gone")) }
{
    text == "ok" || text == "gone"
}

/// Whether a text says that it is done, that the asker is gone, or why it is not done.
fn is_done_or(refusal: &str, text: &str) -> bool
    ensures { result ≡ (text_eq text.now (codes "ok") || text_eq text.now refusal.now
        || text_eq text.now (codes "gone")) }
{
    text == "ok" || text == refusal || text == "gone"
}

fn is_reply_to_hello(text: &str) -> bool
    ensures { result ≡ (text_eq text.now (codes "limits") || is_number text.now) }
{
    text == "limits" || is_number(text)
}

fn is_reply_to_starter(text: &str) -> bool
    ensures { result ≡ (text_eq text.now (codes "ok") || text_eq text.now (codes "ignored")) }
{
    text == "ok" || text == "ignored"
}

fn is_reply(change: &Change, text: &str) -> bool
    ensures { result ≡ is_reply change.now text.now }
{
    match change {
        Change::Hello { .. } => is_reply_to_hello(text),
        Change::Leave { .. } => is_done(text),
        Change::Request { .. } => is_reply_to_request(text),
        Change::Release { .. } => is_reply_to_release(text),
        Change::AddMatch { .. } => is_done_or("limits", text),
        Change::RemoveMatch { .. } => is_done_or("notfound", text),
        Change::BecomeMonitor { .. } => is_done_or("denied", text),
        Change::Start { .. } => is_reply_to_start(text),
        Change::Hold { .. } => is_reply_to_hold(text),
        Change::ChildEnded { .. } => is_reply_to_starter(text),
        Change::StartTimedOut { .. } => is_reply_to_starter(text),
    }
}

/// The value behind a key.
fn value_in<'a>(key: &str, mut parts: Parts<'a>) -> Option<&'a str>
    ensures { option_copied result ≡ value_of key.now (parts_left parts.entry) }
{
    let front = parts.take()?;
    let value = parts.take()?;
    if parts.take().is_some() {
        return None;
    }
    if front != key {
        return None;
    }
    Some(value)
}

fn value<'a>(key: &str, word: &'a str) -> Option<&'a str>
    ensures { option_copied result ≡ value_of key.now (parts equals word.now) }
{
    value_in(key, Parts::of(word, '='))
}

fn has_reply(change: &Change, word: &str) -> bool
    ensures { result ≡ has_value (codes "r") (is_reply change.now) word.now }
{
    match value("r", word) {
        Some(reply) => is_reply(change, reply),
        None => false,
    }
}

fn has_signals(word: &str) -> bool
    ensures { result ≡ has_value (codes "g") is_signals word.now }
{
    match value("g", word) {
        Some(signals) => is_signals(signals),
        None => false,
    }
}

fn has_tickets(word: &str) -> bool
    ensures { result ≡ has_value (codes "t") is_tickets word.now }
{
    match value("t", word) {
        Some(tickets) => is_tickets(tickets),
        None => false,
    }
}

fn has_start(word: &str) -> bool
    ensures { result ≡ has_value (codes "b") is_number_or_none word.now }
{
    match value("b", word) {
        Some(start) => is_number_or_none(start),
        None => false,
    }
}

fn outcome(change: &Change, mut words: Parts<'_>) -> Option<bool>
    ensures { unwrap_or result false ≡ is_outcome change.now (parts_left words.entry) }
{
    let reply = words.take()?;
    let signals = words.take()?;
    let tickets = words.take()?;
    let start = words.take()?;
    if words.take().is_some() {
        return None;
    }
    Some(
        has_reply(change, reply)
            && has_signals(signals)
            && has_tickets(tickets)
            && has_start(start),
    )
}

/// Whether words are what a change of this kind can be told.
pub fn is_outcome(change: &Change, words: Parts<'_>) -> bool
    ensures { result ≡ is_outcome change.now (parts_left words.entry) }
{
    outcome(change, words).unwrap_or(false)
}

fn are_names(text: &str) -> bool
    ensures { result ≡ are_names text.now }
{
    let mut names = Parts::of(text, ',');
    while let Some(name) = names.take() {
        if !is_bus_name(name) {
            return false;
        }
    }
    true
}

/// Whether a word is what a query of this kind can be answered.
pub fn is_answer(query: &Query, text: &str) -> bool
    ensures { result ≡ is_answer query.now text.now }
{
    match query {
        Query::GetNameOwner(_) => text == "none" || is_bus_name(text),
        Query::NameHasOwner(_) => text == "0" || text == "1",
        Query::ListNames => are_names(text),
        Query::ListActivatableNames => are_names(text),
        Query::ListQueuedOwners(_) => text == "none" || are_names(text),
    }
}

fn is_kind(text: &str) -> bool
    ensures { result ≡ is_kind text.now }
{
    text == "plain" || text == "bus" || text == "start" || text == "nobody" || text == "absent"
}

fn verdict(mut words: Parts<'_>) -> Option<bool>
    ensures { unwrap_or result false ≡ is_verdict (parts_left words.entry) }
{
    let kind = words.take()?;
    let to = words.take()?;
    let monitors = words.take()?;
    if words.take().is_some() {
        return None;
    }
    Some(is_kind(kind) && are_told(to, monitors))
}

/// Whether words say where a message goes.
pub fn is_verdict(words: Parts<'_>) -> bool
    ensures { result ≡ is_verdict (parts_left words.entry) }
{
    verdict(words).unwrap_or(false)
}
