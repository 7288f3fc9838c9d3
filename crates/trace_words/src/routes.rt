//! The words of routes.

ghost use Rattle.std.specs.Prelude.{◌≡◌, ◌∷◌, None, option_map, IfOk, MatchOption};
ghost use Rattle.std.specs.Option.{option_copied};
ghost use Rattle.trace_words.specs.Cutting.{parts_left};
ghost use Rattle.trace_words.specs.RouteViews.{route_facts, route_words};
ghost use Rattle.trace_words.specs.Routes.{header_from, is_interface, is_member, is_path, kind_of, optional, route_from};
ghost use Rattle.trace_words.specs.Words.{is_bus_name};

use crate::arguments::{arguments, is_path};
use crate::parts::Parts;
use crate::route::Route;
use crate::words::{bit, is_bus_name, number};
use match_rules::MessageKind;
use names::{Interface, Member};
use std::alloc::{AllocError, Global};

fn kind(word: &str) -> Option<MessageKind>
    ensures { result ≡ kind_of word.now }
{
    if word == "1" {
        return Some(MessageKind::MethodCall);
    }
    if word == "2" {
        return Some(MessageKind::MethodReturn);
    }
    if word == "3" {
        return Some(MessageKind::Error);
    }
    if word == "4" {
        return Some(MessageKind::Signal);
    }
    None
}

fn path(word: &str) -> Option<Option<&str>>
    ensures { option_map (λ p. option_copied p) result ≡ optional is_path word.now }
{
    if word == "-" {
        return Some(None);
    }
    if is_path(word) {
        Some(Some(word))
    } else {
        None
    }
}

fn interface(word: &str) -> Option<Option<&str>>
    ensures { option_map (λ i. option_copied i) result ≡ optional is_interface word.now }
{
    if word == "-" {
        return Some(None);
    }
    if Interface::check(word.as_bytes()).is_ok() {
        Some(Some(word))
    } else {
        None
    }
}

fn member(word: &str) -> Option<Option<&str>>
    ensures { option_map (λ m. option_copied m) result ≡ optional is_member word.now }
{
    if word == "-" {
        return Some(None);
    }
    if Member::check(word.as_bytes()).is_ok() {
        Some(Some(word))
    } else {
        None
    }
}

fn destination(word: &str) -> Option<Option<&str>>
    ensures { option_map (λ d. option_copied d) result ≡ optional is_bus_name word.now }
{
    if word == "-" {
        return Some(None);
    }
    if is_bus_name(word) {
        Some(Some(word))
    } else {
        None
    }
}

/// The words of a message, and those behind them.
#[derive(Clone, Copy)]
pub(crate) struct RouteWords<'a> {
    sender: &'a str,
    kind: &'a str,
    auto_start: &'a str,
    path: &'a str,
    interface: &'a str,
    member: &'a str,
    destination: &'a str,
    arguments: &'a str,
    behind: Parts<'a>,
}

/// Takes the words of a message behind its path.
fn words_behind<'a>(
    sender: &'a str,
    kind: &'a str,
    auto_start: &'a str,
    path: &'a str,
    mut words: Parts<'a>,
) -> Option<RouteWords<'a>>
    ensures { let all = sender.now ∷ kind.now ∷ auto_start.now ∷ path.now
        ∷ parts_left words.entry in
        MatchOption result (header_from all ≡ None) (λ taken. all ≡ route_words taken) }
{
    let interface = words.take()?;
    let member = words.take()?;
    let destination = words.take()?;
    let arguments = words.take()?;
    Some(RouteWords {
        sender,
        kind,
        auto_start,
        path,
        interface,
        member,
        destination,
        arguments,
        behind: words,
    })
}

/// Takes the words of a message.
fn route_words(mut words: Parts<'_>) -> Option<RouteWords<'_>>
    ensures { MatchOption result (header_from (parts_left words.entry) ≡ None)
        (λ taken. parts_left words.entry ≡ route_words taken) }
{
    let sender = words.take()?;
    let kind = words.take()?;
    let auto_start = words.take()?;
    let path = words.take()?;
    words_behind(sender, kind, auto_start, path, words)
}

/// Reads a message without its arguments out of its words.
fn header_in<'a>(alloc: Global, words: RouteWords<'a>) -> Option<Route<'a>>
    ensures { option_map
        (λ r. ((route_facts r, words.entry.arguments.now), parts_left words.entry.behind)) result
        ≡ header_from (route_words words.entry) }
{
    let sender = number(words.sender)?;
    let kind = kind(words.kind)?;
    let auto_start = bit(words.auto_start)?;
    let path = path(words.path)?;
    let interface = interface(words.interface)?;
    let member = member(words.member)?;
    let destination = destination(words.destination)?;
    Some(Route {
        kind,
        auto_start,
        sender,
        path,
        interface,
        member,
        destination,
        arguments: Vec::new(alloc),
    })
}

/// Reads a message without its arguments, and the word of these.
fn header<'a>(alloc: Global, words: &mut Parts<'a>) -> Option<(Route<'a>, &'a str)>
    ensures { option_map (λ h. ((route_facts h.0, h.1.now), parts_left words.new)) result
        ≡ header_from (parts_left words.old) }
{
    let taken = route_words(*words)?;
    let route = header_in(alloc, taken)?;
    *words = taken.behind;
    Some((route, taken.arguments))
}

/// Reads a message that was routed, and leaves the words behind it. None where they say no message;
/// then some may be taken.
pub fn read_route<'a>(alloc: Global, words: &mut Parts<'a>) -> Result<Option<Route<'a>>, AllocError>
    ensures { IfOk result (λ route. option_map (λ r. (route_facts r, parts_left words.new)) route
        ≡ route_from (parts_left words.old)) }
{
    let Some((header, word)) = header(alloc, words) else {
        return Ok(None);
    };
    let Some(arguments) = arguments(alloc, word)? else {
        return Ok(None);
    };
    Ok(Some(Route {
        kind: header.kind,
        auto_start: header.auto_start,
        sender: header.sender,
        path: header.path,
        interface: header.interface,
        member: header.member,
        destination: header.destination,
        arguments,
    }))
}
