//! The words of changes.

ghost use Rattle.std.specs.Prelude.{◌≡◌, None, codes, if◌then◌else◌, option_map};
ghost use Rattle.names.specs.Texts.{text_eq};
ghost use Rattle.seq_bus_core.specs.Changes.{no_call};
ghost use Rattle.seq_bus_core.specs.declared.change.Change.TheVariants.{Release, Start};
ghost use Rattle.trace_words.specs.Changes.{ended_from, ending_of, hello_from, is_exit, leave_from, named_from, plain_change_of, request_from, timeout_from};
ghost use Rattle.trace_words.specs.Cutting.{parts_left};

use crate::parts::Parts;
use crate::words::{bit, name, number};
use owner_queues::RequestFlags;
use seq_bus_core::{CallHead, Change, Ending};

/// What a ticket carries, which is not in a trace.
pub(crate) const NO_CALL: CallHead = CallHead {
    serial: 0,
    flags: 0,
};

fn ending_in(mut parts: Parts<'_>) -> Option<Ending>
    ensures { result ≡ is_exit (parts_left parts.entry) }
{
    let front = parts.take()?;
    let status = parts.take()?;
    if parts.take().is_some() {
        return None;
    }
    if front != "exit" {
        return None;
    }
    Some(Ending::Exit(number(status)?))
}

fn ending(word: &str) -> Option<Ending>
    ensures { result ≡ ending_of word.now }
{
    if word == "killed" {
        return Some(Ending::Killed);
    }
    if word == "exec" {
        return Some(Ending::NotRun);
    }
    ending_in(Parts::of(word, '/'))
}

fn hello(words: &mut Parts<'_>) -> Option<Change>
    ensures { option_map (λ change. (change, parts_left words.new)) result
        ≡ hello_from (parts_left words.old) }
{
    let privileged = bit(words.take()?)?;
    Some(Change::Hello { privileged })
}

fn leave(words: &mut Parts<'_>) -> Option<Change>
    ensures { option_map (λ change. (change, parts_left words.new)) result
        ≡ leave_from (parts_left words.old) }
{
    let connection = number(words.take()?)?;
    Some(Change::Leave { connection })
}

fn request(words: &mut Parts<'_>) -> Option<Change>
    ensures { option_map (λ change. (change, parts_left words.new)) result
        ≡ request_from (parts_left words.old) }
{
    let connection = words.take()?;
    let wanted = words.take()?;
    let flags = words.take()?;
    let connection = number(connection)?;
    let name = name(wanted)?;
    let bits = number(flags)?;
    if bits > 0xffff_ffff {
        return None;
    }
    let flags = RequestFlags::from_bits(bits as u32);
    Some(Change::Request {
        connection,
        name,
        flags,
    })
}

fn release(words: &mut Parts<'_>) -> Option<Change>
    ensures { option_map (λ change. (change, parts_left words.new)) result
        ≡ named_from Release (parts_left words.old) }
{
    let connection = words.take()?;
    let released = words.take()?;
    let connection = number(connection)?;
    let name = name(released)?;
    Some(Change::Release { connection, name })
}

fn start(words: &mut Parts<'_>) -> Option<Change>
    ensures { option_map (λ change. (change, parts_left words.new)) result
        ≡ named_from (λ c n. Start c n no_call) (parts_left words.old) }
{
    let connection = words.take()?;
    let started = words.take()?;
    let connection = number(connection)?;
    let name = name(started)?;
    Some(Change::Start {
        connection,
        name,
        call: NO_CALL,
    })
}

fn ended(words: &mut Parts<'_>) -> Option<Change>
    ensures { option_map (λ change. (change, parts_left words.new)) result
        ≡ ended_from (parts_left words.old) }
{
    let started = words.take()?;
    let start = words.take()?;
    let how = words.take()?;
    let name = name(started)?;
    let start = number(start)?;
    let how = ending(how)?;
    Some(Change::ChildEnded { name, start, how })
}

fn timed_out(words: &mut Parts<'_>) -> Option<Change>
    ensures { option_map (λ change. (change, parts_left words.new)) result
        ≡ timeout_from (parts_left words.old) }
{
    let started = words.take()?;
    let start = words.take()?;
    let name = name(started)?;
    let start = number(start)?;
    Some(Change::StartTimedOut { name, start })
}

/// Reads what befell a start, or one that is asked for, behind its verb.
fn start_change(verb: &str, words: &mut Parts<'_>) -> Option<Change>
    ensures { let behind = parts_left words.old in
        option_map (λ change. (change, parts_left words.new)) result
        ≡ (if text_eq verb.now (codes "start") then named_from (λ c n. Start c n no_call) behind
        else if text_eq verb.now (codes "ended") then ended_from behind
        else if text_eq verb.now (codes "timeout") then timeout_from behind
        else None) }
{
    if verb == "start" {
        return start(words);
    }
    if verb == "ended" {
        return ended(words);
    }
    if verb == "timeout" {
        return timed_out(words);
    }
    None
}

/// Reads a change that has no rule and carries no message, behind its verb.
pub(crate) fn plain_change(verb: &str, words: &mut Parts<'_>) -> Option<Change>
    ensures { option_map (λ change. (change, parts_left words.new)) result
        ≡ plain_change_of verb.now (parts_left words.old) }
{
    if verb == "hello" {
        return hello(words);
    }
    if verb == "leave" {
        return leave(words);
    }
    if verb == "request" {
        return request(words);
    }
    if verb == "release" {
        return release(words);
    }
    start_change(verb, words)
}
