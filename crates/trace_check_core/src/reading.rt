//! Reading a trace.

ghost use Rattle.std.specs.Prelude.{◌≡◌, ◌+◌, ◌<◌, ◌≤◌, ◌^◌, length, option_and_then, option_map, IfOk, IfSome, if◌then◌else◌};
ghost use Rattle.seq_bus_core.specs.Histories.{max_routers};
ghost use Rattle.trace_lines.specs.Heads.{profile_of, routers_of};
ghost use Rattle.trace_words.specs.Hex.{utf8_of};
ghost use Rattle.trace_check_core.specs.Traces.{lines_of, longer_trace, routed, trace_of, trace_on};
ghost use Rattle.std.specs.Result.{result_map_both};
ghost use Rattle.trace_check_core.specs.TraceViews.{taken};
ghost use Rattle.trace_check_core.specs.Verdicts.{next_line};

use crate::file_lines::FileLines;
use crate::trace::Trace;
use owner_queues::Profile;
use std::alloc::{AllocError, Global};
use std::str;
use trace_lines::{read_profile, read_routers};

/// Bytes as the text that they are, if they are UTF-8.
fn utf8(bytes: &[u8]) -> Option<&str>
    ensures { option_map (λ text. text.now) result ≡ utf8_of bytes.now }
{
    match str::from_utf8(bytes) {
        Ok(text) => Some(text),
        Err(_) => None,
    }
}

impl<'a> Trace<'a> {
    /// Reads a file: the trace that it is, or the number of the first line, from 1, that has not
    /// the form of its place.
    pub fn read(alloc: Global, file: &'a [u8]) -> Result<Result<Trace<'a>, u64>, AllocError>
        ensures { IfOk result (λ read. result_map_both (λ t. t) (λ n. n) read ≡ trace_of file.now) }
    {
        let mut lines = FileLines::of(file);
        let Some(line) = lines.take() else {
            return Ok(Err(1));
        };
        match profile(line) {
            Some(profile) => read_routed(alloc, profile, lines),
            None => Ok(Err(1)),
        }
    }
}

fn profile(line: &[u8]) -> Option<Profile>
    ensures { result ≡ option_and_then profile_of (utf8_of line.now) }
{
    read_profile(utf8(line)?)
}

#[tactic(auto, using(crate::proofs::LineLaws::few_routers))]
fn routers(line: &[u8]) -> Option<u8>
    ensures value { result ≡ option_and_then routers_of (utf8_of line.now) }
    ensures within { IfSome result (λ routers. (1 ≤ routers) × (routers ≤ max_routers)) }
{
    let routers = read_routers(utf8(line)?)?;
    Some(routers as u8)
}

/// Reads the lines behind the first, under its profile.
fn read_routed<'a>(
    alloc: Global,
    profile: Profile,
    mut lines: FileLines<'a>,
) -> Result<Result<Trace<'a>, u64>, AllocError>
    requires { length lines.rest.now + 2 ≤ 2 ^ 64 }
    ensures { IfOk result (λ read. result_map_both (λ t. t) (λ n. n) read
        ≡ routed profile (lines_of lines.entry.rest.now)) }
{
    let Some(line) = lines.take() else {
        return Ok(Err(2));
    };
    match routers(line) {
        Some(routers) => read_lines(alloc, Trace::headed(alloc, profile, routers), lines),
        None => Ok(Err(2)),
    }
}

/// Reads the lines behind those of a trace.
fn read_lines<'a>(
    alloc: Global,
    mut trace: Trace<'a>,
    mut lines: FileLines<'a>,
) -> Result<Result<Trace<'a>, u64>, AllocError>
    requires { next_line trace + length lines.rest.now ≤ 2 ^ 64 }
    ensures { IfOk result (λ read. result_map_both (λ t. t) (λ n. n) read
        ≡ trace_on (next_line trace.entry) trace.entry (lines_of lines.entry.rest.now)) }
{
    while let Some(line) = lines.take() {
        if !take_line(alloc, &mut trace, line)? {
            return Ok(Err(trace.next_line()));
        }
    }
    Ok(Ok(trace))
}

/// Takes one line more, and says whether it is one that may stand there.
fn take_line<'a>(alloc: Global, trace: &mut Trace<'a>, line: &'a [u8]) -> Result<bool, AllocError>
    requires { next_line trace.old < 2 ^ 64 }
    ensures taken { IfOk result (λ is_line.
        taken is_line trace.new ≡ longer_trace trace.old line.now) }
    ensures numbered { IfOk result (λ is_line. next_line trace.new
        ≡ next_line trace.old + (if is_line then 1 else 0)) }
{
    match utf8(line) {
        Some(text) => trace.take(alloc, text),
        None => Ok(false),
    }
}
