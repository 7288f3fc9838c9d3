//! Why a trace is not legal.

use crate::fault::CheckFault;
use std::alloc::Global;
use std::str;
use trace_check_core::{Cause, told_at};

/// The text of the line of this number, from 1.
fn line_text(file: &[u8], number: u64) -> &str {
    let index = number.saturating_sub(1) as usize;
    match file.split(|byte| *byte == b'\n').nth(index) {
        Some(line) => str::from_utf8(line).unwrap_or("no text"),
        None => "",
    }
}

fn reason(alloc: Global, file: &[u8], number: u64, cause: Cause) -> Result<String, CheckFault> {
    let reason = match cause {
        Cause::Form => "this is no line of a trace, or a line of the head out of its place",
        Cause::Order => "this is out of the order of its seat",
        Cause::Place => "this is a change where an earlier one stands, or stands above all changes",
        Cause::Content => match told_at(alloc, file, number)? {
            Some(told) => return Ok(format!(in alloc; "here the bus tells {told}")?),
            None => "here the bus tells something else",
        },
    };
    Ok(String::from_str(alloc, reason)?)
}

/// Tells a line on standard error, and why it is named.
pub fn explain<R: Eprint + AllocGlobal>(
    rt: &R,
    file: &[u8],
    number: u64,
    cause: Cause,
) -> Result<(), CheckFault> {
    let reason = reason(rt.alloc(), file, number, cause)?;
    let _ = eprintln!(rt; "{number}: {}", line_text(file, number));
    let _ = eprintln!(rt; "{reason}");
    Ok(())
}
