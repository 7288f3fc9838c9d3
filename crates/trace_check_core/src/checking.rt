//! The check of a file.

ghost use Rattle.std.specs.Prelude.{◌≡◌, ◌↔◌, ℕ, IfOk};
ghost use Rattle.trace_check_core.specs.Legality.{IsLegalWithLines};
ghost use Rattle.trace_check_core.specs.Verdicts.{verdict_of_file, verdict_on};
ghost use Rattle.trace_check_core.specs.declared.verdict.Verdict.TheVariants.{No, Yes};

use crate::walk::wrong;
use crate::{Cause, Trace, Verdict};
use std::alloc::{AllocError, Global};

/// Checks a file. A yes says that it is a legal trace, and how many lines stand behind its head; a
/// no names the least line of the first cause that has one. It takes memory, and steps one bus
/// through the changes in order of place.
pub fn check(alloc: Global, file: &[u8]) -> Result<Verdict, AllocError>
    ensures verdict { IfOk result (λ verdict. verdict ≡ verdict_of_file file.now) }
    ensures yes { IfOk result (λ verdict. (lines : ℕ) →
        (verdict ≡ Yes lines) ↔ IsLegalWithLines file.now lines) }
{
    match Trace::read(alloc, file)? {
        Ok(trace) => judge(alloc, &trace),
        Err(line) => Ok(no(line, Cause::Form)),
    }
}

fn no(line: u64, cause: Cause) -> Verdict
    ensures { result ≡ No line cause }
{
    Verdict::No { line, cause }
}

/// The verdict on what a file reads as.
fn judge(alloc: Global, trace: &Trace<'_>) -> Result<Verdict, AllocError>
    ensures { IfOk result (λ verdict. verdict ≡ verdict_on trace.now) }
{
    if let Some(line) = trace.out_of_order() {
        return Ok(no(line, Cause::Order));
    }
    let places = match trace.places(alloc)? {
        Ok(places) => places,
        Err(line) => return Ok(no(line, Cause::Place)),
    };
    match wrong(alloc, trace, places.as_slice())? {
        Some(line) => Ok(no(line, Cause::Content)),
        None => Ok(Verdict::Yes {
            lines: trace.lines().len() as u64,
        }),
    }
}
