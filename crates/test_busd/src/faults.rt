//! How runs end whose input is no message, or for which there is no memory.

use crate::messages::*;
use crate::runs::{joined, run};
use busd_core::RunFault;
use router_core::CloseCause;
use std::alloc::{AllocError, Global};
use std::process::Abort;
use test_support::messages::{ACQUIRED, GET_NAME_OWNER, HELLO, OWNER, WELCOME};

fn shown(alloc: Global, fault: RunFault) -> Result<String, AllocError> {
    match format!(in alloc; "{fault}") {
        Ok(text) => Ok(text),
        Err(_) => Err(AllocError),
    }
}

/// Whether the run ends with the input or is closed by a known code, where one byte of the sample
/// is another.
fn is_known(alloc: Global, place: usize, byte: u8) -> Result<bool, AllocError> {
    let mut changed = joined(alloc, &[HELLO, GET_NAME_OWNER])?;
    if let Some(slot) = changed.get_mut(place) {
        *slot = byte;
    }
    let mut output = Vec::new(alloc);
    match run(alloc, &mut changed.as_slice(), &mut output) {
        Ok(()) => Ok(true),
        Err(RunFault::Closed(cause)) => {
            let code = shown(alloc, RunFault::Closed(cause))?;
            let code = code.as_str();
            Ok(code == "closed: 64" || code.starts_with("closed: 2"))
        }
        Err(_) => Ok(false),
    }
}

#[test]
fn bytes_set_to_others(rt: HostRuntime) {
    let alloc = rt.alloc();
    for place in 0..HELLO.len() + GET_NAME_OWNER.len() {
        for byte in [0, 255] {
            let once = is_known(alloc, place, byte);
            let is_due = once == Ok(true) || is_known(alloc, place, byte) == Ok(true);
            assert!(rt; is_due, "{place}, {byte}");
        }
    }
}

/// A call after Hello, its reply, and what is written in place of it for want of memory.
type Call = (&'static [u8], &'static [u8], &'static [u8]);

const CALLS: &[Call] = &[
    (GET_NAME_OWNER, OWNER, NO_MEMORY),
    (ADD_MATCH, ADDED, NO_MEMORY),
    (ELSEWHERE, SERVICE_UNKNOWN, NO_MEMORY),
    (TO_ITSELF, TO_ITSELF_RELAYED, NO_MEMORY),
    (SIGNAL, b"", b""),
];

/// Whether the run ends as it may where memory runs out.
fn ends_well(alloc: Global, (call, reply, lost): &Call) -> Result<bool, AllocError> {
    let input = joined(alloc, &[HELLO, call])?;
    let whole = joined(alloc, &[WELCOME, ACQUIRED, reply])?;
    let welcomed = joined(alloc, &[WELCOME, ACQUIRED])?;
    let unanswered = joined(alloc, &[WELCOME, ACQUIRED, lost])?;
    let mut output = Vec::new(alloc);
    let end = run(alloc, &mut input.as_slice(), &mut output);
    let written = output.as_slice();
    let is_over = written == whole.as_slice() || written == unanswered.as_slice();
    let is_between = written.is_empty() || written == WELCOME || written == welcomed.as_slice();
    Ok(match end {
        Ok(()) => is_over,
        Err(RunFault::Memory) => is_between || is_over,
        // The output is memory too.
        Err(RunFault::Output) => is_between,
        Err(RunFault::Closed(cause)) => {
            cause == CloseCause::NotHello && written == MEMORY_AT_HELLO
        }
        Err(RunFault::Input) => false,
    })
}

#[test]
fn memory_that_runs_out(rt: HostRuntime) {
    for (place, call) in CALLS.iter().enumerate() {
        assert!(rt; ends_well(rt.alloc(), call) != Ok(false), "row {place}");
    }
}

/// A fault, its text, and the exit status that it gives.
const FAULTS: &[(RunFault, &str, u8)] = &[
    (RunFault::Closed(CloseCause::NotHello), "closed: 64", 3),
    (RunFault::Closed(CloseCause::Left), "closed: 66", 3),
    (
        RunFault::Closed(CloseCause::LimitsExceeded),
        "closed: 68",
        3,
    ),
    (RunFault::Closed(CloseCause::TooLong), "closed: 27", 3),
    (RunFault::Input, "device: input", 4),
    (RunFault::Output, "device: output", 4),
    (RunFault::Memory, "memory", 5),
];

fn is_shown(alloc: Global, fault: RunFault, text: &str) -> bool {
    match shown(alloc, fault) {
        Ok(shown) => shown.as_str() == text,
        Err(_) => false,
    }
}

#[test]
fn texts_and_statuses(rt: HostRuntime) {
    let alloc = rt.alloc();
    for (fault, text, status) in FAULTS {
        let is_due = is_shown(alloc, *fault, text) || is_shown(alloc, *fault, text);
        assert!(rt; is_due && fault.status() == *status, "{text}");
    }
}
