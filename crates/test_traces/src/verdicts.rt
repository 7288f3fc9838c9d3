//! Verdicts on whole traces.

use std::alloc::{AllocError, Global};
use trace_check_core::{Cause, Verdict, check, told_at};

/// Appends lines that name so many services.
fn push_services(alloc: Global, trace: &mut String, count: u16) -> Result<(), AllocError> {
    for service in 0..count {
        let line = format!(in alloc; "service com.example.S{service:03}\n")?;
        trace.push_str(line.as_str())?;
    }
    Ok(())
}

/// The verdict on a file as `bus-check` prints it.
fn verdict_text(alloc: Global, file: &[u8]) -> Result<String, AllocError> {
    let (line, cause) = match check(alloc, file)? {
        Verdict::Yes { lines } => return format!(in alloc; "yes {lines}"),
        Verdict::No { line, cause } => (line, cause),
    };
    let code = cause.code();
    if cause != Cause::Content {
        return format!(in alloc; "no {line} {code}");
    }
    match told_at(alloc, file, line)? {
        Some(told) => format!(in alloc; "no {line} {code} {told}"),
        None => format!(in alloc; "no {line} {code} nothing"),
    }
}

/// The verdicts on a file with each of its bytes in turn made a `~`, a line for those in a row that
/// are the same.
fn each_verdict_text(alloc: Global, file: &[u8]) -> Result<String, AllocError> {
    let mut text = String::new(alloc);
    let mut last = String::new(alloc);
    let mut count: u64 = 0;
    for place in 0..file.len() {
        let mut changed = Vec::from_slice(alloc, file)?;
        if let Some(byte) = changed.get_mut(place) {
            *byte = b'~';
        }
        let verdict = verdict_text(alloc, changed.as_slice())?;
        if count > 0 && verdict.as_str() != last.as_str() {
            text.push_str(format!(in alloc; "{count} times {last}\n")?.as_str())?;
            count = 0;
        }
        last = verdict;
        count = count.saturating_add(1);
    }
    text.push_str(format!(in alloc; "{count} times {last}")?.as_str())?;
    Ok(text)
}

/// What is told of rows that are lines of traces, of which some end a trace: a line for each of
/// these, and headings and empty lines as they stand.
pub fn verdicts(alloc: Global, rows: &[String]) -> Result<String, AllocError> {
    let mut told = String::new(alloc);
    let mut trace = String::new(alloc);
    for row in rows {
        let row = row.as_str();
        if let Some(line) = told_of(alloc, &mut trace, row)? {
            told.push_str(line.as_str())?;
            told.push('\n')?;
        }
    }
    Ok(told)
}

/// What is told of a row, behind a trace so far; none where it goes on with the trace.
fn told_of(alloc: Global, trace: &mut String, row: &str) -> Result<Option<String>, AllocError> {
    if row.is_empty() || row.starts_with('#') || row == "verdicts" {
        return Ok(Some(String::from_str(alloc, row)?));
    }
    if let Some(count) = row.strip_prefix("services ") {
        push_services(alloc, trace, count.parse().unwrap_or(0))?;
        return Ok(None);
    }
    let verdict = match row {
        "check" => verdict_text(alloc, trace.as_bytes())?,
        "check cut" => {
            trace.pop();
            verdict_text(alloc, trace.as_bytes())?
        }
        "check each" => each_verdict_text(alloc, trace.as_bytes())?,
        "empty" => {
            trace.push('\n')?;
            return Ok(None);
        }
        line => {
            trace.push_str(line)?;
            trace.push('\n')?;
            return Ok(None);
        }
    };
    trace.clear();
    Ok(Some(verdict))
}
