//! Rows of service files.

use service_files::read;
use std::alloc::{AllocError, Global};
use test_support::Row;

/// What a file says: its name, its program and the program's arguments; or the fault.
pub fn told(alloc: Global, file: &[u8]) -> Result<String, AllocError> {
    match read(alloc, file) {
        Ok(service) => {
            let mut text = format!(in alloc; "{}: {}", service.name(), service.program())?;
            for argument in service.arguments() {
                text.push_str(", ")?;
                text.push_str(argument)?;
            }
            Ok(text)
        }
        Err(fault) => format!(in alloc; "{}: {fault}", fault.code()),
    }
}

/// `ok`, or the code of the fault.
fn code_of(alloc: Global, file: &[u8]) -> Result<String, AllocError> {
    match read(alloc, file) {
        Ok(_) => String::from_str(alloc, "ok"),
        Err(fault) => format!(in alloc; "{}", fault.code()),
    }
}

/// The codes of the beginnings of a file, from the empty one on, each with how often it comes in a
/// row.
fn beginnings(alloc: Global, file: &[u8]) -> Result<String, AllocError> {
    let mut text = String::new(alloc);
    let mut before = String::new(alloc);
    let mut count = 0u64;
    for length in 0..=file.len() {
        let Some(beginning) = file.get(..length) else {
            break;
        };
        let code = code_of(alloc, beginning)?;
        if count != 0 && code.as_str() != before.as_str() {
            let run = format!(in alloc; "{count} x {before}, ")?;
            text.push_str(run.as_str())?;
            count = 0;
        }
        before = code;
        count = count.wrapping_add(1);
    }
    let run = format!(in alloc; "{count} x {before}")?;
    text.push_str(run.as_str())?;
    Ok(text)
}

/// How a line of a file is changed.
#[derive(Clone, Copy)]
enum Edit {
    LeftOut,
    Doubled,
    /// Without its last byte.
    Cut,
    /// With `x` in place of its first byte.
    First,
}

fn push_line(file: &mut Vec<u8>, line: &[u8]) -> Result<(), AllocError> {
    if !file.is_empty() {
        file.push(b'\n')?;
    }
    file.extend_from_slice(line)
}

fn push_edited(file: &mut Vec<u8>, line: &[u8], edit: Edit) -> Result<(), AllocError> {
    match (edit, line.split_first(), line.split_last()) {
        (Edit::LeftOut, _, _) => Ok(()),
        (Edit::Doubled, _, _) => {
            push_line(file, line)?;
            push_line(file, line)
        }
        (Edit::Cut, _, Some((_, rest))) => push_line(file, rest),
        (Edit::First, Some((_, rest)), _) => {
            push_line(file, b"x")?;
            file.extend_from_slice(rest)
        }
        _ => push_line(file, line),
    }
}

/// The codes of a file of which each line in turn is changed.
fn edited(alloc: Global, file: &[u8], edit: Edit) -> Result<String, AllocError> {
    let mut text = String::new(alloc);
    for (place, _) in file.split(|byte| *byte == b'\n').enumerate() {
        let mut changed = Vec::new(alloc);
        for (other, line) in file.split(|byte| *byte == b'\n').enumerate() {
            if other == place {
                push_edited(&mut changed, line, edit)?;
            } else {
                push_line(&mut changed, line)?;
            }
        }
        if place != 0 {
            text.push_str(" ")?;
        }
        text.push_str(code_of(alloc, &changed)?.as_str())?;
    }
    Ok(text)
}

/// The code of a file behind which a comment makes it so many bytes long.
fn long(alloc: Global, file: &[u8], length: u64) -> Result<String, AllocError> {
    let mut longer = Vec::from_slice(alloc, file)?;
    for at in file.len() as u64..length {
        longer.push(if at == file.len() as u64 { b'#' } else { b'a' })?;
    }
    code_of(alloc, &longer)
}

/// Rows that change the file of the last row `file`: `beginnings`, `left-out`, `doubled`, `cut` and
/// `first` of each line, `length | LENGTH`.
pub fn changed(alloc: Global, row: &Row<'_>, file: &[u8]) -> Result<String, AllocError> {
    match row.text(0) {
        "beginnings" => beginnings(alloc, file),
        "left-out" => edited(alloc, file, Edit::LeftOut),
        "doubled" => edited(alloc, file, Edit::Doubled),
        "cut" => edited(alloc, file, Edit::Cut),
        "first" => edited(alloc, file, Edit::First),
        _ => long(alloc, file, row.number(1)),
    }
}
