//! Rows of bodies.

use marshal::{Order, Signature, Value, decode, encode};
use marshal_check::{Arguments, CheckedArguments, Types, check};
use std::alloc::{AllocError, Global};
use test_support::Row;

/// What stands in the output before anything is written.
const BEFORE: u8 = 255;

/// `body | ORDER | OFFSET | SIGNATURE | BYTES`: what the bytes are read as, or the fault's number,
/// and how many of them; whether these are written again; and what a check of the bytes says.
/// `values | ..`: the same, with the values in full.
pub fn body(alloc: Global, row: &Row<'_>) -> Result<String, AllocError> {
    let bytes = row.bytes(alloc, 4)?;
    let read = read(alloc, row, &bytes)?;
    match checked(row, &bytes) {
        Ok(length) => format!(in alloc; "{read}; {length}"),
        Err(code) => format!(in alloc; "{read}; fault {code}"),
    }
}

fn order_of(row: &Row<'_>) -> Order {
    if row.text(1) == "B" {
        Order::Big
    } else {
        Order::Little
    }
}

fn checked(row: &Row<'_>, bytes: &[u8]) -> Result<usize, u8> {
    let checked = match Types::parse(row.text(3)) {
        Ok(types) => check(order_of(row), row.number(2) as usize, types, bytes),
        Err(fault) => Err(fault),
    };
    checked.map_err(|fault| fault.code())
}

fn read(alloc: Global, row: &Row<'_>, bytes: &[u8]) -> Result<String, AllocError> {
    let signature = match Signature::parse(alloc, row.text(3)) {
        Ok(signature) => signature,
        Err(fault) => return format!(in alloc; "signature {}", fault.code()),
    };
    let (values, length) = match decode(
        alloc,
        order_of(row),
        row.number(2) as usize,
        &signature,
        bytes,
    ) {
        Ok(read) => read,
        Err(fault) => return format!(in alloc; "fault {}", fault.code()),
    };
    let shown = if row.text(0) == "values" {
        format!(in alloc; "{values:?}")?
    } else {
        listed(alloc, &values)?
    };
    let written = written(alloc, row, &values)?;
    let again = if bytes.get(..length) == Some(written.as_slice()) {
        "again"
    } else {
        "other bytes"
    };
    format!(in alloc; "{shown} {length} {again}")
}

/// The values, one after the other.
fn listed(alloc: Global, values: &[Value]) -> Result<String, AllocError> {
    let mut text = String::new(alloc);
    for (place, value) in values.iter().enumerate() {
        if place > 0 {
            text.push_str(", ")?;
        }
        write!(text, "{value}")?;
    }
    Ok(text)
}

/// The bytes that are appended to what stands there, or nothing.
fn written(alloc: Global, row: &Row<'_>, values: &[Value]) -> Result<Vec<u8>, AllocError> {
    let mut output = Vec::new(alloc);
    output.push(BEFORE)?;
    let offset = row.number(2) as usize;
    let encoded = encode(alloc, order_of(row), offset, values, &mut output);
    match output.split_first() {
        Some((first, behind)) if encoded.is_ok() && *first == BEFORE => {
            Vec::from_slice(alloc, behind)
        }
        _ => Ok(Vec::new(alloc)),
    }
}

/// `arguments | ORDER | OFFSET | SIGNATURE | BYTES`: the arguments in a body; and those in it when
/// it was checked.
pub fn arguments(alloc: Global, row: &Row<'_>) -> Result<String, AllocError> {
    let bytes = row.bytes(alloc, 4)?;
    let mut text = String::new(alloc);
    let written = match Types::parse(row.text(3)) {
        Ok(types) => write_arguments(row, types, &bytes, &mut text),
        Err(_) => text.push_str("no signature"),
    };
    drop(bytes);
    written?;
    Ok(text)
}

fn write_arguments(
    row: &Row<'_>,
    types: Types<'_>,
    bytes: &[u8],
    text: &mut String,
) -> Result<(), AllocError> {
    let order = order_of(row);
    let offset = row.number(2) as usize;
    for argument in Arguments::new(order, offset, types, bytes) {
        write!(text, "{argument:?} ")?;
    }
    text.push_str("=")?;
    let Ok(length) = check(order, offset, types, bytes) else {
        return Ok(());
    };
    if length < bytes.len() {
        return Ok(());
    }
    for argument in CheckedArguments::new(order, offset, types, bytes) {
        write!(text, " {argument:?}")?;
    }
    Ok(())
}
