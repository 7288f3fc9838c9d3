//! Rows of values that are made here: no bytes are read as some of them.

use marshal::{BasicType, BasicValue, DataType, MarshalFault, Order, Signature, Value, encode};
use names::ObjectPath;
use std::alloc::{AllocError, Global};
use std::str;
use test_support::{Escaped, Row};

/// `string | TEXT`: a text as a value and as a basic value. `object | TEXT`: an object path as a
/// value. `print`: a value of every type, shown. `write | WHAT | COUNT`: the bytes that a value is
/// written as, behind a byte that stands there; or its fault.
pub fn value(alloc: Global, row: &Row<'_>) -> Result<String, AllocError> {
    let made = match row.text(0) {
        "string" => string(alloc, row),
        "object" => object(alloc, row.text(1)),
        "print" => every_type(alloc),
        _ => written(alloc, row),
    };
    match made {
        Ok(text) => Ok(text),
        Err(MarshalFault::NoMemory) => Err(AllocError),
        Err(fault) => format!(in alloc; "{}: {fault}", fault.code()),
    }
}

fn string(alloc: Global, row: &Row<'_>) -> Result<String, MarshalFault> {
    let bytes = row.bytes(alloc, 1)?;
    let told = both_values(alloc, str::from_utf8(&bytes).unwrap_or("no text"));
    drop(bytes);
    told
}

fn both_values(alloc: Global, text: &str) -> Result<String, MarshalFault> {
    let value = shown(alloc, Value::from_str(alloc, text)?)?;
    let basic = BasicValue::from_str(alloc, text)?;
    let told = format!(in alloc; "{value} {basic:?}");
    drop(basic);
    Ok(told?)
}

/// A value as it is debugged.
fn shown(alloc: Global, value: Value) -> Result<String, AllocError> {
    let told = format!(in alloc; "{value:?}");
    drop(value);
    told
}

fn object(alloc: Global, text: &str) -> Result<String, MarshalFault> {
    match ObjectPath::parse(text) {
        Ok(path) => Ok(shown(alloc, Value::from_path(alloc, &path)?)?),
        Err(_) => Err(MarshalFault::Path),
    }
}

fn every_type(alloc: Global) -> Result<String, MarshalFault> {
    let mut fields = Vec::new(alloc);
    let pushed = push_every_type(alloc, &mut fields);
    let value = Value::Struct(fields);
    let told = format!(in alloc; "{value}");
    drop(value);
    pushed?;
    Ok(told?)
}

fn push_every_type(alloc: Global, fields: &mut Vec<Value>) -> Result<(), MarshalFault> {
    fields.push(Value::from(7u8))?;
    fields.push(Value::from(true))?;
    fields.push(Value::from(i16::MIN))?;
    fields.push(Value::from(u16::MAX))?;
    fields.push(Value::from(i32::MIN))?;
    fields.push(Value::from(u32::MAX))?;
    fields.push(Value::from(i64::MIN))?;
    fields.push(Value::from(u64::MAX))?;
    fields.push(Value::from(String::from_str(alloc, "a \"b\"")?))?;
    fields.push(Value::from(Signature::parse(alloc, "a{sv}")?))?;
    push_containers(alloc, fields)?;
    fields.push(Value::Basic(BasicValue::Double([0, 1, 2, 3, 4, 5, 6, 255])))?;
    Ok(())
}

fn push_containers(alloc: Global, fields: &mut Vec<Value>) -> Result<(), MarshalFault> {
    let items = vec![in alloc; Value::from(1u8), Value::from(2u8)]?;
    fields.push(Value::Array(DataType::from_bytes(alloc, b"y")?, items))?;
    let held = Value::Variant(Box::new(alloc, Value::from(false))?);
    let entries = vec![in alloc; (BasicValue::from(3u16), held)]?;
    fields.push(Value::Dictionary(BasicType::Uint16, DataType::Variant, entries))?;
    Ok(())
}

fn written(alloc: Global, row: &Row<'_>) -> Result<String, MarshalFault> {
    let values = values_of(alloc, row)?;
    let told = encoded(alloc, &values);
    drop(values);
    Ok(told?)
}

fn values_of(alloc: Global, row: &Row<'_>) -> Result<Vec<Value>, AllocError> {
    match row.text(1) {
        "nul" => one(alloc, BasicValue::String(String::from_str(alloc, "a\0b")?)),
        "relative" => one(
            alloc,
            BasicValue::ObjectPath(String::from_str(alloc, "a/b")?),
        ),
        "mixed" => mixed(alloc),
        "variants" => within_variants(alloc, row.number(2)),
        _ => empty_struct(alloc),
    }
}

/// The bytes behind one that stands there, or the fault and what stands there then.
fn encoded(alloc: Global, values: &[Value]) -> Result<String, AllocError> {
    let mut output = vec![in alloc; 255]?;
    match encode(alloc, Order::Little, 0, values, &mut output) {
        Err(fault) => format!(in alloc; "{}: {fault}, {}", fault.code(), Escaped(&output)),
        Ok(()) => format!(in alloc; "{} bytes", output.len()),
    }
}

fn one(alloc: Global, value: BasicValue) -> Result<Vec<Value>, AllocError> {
    Ok(vec![in alloc; Value::Basic(value)]?)
}

fn empty_struct(alloc: Global) -> Result<Vec<Value>, AllocError> {
    Ok(vec![in alloc; Value::Struct(Vec::new(alloc))]?)
}

/// An array of bytes with another element.
fn mixed(alloc: Global) -> Result<Vec<Value>, AllocError> {
    let items = vec![in alloc; Value::from(1u8), Value::from(1u16)]?;
    Ok(vec![in alloc; Value::Array(DataType::Basic(BasicType::Byte), items)]?)
}

/// A byte within so many variants.
fn within_variants(alloc: Global, count: u64) -> Result<Vec<Value>, AllocError> {
    let mut one = Value::from(7u8);
    for _ in 0..count {
        one = Value::Variant(Box::new(alloc, one)?);
    }
    Ok(vec![in alloc; one]?)
}
