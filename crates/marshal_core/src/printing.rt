//! Values as text.

use crate::value::{BasicValue, Value};
use std::fmt;

/// The value as people write it: a text in quotes, an object path and a signature as they are, a
/// double by its eight bytes.
impl fmt::Display for BasicValue {
    fn fmt<W: fmt::Write>(&self, f: &mut fmt::Formatter<W>) -> fmt::Result {
        match self {
            BasicValue::Byte(number) => write!(f, "{number}"),
            BasicValue::Boolean(truth) => write!(f, "{truth}"),
            BasicValue::Int16(number) => write!(f, "{number}"),
            BasicValue::Uint16(number) => write!(f, "{number}"),
            BasicValue::Int32(number) => write!(f, "{number}"),
            BasicValue::Uint32(number) => write!(f, "{number}"),
            BasicValue::Int64(number) => write!(f, "{number}"),
            BasicValue::Uint64(number) => write!(f, "{number}"),
            BasicValue::Double(eight) => {
                write!(f, "0x")?;
                for byte in eight {
                    write!(f, "{byte:02x}")?;
                }
                Ok(())
            }
            BasicValue::String(text) => write!(f, "{text:?}"),
            BasicValue::ObjectPath(path) => write!(f, "{path}"),
            BasicValue::Signature(signature) => write!(f, "{signature}"),
        }
    }
}

/// The value as people write it: `<7>` a variant, `[1, 2]` an array, `{"a": 1}` a dictionary and
/// `(7, "a")` a struct.
impl fmt::Display for Value {
    fn fmt<W: fmt::Write>(&self, f: &mut fmt::Formatter<W>) -> fmt::Result {
        match self {
            Value::Basic(basic) => write!(f, "{basic}"),
            Value::Variant(held) => write!(f, "<{held}>"),
            Value::Array(_, items) => {
                write!(f, "[")?;
                for (place, item) in items.iter().enumerate() {
                    if place > 0 {
                        write!(f, ", ")?;
                    }
                    write!(f, "{item}")?;
                }
                write!(f, "]")
            }
            Value::Dictionary(_, _, entries) => {
                write!(f, "{{")?;
                for (place, (key, value)) in entries.iter().enumerate() {
                    if place > 0 {
                        write!(f, ", ")?;
                    }
                    write!(f, "{key}: {value}")?;
                }
                write!(f, "}}")
            }
            Value::Struct(fields) => {
                write!(f, "(")?;
                for (place, field) in fields.iter().enumerate() {
                    if place > 0 {
                        write!(f, ", ")?;
                    }
                    write!(f, "{field}")?;
                }
                write!(f, ")")
            }
        }
    }
}
