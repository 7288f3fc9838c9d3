//! Values.

ghost use Rattle.std.specs.Prelude.{◌≡◌};
ghost use Rattle.marshal_core.specs.Values.{basic_of, basic_type as type_of};

use crate::data_type::{BasicType, DataType};
use crate::signature::Signature;

/// A value of a basic type.
#[derive(Debug, Drop, PartialEq)]
pub enum BasicValue {
    Byte(u8),
    Boolean(bool),
    Int16(i16),
    Uint16(u16),
    Int32(i32),
    Uint32(u32),
    Int64(i64),
    Uint64(u64),
    /// The eight bytes as they stand in the message, in its order.
    Double([u8; 8]),
    String(String),
    ObjectPath(String),
    Signature(Signature),
}

impl BasicValue {
    /// The type of the value.
    pub fn basic_type(&self) -> BasicType
        ensures { result ≡ type_of (basic_of self.now) }
    {
        match self {
            BasicValue::Byte(_) => BasicType::Byte,
            BasicValue::Boolean(_) => BasicType::Boolean,
            BasicValue::Int16(_) => BasicType::Int16,
            BasicValue::Uint16(_) => BasicType::Uint16,
            BasicValue::Int32(_) => BasicType::Int32,
            BasicValue::Uint32(_) => BasicType::Uint32,
            BasicValue::Int64(_) => BasicType::Int64,
            BasicValue::Uint64(_) => BasicType::Uint64,
            BasicValue::Double(_) => BasicType::Double,
            BasicValue::String(_) => BasicType::String,
            BasicValue::ObjectPath(_) => BasicType::ObjectPath,
            BasicValue::Signature(_) => BasicType::Signature,
        }
    }
}

/// A value of a single complete type. An array keeps the type of its elements, a dictionary those
/// of its keys and values, so that an empty one has a type too.
#[derive(Debug, Drop, PartialEq)]
pub enum Value {
    Basic(BasicValue),
    Variant(Box<Value>),
    Array(DataType, Vec<Value>),
    Dictionary(BasicType, DataType, Vec<(BasicValue, Value)>),
    Struct(Vec<Value>),
}
