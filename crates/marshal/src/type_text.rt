//! Types and the types of values, as they stand in a signature.

ghost use Rattle.std.specs.Prelude.{◌≡◌, ◌++◌, OnOk};
ghost use Rattle.marshal_core.specs.Types.{ty_of, types_of};
ghost use Rattle.marshal_core.specs.Values.{val_of, values_of};
ghost use Rattle.marshal_core.specs.Signatures.{code, codes};
ghost use Rattle.marshal.specs.Writing.{type_of, types_of_values};

use marshal_core::{DataType, Value};
use std::alloc::AllocError;

/// Appends the code of a type.
pub fn type_code(of: &DataType, output: &mut Vec<u8>) -> Result<(), AllocError>
    ensures { OnOk result (output.new.items ≡ output.old.items ++ code (ty_of of.now)) }
{
    match of {
        DataType::Basic(basic) => output.push(basic.code())?,
        DataType::Variant => output.push(b'v')?,
        DataType::Array(element) => {
            output.push(b'a')?;
            type_code(element, output)?;
        }
        DataType::Dictionary(key, value) => {
            output.extend_from_slice(b"a{")?;
            output.push(key.code())?;
            type_code(value, output)?;
            output.push(b'}')?;
        }
        DataType::Struct(fields) => {
            output.push(b'(')?;
            for field in fields {
                type_code(field, output)?;
            }
            output.push(b')')?;
        }
    }
    Ok(())
}

/// Appends the codes of types, one after the other: the text of a signature.
pub fn type_codes(types: &[DataType], output: &mut Vec<u8>) -> Result<(), AllocError>
    ensures { OnOk result (output.new.items ≡ output.old.items ++ codes (types_of types.now)) }
{
    for one in types {
        type_code(one, output)?;
    }
    Ok(())
}

/// Appends the code of a value's type.
pub fn value_code(value: &Value, output: &mut Vec<u8>) -> Result<(), AllocError>
    ensures { OnOk result (output.new.items
        ≡ output.old.items ++ code (type_of (val_of value.now))) }
{
    match value {
        Value::Basic(basic) => output.push(basic.basic_type().code())?,
        Value::Variant(_) => output.push(b'v')?,
        Value::Array(of, _) => {
            output.push(b'a')?;
            type_code(of, output)?;
        }
        Value::Dictionary(key, of, _) => {
            output.extend_from_slice(b"a{")?;
            output.push(key.code())?;
            type_code(of, output)?;
            output.push(b'}')?;
        }
        Value::Struct(fields) => {
            output.push(b'(')?;
            for field in fields {
                value_code(field, output)?;
            }
            output.push(b')')?;
        }
    }
    Ok(())
}

/// Appends the codes of the values' types, one after the other: the signature of a body.
pub fn value_codes(values: &[Value], output: &mut Vec<u8>) -> Result<(), AllocError>
    ensures { OnOk result (output.new.items
        ≡ output.old.items ++ codes (types_of_values (values_of values.now))) }
{
    for value in values {
        value_code(value, output)?;
    }
    Ok(())
}
