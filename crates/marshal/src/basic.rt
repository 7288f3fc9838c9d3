//! Reading values of basic types.

ghost use Rattle.std.specs.Prelude.{◌≡◌, ◌+◌, ◌<◌, ◌≤◌, ◌^◌, length, IfOk};
ghost use Rattle.marshal_core.specs.Values.{basic_of};
ghost use Rattle.marshal_core.specs.Faults.{Gives};
ghost use Rattle.marshal_core.specs.Reading.{basic_at};

use crate::endian::Endian;
use crate::fixed::{boolean, byte, eight_bytes, number16, number32, number64};
use crate::text::{path, signature, string};
use marshal_core::{BasicType, BasicValue, MarshalFault};
use std::alloc::Global;

/// A string, with memory of its own.
#[tactic(auto, unfolding(marshal_core::specs::Reading::basic_at))]
fn string_value<O: Endian>(
    alloc: Global,
    short: MarshalFault,
    at: usize,
    bytes: &[u8],
) -> Result<(BasicValue, usize, &[u8]), MarshalFault>
    requires room { at + length bytes.now < 2 ^ 64 }
    ensures reads { Gives (λ x. (basic_of x.0, x.1, x.2.now)) result
        (basic_at O.order short BasicType.String at bytes.now) }
    ensures place { IfOk result (λ x. x.1 + length x.2.now ≡ at + length bytes.now) }
    ensures shorter { IfOk result (λ x. length x.2.now < length bytes.now) }
{
    let (text, at, rest) = string::<O>(short, at, bytes)?;
    Ok((BasicValue::String(String::from_str(alloc, text)?), at, rest))
}

/// An object path, with memory of its own.
#[tactic(auto, unfolding(marshal_core::specs::Reading::basic_at))]
fn path_value<O: Endian>(
    alloc: Global,
    short: MarshalFault,
    at: usize,
    bytes: &[u8],
) -> Result<(BasicValue, usize, &[u8]), MarshalFault>
    requires room { at + length bytes.now < 2 ^ 64 }
    ensures reads { Gives (λ x. (basic_of x.0, x.1, x.2.now)) result
        (basic_at O.order short BasicType.ObjectPath at bytes.now) }
    ensures place { IfOk result (λ x. x.1 + length x.2.now ≡ at + length bytes.now) }
    ensures shorter { IfOk result (λ x. length x.2.now < length bytes.now) }
{
    let (text, at, rest) = path::<O>(short, at, bytes)?;
    Ok((
        BasicValue::ObjectPath(String::from_str(alloc, text)?),
        at,
        rest,
    ))
}

/// A value of a basic type.
#[tactic(auto, unfolding(marshal_core::specs::Reading::basic_at))]
pub fn basic<O: Endian>(
    alloc: Global,
    short: MarshalFault,
    of: BasicType,
    at: usize,
    bytes: &[u8],
) -> Result<(BasicValue, usize, &[u8]), MarshalFault>
    requires room { at + length bytes.now < 2 ^ 64 }
    ensures reads { Gives (λ x. (basic_of x.0, x.1, x.2.now)) result
        (basic_at O.order short of at bytes.now) }
    ensures place { IfOk result (λ x. x.1 + length x.2.now ≡ at + length bytes.now) }
    ensures shorter { IfOk result (λ x. length x.2.now < length bytes.now) }
{
    match of {
        BasicType::Byte => {
            let (number, at, rest) = byte(short, at, bytes)?;
            Ok((BasicValue::Byte(number), at, rest))
        }
        BasicType::Boolean => {
            let (value, at, rest) = boolean::<O>(short, at, bytes)?;
            Ok((BasicValue::Boolean(value), at, rest))
        }
        BasicType::Int16 => {
            let (number, at, rest) = number16::<O>(short, at, bytes)?;
            Ok((BasicValue::Int16(number.cast_signed()), at, rest))
        }
        BasicType::Uint16 => {
            let (number, at, rest) = number16::<O>(short, at, bytes)?;
            Ok((BasicValue::Uint16(number), at, rest))
        }
        BasicType::Int32 => {
            let (number, at, rest) = number32::<O>(short, at, bytes)?;
            Ok((BasicValue::Int32(number.cast_signed()), at, rest))
        }
        BasicType::Uint32 => {
            let (number, at, rest) = number32::<O>(short, at, bytes)?;
            Ok((BasicValue::Uint32(number), at, rest))
        }
        BasicType::Int64 => {
            let (number, at, rest) = number64::<O>(short, at, bytes)?;
            Ok((BasicValue::Int64(number.cast_signed()), at, rest))
        }
        BasicType::Uint64 => {
            let (number, at, rest) = number64::<O>(short, at, bytes)?;
            Ok((BasicValue::Uint64(number), at, rest))
        }
        BasicType::Double => {
            let (eight, at, rest) = eight_bytes(short, at, bytes)?;
            Ok((BasicValue::Double(eight), at, rest))
        }
        BasicType::String => string_value::<O>(alloc, short, at, bytes),
        BasicType::ObjectPath => path_value::<O>(alloc, short, at, bytes),
        BasicType::Signature => {
            let (signature, at, rest) = signature(alloc, short, at, bytes)?;
            Ok((BasicValue::Signature(signature), at, rest))
        }
    }
}
