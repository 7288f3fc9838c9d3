//! Checking values of basic types.

ghost use Rattle.std.specs.Prelude.{◌≡◌, ◌+◌, ◌<◌, ◌≤◌, ◌^◌, length, IfOk};
ghost use Rattle.marshal_core.specs.Reading.{basic_at, boolean_at, byte_at, fixed_at, path_at, signature_at, string_at, variant_type_at};
ghost use Rattle.marshal_check.specs.Checking.{HoldsType, Skips};

use crate::recognizing::{is_one_type, is_signature};
use marshal::parts::{self, Endian};
use marshal_core::{BasicType, MarshalFault};

fn byte(short: MarshalFault, at: usize, bytes: &[u8]) -> Result<(usize, &[u8]), MarshalFault>
    requires room { at + length bytes.now < 2 ^ 64 }
    ensures reads { Skips (λ x. (x.0, x.1.now)) result (byte_at short at bytes.now) }
    ensures place { IfOk result (λ x. x.0 + length x.1.now ≡ at + length bytes.now) }
    ensures shorter { IfOk result (λ x. length x.1.now < length bytes.now) }
{
    let (_, at, rest) = parts::byte(short, at, bytes)?;
    Ok((at, rest))
}

fn boolean<O: Endian>(
    short: MarshalFault,
    at: usize,
    bytes: &[u8],
) -> Result<(usize, &[u8]), MarshalFault>
    requires room { at + length bytes.now < 2 ^ 64 }
    ensures reads { Skips (λ x. (x.0, x.1.now)) result (boolean_at O.order short at bytes.now) }
    ensures place { IfOk result (λ x. x.0 + length x.1.now ≡ at + length bytes.now) }
    ensures shorter { IfOk result (λ x. length x.1.now < length bytes.now) }
{
    let (_, at, rest) = parts::boolean::<O>(short, at, bytes)?;
    Ok((at, rest))
}

/// So many bytes, aligned to their number.
fn fixed(
    size: usize,
    short: MarshalFault,
    at: usize,
    bytes: &[u8],
) -> Result<(usize, &[u8]), MarshalFault>
    requires some { 0 < size }
    requires room { at + length bytes.now < 2 ^ 64 }
    ensures reads { Skips (λ x. (x.0, x.1.now)) result (fixed_at size short at bytes.now) }
    ensures place { IfOk result (λ x. x.0 + length x.1.now ≡ at + length bytes.now) }
    ensures shorter { IfOk result (λ x. length x.1.now < length bytes.now) }
{
    let (_, at, rest) = parts::fixed(size, short, at, bytes)?;
    Ok((at, rest))
}

fn string<O: Endian>(
    short: MarshalFault,
    at: usize,
    bytes: &[u8],
) -> Result<(usize, &[u8]), MarshalFault>
    requires room { at + length bytes.now < 2 ^ 64 }
    ensures reads { Skips (λ x. (x.0, x.1.now)) result (string_at O.order short at bytes.now) }
    ensures place { IfOk result (λ x. x.0 + length x.1.now ≡ at + length bytes.now) }
    ensures shorter { IfOk result (λ x. length x.1.now < length bytes.now) }
{
    let (_, at, rest) = parts::string::<O>(short, at, bytes)?;
    Ok((at, rest))
}

fn path<O: Endian>(
    short: MarshalFault,
    at: usize,
    bytes: &[u8],
) -> Result<(usize, &[u8]), MarshalFault>
    requires room { at + length bytes.now < 2 ^ 64 }
    ensures reads { Skips (λ x. (x.0, x.1.now)) result (path_at O.order short at bytes.now) }
    ensures place { IfOk result (λ x. x.0 + length x.1.now ≡ at + length bytes.now) }
    ensures shorter { IfOk result (λ x. length x.1.now < length bytes.now) }
{
    let (_, at, rest) = parts::path::<O>(short, at, bytes)?;
    Ok((at, rest))
}

#[tactic(auto, unfolding(marshal_core::specs::Reading::signature_at))]
fn signature(short: MarshalFault, at: usize, bytes: &[u8]) -> Result<(usize, &[u8]), MarshalFault>
    requires room { at + length bytes.now < 2 ^ 64 }
    ensures reads { Skips (λ x. (x.0, x.1.now)) result (signature_at short at bytes.now) }
    ensures place { IfOk result (λ x. x.0 + length x.1.now ≡ at + length bytes.now) }
    ensures shorter { IfOk result (λ x. length x.1.now < length bytes.now) }
{
    let (text, at, rest) = parts::short_text(short, at, bytes)?;
    is_signature(text)?;
    Ok((at, rest))
}

/// A value of a basic type: the place after it, and the bytes there.
#[tactic(auto, unfolding(marshal_core::specs::Reading::basic_at, marshal_core::specs::Reading::number_at), using(crate::proofs::Skipping::as_skips))]
pub fn basic<O: Endian>(
    short: MarshalFault,
    of: BasicType,
    at: usize,
    bytes: &[u8],
) -> Result<(usize, &[u8]), MarshalFault>
    requires room { at + length bytes.now < 2 ^ 64 }
    ensures reads { Skips (λ x. (x.0, x.1.now)) result (basic_at O.order short of at bytes.now) }
    ensures place { IfOk result (λ x. x.0 + length x.1.now ≡ at + length bytes.now) }
    ensures shorter { IfOk result (λ x. length x.1.now < length bytes.now) }
{
    match of {
        BasicType::Byte => byte(short, at, bytes),
        BasicType::Boolean => boolean::<O>(short, at, bytes),
        BasicType::Int16 => fixed(2, short, at, bytes),
        BasicType::Uint16 => fixed(2, short, at, bytes),
        BasicType::Int32 => fixed(4, short, at, bytes),
        BasicType::Uint32 => fixed(4, short, at, bytes),
        BasicType::Int64 => fixed(8, short, at, bytes),
        BasicType::Uint64 => fixed(8, short, at, bytes),
        BasicType::Double => fixed(8, short, at, bytes),
        BasicType::String => string::<O>(short, at, bytes),
        BasicType::ObjectPath => path::<O>(short, at, bytes),
        BasicType::Signature => signature(short, at, bytes),
    }
}

/// The text of the one type of a variant.
#[tactic(auto, unfolding(marshal_core::specs::Reading::variant_type_at), using(crate::proofs::Recognized::one_type_text))]
pub fn variant_text(
    short: MarshalFault,
    at: usize,
    bytes: &[u8],
) -> Result<(&[u8], usize, &[u8]), MarshalFault>
    requires room { at + length bytes.now < 2 ^ 64 }
    ensures reads { HoldsType (λ x. (x.0.now, x.1, x.2.now)) result
        (variant_type_at short at bytes.now) }
    ensures place { IfOk result (λ x. x.1 + length x.2.now ≡ at + length bytes.now) }
    ensures shorter { IfOk result (λ x. length x.2.now < length bytes.now) }
{
    let (text, at, rest) = parts::short_text(short, at, bytes)?;
    is_one_type(text)?;
    Ok((text, at, rest))
}
