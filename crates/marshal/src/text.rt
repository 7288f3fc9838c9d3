//! Reading texts and signatures.

ghost use Rattle.std.specs.Prelude.{◌≡◌, ◌+◌, ◌<◌, ◌≤◌, ◌^◌, length, IfOk, string_bytes};
ghost use Rattle.std.specs.Int.{w32};
ghost use Rattle.marshal_core.specs.Types.{ty_of, types_of};
ghost use Rattle.marshal_core.specs.Spelling.{has_zero};
ghost use Rattle.marshal_core.specs.Faults.{Gives, Tells};
ghost use Rattle.marshal_core.specs.Reading.{content_at, path_at, short_text_at, signature_at, string_at, variant_type_at};

use crate::endian::Endian;
use crate::fixed::{byte, number32};
use marshal_core::{DataType, MarshalFault, Signature};
use names::ObjectPath;
use std::alloc::Global;

/// Whether a byte is zero. The loop has one end, so that it is done many bytes at a time.
pub fn any_zero(bytes: &[u8]) -> bool
    ensures { result ≡ has_zero bytes.now }
{
    let mut zero = false;
    for b in bytes {
        if *b == 0 {
            zero = true;
        }
    }
    zero
}

/// A text of known length, and the zero byte that ends it.
#[tactic(auto, unfolding(marshal_core::specs::Reading::content_at))]
fn content(
    short: MarshalFault,
    len: usize,
    at: usize,
    bytes: &[u8],
) -> Result<(&[u8], usize, &[u8]), MarshalFault>
    requires room { at + length bytes.now < 2 ^ 64 }
    ensures reads { Tells (λ x. (x.0.now, x.1, x.2.now)) result
        (content_at short len at bytes.now) }
    ensures place { IfOk result (λ x. x.1 + length x.2.now ≡ at + length bytes.now) }
    ensures shorter { IfOk result (λ x. length x.2.now < length bytes.now) }
    ensures size { IfOk result (λ x. length x.0.now ≡ len) }
{
    if bytes.len() <= len {
        return Err(short);
    }
    let (front, back) = bytes.split_at(len);
    if any_zero(front) {
        return Err(MarshalFault::NulInText);
    }
    if bytes[len] != 0 {
        return Err(MarshalFault::NulInText);
    }
    let (_, rest) = back.split_at(1);
    Ok((front, at + len + 1, rest))
}

/// A text as it lies there.
#[tactic(auto, unfolding(marshal_core::specs::Reading::string_at))]
pub fn string<O: Endian>(
    short: MarshalFault,
    at: usize,
    bytes: &[u8],
) -> Result<(&str, usize, &[u8]), MarshalFault>
    requires room { at + length bytes.now < 2 ^ 64 }
    ensures reads { Tells (λ x. (x.0.now, x.1, x.2.now)) result
        (string_at O.order short at bytes.now) }
    ensures place { IfOk result (λ x. x.1 + length x.2.now ≡ at + length bytes.now) }
    ensures shorter { IfOk result (λ x. length x.2.now < length bytes.now) }
{
    let (len, at, rest) = number32::<O>(short, at, bytes)?;
    let (content, at, rest) = content(short, len as usize, at, rest)?;
    match std::str::from_utf8(content) {
        Ok(text) => Ok((text, at, rest)),
        Err(_) => Err(MarshalFault::Utf8),
    }
}

/// An object path as it lies there.
#[tactic(auto, unfolding(marshal_core::specs::Reading::path_at))]
pub fn path<O: Endian>(
    short: MarshalFault,
    at: usize,
    bytes: &[u8],
) -> Result<(&str, usize, &[u8]), MarshalFault>
    requires room { at + length bytes.now < 2 ^ 64 }
    ensures reads { Tells (λ x. (x.0.now, x.1, x.2.now)) result
        (path_at O.order short at bytes.now) }
    ensures place { IfOk result (λ x. x.1 + length x.2.now ≡ at + length bytes.now) }
    ensures shorter { IfOk result (λ x. length x.2.now < length bytes.now) }
{
    let (text, at, rest) = string::<O>(short, at, bytes)?;
    match ObjectPath::parse(text) {
        Ok(_) => Ok((text, at, rest)),
        Err(_) => Err(MarshalFault::Path),
    }
}

/// The text of a signature as it lies there, which may be none.
#[tactic(auto, unfolding(marshal_core::specs::Reading::short_text_at))]
pub fn short_text(
    short: MarshalFault,
    at: usize,
    bytes: &[u8],
) -> Result<(&[u8], usize, &[u8]), MarshalFault>
    requires room { at + length bytes.now < 2 ^ 64 }
    ensures reads { Tells (λ x. (x.0.now, x.1, x.2.now)) result (short_text_at short at bytes.now) }
    ensures place { IfOk result (λ x. x.1 + length x.2.now ≡ at + length bytes.now) }
    ensures shorter { IfOk result (λ x. length x.2.now < length bytes.now) }
{
    let (len, at, rest) = byte(short, at, bytes)?;
    content(short, len as usize, at, rest)
}

#[tactic(auto, unfolding(marshal_core::specs::Reading::signature_at))]
pub fn signature(
    alloc: Global,
    short: MarshalFault,
    at: usize,
    bytes: &[u8],
) -> Result<(Signature, usize, &[u8]), MarshalFault>
    requires room { at + length bytes.now < 2 ^ 64 }
    ensures reads { Gives (λ x. (types_of x.0.types.items, x.1, x.2.now)) result
        (signature_at short at bytes.now) }
    ensures place { IfOk result (λ x. x.1 + length x.2.now ≡ at + length bytes.now) }
    ensures shorter { IfOk result (λ x. length x.2.now < length bytes.now) }
{
    let (text, at, rest) = short_text(short, at, bytes)?;
    let signature = Signature::from_bytes(alloc, text)?;
    Ok((signature, at, rest))
}

/// The signature of a variant.
#[tactic(auto, unfolding(marshal_core::specs::Reading::variant_type_at))]
pub fn variant_type(
    alloc: Global,
    short: MarshalFault,
    at: usize,
    bytes: &[u8],
) -> Result<(DataType, usize, &[u8]), MarshalFault>
    requires room { at + length bytes.now < 2 ^ 64 }
    ensures reads { Gives (λ x. (ty_of x.0, x.1, x.2.now)) result
        (variant_type_at short at bytes.now) }
    ensures place { IfOk result (λ x. x.1 + length x.2.now ≡ at + length bytes.now) }
    ensures shorter { IfOk result (λ x. length x.2.now < length bytes.now) }
{
    let (text, at, rest) = short_text(short, at, bytes)?;
    let one = DataType::from_bytes(alloc, text)?;
    Ok((one, at, rest))
}
