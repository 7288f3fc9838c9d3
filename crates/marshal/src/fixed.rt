//! Reading padding and numbers.
//!
//! Each reader is given the place in the message where the bytes begin, and the fault that is told
//! where they end too early; it gives what it read, the place after it and the bytes there.

ghost use Rattle.std.specs.Prelude.{◌≡◌, ◌+◌, ◌<◌, ◌≤◌, ◌^◌, length, IfOk};
ghost use Rattle.std.specs.Int.{w16, w32, w64};
ghost use Rattle.marshal_core.specs.Spelling.{pad_len};
ghost use Rattle.marshal_core.specs.Faults.{Tells};
ghost use Rattle.marshal_core.specs.Reading.{boolean_at, byte_at, fixed_at, number_at, padding_at, zeros_at};

use crate::endian::Endian;
use marshal_core::MarshalFault;

#[tactic(auto, unfolding(marshal_core::specs::Reading::zeros_at))]
fn zeros(count: usize, short: MarshalFault, bytes: &[u8]) -> Result<&[u8], MarshalFault>
    ensures reads { Tells (λ x. x.now) result (zeros_at count short bytes.now) }
    ensures place { IfOk result (λ x. count + length x.now ≡ length bytes.now) }
{
    let mut rest = bytes;
    for _ in 0..count {
        let Some((first, after)) = rest.split_first() else {
            return Err(short);
        };
        if *first != 0 {
            return Err(MarshalFault::Padding);
        }
        rest = after;
    }
    Ok(rest)
}

/// How many bytes there are to the next multiple.
pub fn gap(align: usize, at: usize) -> usize
    requires { 0 < align }
    ensures { result ≡ pad_len align at }
{
    (align - at % align) % align
}

#[tactic(auto, unfolding(marshal_core::specs::Reading::padding_at))]
pub fn padding(
    align: usize,
    short: MarshalFault,
    at: usize,
    bytes: &[u8],
) -> Result<(usize, &[u8]), MarshalFault>
    requires align { 0 < align }
    requires room { at + length bytes.now < 2 ^ 64 }
    ensures reads { Tells (λ x. (x.0, x.1.now)) result (padding_at align short at bytes.now) }
    ensures place { IfOk result (λ x. x.0 + length x.1.now ≡ at + length bytes.now) }
    ensures next { IfOk result (λ x. x.0 ≡ at + pad_len align at) }
    ensures within { IfOk result (λ x. length x.1.now ≤ length bytes.now) }
{
    let count = gap(align, at);
    let rest = zeros(count, short, bytes)?;
    Ok((at + count, rest))
}

/// So many bytes, aligned to their number.
#[tactic(auto, unfolding(marshal_core::specs::Reading::fixed_at))]
pub fn fixed(
    size: usize,
    short: MarshalFault,
    at: usize,
    bytes: &[u8],
) -> Result<(&[u8], usize, &[u8]), MarshalFault>
    requires some { 0 < size }
    requires room { at + length bytes.now < 2 ^ 64 }
    ensures reads { Tells (λ x. (x.0.now, x.1, x.2.now)) result (fixed_at size short at bytes.now) }
    ensures place { IfOk result (λ x. x.1 + length x.2.now ≡ at + length bytes.now) }
    ensures shorter { IfOk result (λ x. length x.2.now < length bytes.now) }
    ensures size { IfOk result (λ x. length x.0.now ≡ size) }
{
    let (at, rest) = padding(size, short, at, bytes)?;
    if rest.len() < size {
        return Err(short);
    }
    let (front, rest) = rest.split_at(size);
    Ok((front, at + size, rest))
}

#[tactic(auto, unfolding(marshal_core::specs::Reading::number_at))]
pub fn number16<O: Endian>(
    short: MarshalFault,
    at: usize,
    bytes: &[u8],
) -> Result<(u16, usize, &[u8]), MarshalFault>
    requires room { at + length bytes.now < 2 ^ 64 }
    ensures reads { Tells (λ x. (x.0, x.1, x.2.now)) result
        (number_at O.order w16 short at bytes.now) }
    ensures place { IfOk result (λ x. x.1 + length x.2.now ≡ at + length bytes.now) }
    ensures shorter { IfOk result (λ x. length x.2.now < length bytes.now) }
{
    let (front, at, rest) = fixed(2, short, at, bytes)?;
    Ok((O::read_u16(front), at, rest))
}

#[tactic(auto, unfolding(marshal_core::specs::Reading::number_at))]
pub fn number32<O: Endian>(
    short: MarshalFault,
    at: usize,
    bytes: &[u8],
) -> Result<(u32, usize, &[u8]), MarshalFault>
    requires room { at + length bytes.now < 2 ^ 64 }
    ensures reads { Tells (λ x. (x.0, x.1, x.2.now)) result
        (number_at O.order w32 short at bytes.now) }
    ensures place { IfOk result (λ x. x.1 + length x.2.now ≡ at + length bytes.now) }
    ensures shorter { IfOk result (λ x. length x.2.now < length bytes.now) }
{
    let (front, at, rest) = fixed(4, short, at, bytes)?;
    Ok((O::read_u32(front), at, rest))
}

#[tactic(auto, unfolding(marshal_core::specs::Reading::number_at))]
pub fn number64<O: Endian>(
    short: MarshalFault,
    at: usize,
    bytes: &[u8],
) -> Result<(u64, usize, &[u8]), MarshalFault>
    requires room { at + length bytes.now < 2 ^ 64 }
    ensures reads { Tells (λ x. (x.0, x.1, x.2.now)) result
        (number_at O.order w64 short at bytes.now) }
    ensures place { IfOk result (λ x. x.1 + length x.2.now ≡ at + length bytes.now) }
    ensures shorter { IfOk result (λ x. length x.2.now < length bytes.now) }
{
    let (front, at, rest) = fixed(8, short, at, bytes)?;
    Ok((O::read_u64(front), at, rest))
}

/// Eight bytes as they stand.
pub fn eight_bytes(
    short: MarshalFault,
    at: usize,
    bytes: &[u8],
) -> Result<([u8; 8], usize, &[u8]), MarshalFault>
    requires room { at + length bytes.now < 2 ^ 64 }
    ensures reads { Tells (λ x. (x.0, x.1, x.2.now)) result (fixed_at 8 short at bytes.now) }
    ensures place { IfOk result (λ x. x.1 + length x.2.now ≡ at + length bytes.now) }
    ensures shorter { IfOk result (λ x. length x.2.now < length bytes.now) }
{
    let (front, at, rest) = fixed(8, short, at, bytes)?;
    let mut eight = [0; 8];
    eight.copy_from_slice(front);
    Ok((eight, at, rest))
}

#[tactic(auto, unfolding(marshal_core::specs::Reading::byte_at))]
pub fn byte(
    short: MarshalFault,
    at: usize,
    bytes: &[u8],
) -> Result<(u8, usize, &[u8]), MarshalFault>
    requires room { at + length bytes.now < 2 ^ 64 }
    ensures reads { Tells (λ x. (x.0, x.1, x.2.now)) result (byte_at short at bytes.now) }
    ensures place { IfOk result (λ x. x.1 + length x.2.now ≡ at + length bytes.now) }
    ensures shorter { IfOk result (λ x. length x.2.now < length bytes.now) }
{
    match bytes.split_first() {
        None => Err(short),
        Some((first, rest)) => Ok((*first, at + 1, rest)),
    }
}

#[tactic(auto, unfolding(marshal_core::specs::Reading::boolean_at))]
pub fn boolean<O: Endian>(
    short: MarshalFault,
    at: usize,
    bytes: &[u8],
) -> Result<(bool, usize, &[u8]), MarshalFault>
    requires room { at + length bytes.now < 2 ^ 64 }
    ensures reads { Tells (λ x. (x.0, x.1, x.2.now)) result
        (boolean_at O.order short at bytes.now) }
    ensures place { IfOk result (λ x. x.1 + length x.2.now ≡ at + length bytes.now) }
    ensures shorter { IfOk result (λ x. length x.2.now < length bytes.now) }
{
    let (number, at, rest) = number32::<O>(short, at, bytes)?;
    match number {
        0 => Ok((false, at, rest)),
        1 => Ok((true, at, rest)),
        _ => Err(MarshalFault::Boolean),
    }
}
