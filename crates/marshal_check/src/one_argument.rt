//! Reading one argument of a message.

ghost use Rattle.std.specs.Prelude.{◌≡◌, ◌+◌, ◌<◌, ◌^◌, ◌++◌, ℕ, List, length, IfOk};
ghost use Rattle.marshal_core.specs.declared.fault.MarshalFault.TheVariants.{Truncated};
ghost use Rattle.marshal_core.specs.Types.{Ty};
ghost use Rattle.marshal_core.specs.Signatures.{code};
ghost use Rattle.marshal_core.specs.Spelling.{max_container_depth};
ghost use Rattle.marshal_core.specs.Reading.{value_at};
ghost use Rattle.marshal_check.specs.ArgumentViews.{Shows, seen};

use crate::body_arguments::BodyArgument;
use crate::checking::value;
use byteorder::{BigEndian, LittleEndian};
use marshal::parts::{self, Endian};
use marshal_core::limits::MAX_CONTAINER_DEPTH;
use marshal_core::{MarshalFault, Order};

fn argument<'a, O: Endian>(
    of: &[u8],
    at: usize,
    bytes: &'a [u8],
) -> Result<(BodyArgument<'a>, usize, &'a [u8]), MarshalFault>
    requires room { at + length bytes.now < 2 ^ 64 }
    ensures reads { (t : Ty) (tail : List ℕ) → of.now ≡ code t ++ tail
        → Shows (λ x. (seen x.0, x.1, x.2.now)) result
        (value_at max_container_depth O.order Truncated t at bytes.now) }
    ensures place { IfOk result (λ x. x.1 + length x.2.now ≡ at + length bytes.now) }
{
    let Some((first, _)) = of.split_first() else {
        return Err(MarshalFault::Signature);
    };
    if *first == b's' {
        let (text, at, rest) = parts::string::<O>(MarshalFault::Truncated, at, bytes)?;
        return Ok((BodyArgument::String(text), at, rest));
    }
    if *first == b'o' {
        let (text, at, rest) = parts::path::<O>(MarshalFault::Truncated, at, bytes)?;
        return Ok((BodyArgument::ObjectPath(text), at, rest));
    }
    let (at, rest) = value::<O>(MAX_CONTAINER_DEPTH, MarshalFault::Truncated, of, at, bytes)?;
    Ok((BodyArgument::Other, at, rest))
}

/// The argument of the type that a text begins with, the place after it, and the bytes there.
pub fn one_argument<'a>(
    order: Order,
    of: &[u8],
    at: usize,
    bytes: &'a [u8],
) -> Result<(BodyArgument<'a>, usize, &'a [u8]), MarshalFault>
    requires room { at + length bytes.now < 2 ^ 64 }
    ensures reads { (t : Ty) (tail : List ℕ) → of.now ≡ code t ++ tail
        → Shows (λ x. (seen x.0, x.1, x.2.now)) result
        (value_at max_container_depth order Truncated t at bytes.now) }
    ensures place { IfOk result (λ x. x.1 + length x.2.now ≡ at + length bytes.now) }
{
    match order {
        Order::Little => argument::<LittleEndian>(of, at, bytes),
        Order::Big => argument::<BigEndian>(of, at, bytes),
    }
}
