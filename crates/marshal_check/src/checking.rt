//! Checking values.

ghost use Rattle.std.specs.Prelude.{◌≡◌, ◌+◌, ◌%◌, ◌<◌, ◌≤◌, ◌^◌, ℕ, List, ◌∷◌, ◌++◌, length, take, None, Ok, IfOk, true, false};
ghost use Rattle.marshal_core.specs.declared.data_type.BasicType.{BasicType};
ghost use Rattle.marshal_core.specs.declared.fault.MarshalFault.TheVariants.{Truncated};
ghost use Rattle.marshal_core.specs.Types.{Ty, Tys};
ghost use Rattle.marshal_core.specs.Values.{Vals};
ghost use Rattle.marshal_core.specs.Signatures.{basic_code, basic_types, code, codes, entry_end, struct_end, with_code};
ghost use Rattle.marshal_core.specs.Spelling.{Spells, alignment, max_container_depth};
ghost use Rattle.marshal_core.specs.Reading.{array_at, decode_at, elements_at, entry_at, fields_at, struct_at, value_at, variant_at};
ghost use Rattle.marshal_check.specs.Checking.{Ends, Leaves, Skips, is_end};
ghost use Rattle.marshal_check.specs.SignatureTexts.{types_in};

use crate::basic::{basic, variant_text};
use crate::letters::{alignment, at_end, free_element, skip_type};
use crate::signature_text::Types;
use byteorder::{BigEndian, LittleEndian};
use marshal::parts::{Endian, array_bytes, padding};
use marshal_core::limits::MAX_CONTAINER_DEPTH;
use marshal_core::{BasicType, MarshalFault, Order};

/// What dict entries and structs are aligned to.
const CONTAINER_ALIGNMENT: usize = 8;

/// A value of the type that a text begins with, where so many containers may still stand in one
/// another: the place after it, and the bytes there.
#[cycle(values)]
pub fn value<'a, O: Endian>(
    depth: u8,
    short: MarshalFault,
    of: &[u8],
    at: usize,
    bytes: &'a [u8],
) -> Result<(usize, &'a [u8]), MarshalFault>
    requires room { at + length bytes.now < 2 ^ 64 }
    ensures reads { (t : Ty) (tail : List ℕ) → of.now ≡ code t ++ tail
        → Skips (λ x. (x.0, x.1.now)) result (value_at depth O.order short t at bytes.now) }
    ensures place { IfOk result (λ x. x.0 + length x.1.now ≡ at + length bytes.now) }
    ensures shorter { IfOk result (λ x. length x.1.now < length bytes.now) }
{
    let Some((first, inner)) = of.split_first() else {
        return Err(MarshalFault::Signature);
    };
    match BasicType::from_code(*first) {
        Some(of) => basic::<O>(short, of, at, bytes),
        None => container::<O>(depth, short, *first, inner, at, bytes),
    }
}

/// A container, by the letter that its type begins with and what follows it.
#[cycle(values)]
fn container<'a, O: Endian>(
    depth: u8,
    short: MarshalFault,
    letter: u8,
    inner: &[u8],
    at: usize,
    bytes: &'a [u8],
) -> Result<(usize, &'a [u8]), MarshalFault>
    requires room { at + length bytes.now < 2 ^ 64 }
    ensures reads { (t : Ty) (tail : List ℕ) → letter ∷ inner.now ≡ code t ++ tail
        → with_code letter basic_types ≡ None
        → Skips (λ x. (x.0, x.1.now)) result (value_at depth O.order short t at bytes.now) }
    ensures place { IfOk result (λ x. x.0 + length x.1.now ≡ at + length bytes.now) }
    ensures shorter { IfOk result (λ x. length x.1.now < length bytes.now) }
{
    if depth == 0 {
        return Err(MarshalFault::Depth);
    }
    if letter == b'v' {
        return variant::<O>(depth - 1, short, at, bytes);
    }
    if letter == b'a' {
        return array::<O>(depth - 1, short, inner, at, bytes);
    }
    if letter == b'{' {
        return entry::<O>(depth - 1, short, inner, at, bytes);
    }
    structure::<O>(depth - 1, short, inner, at, bytes)
}

#[cycle(values)]
fn variant<O: Endian>(
    depth: u8,
    short: MarshalFault,
    at: usize,
    bytes: &[u8],
) -> Result<(usize, &[u8]), MarshalFault>
    requires room { at + length bytes.now < 2 ^ 64 }
    ensures reads { Skips (λ x. (x.0, x.1.now)) result
        (variant_at (value_at depth O.order) short at bytes.now) }
    ensures place { IfOk result (λ x. x.0 + length x.1.now ≡ at + length bytes.now) }
    ensures shorter { IfOk result (λ x. length x.1.now < length bytes.now) }
{
    let (of, at, rest) = variant_text(short, at, bytes)?;
    value::<O>(depth, short, of, at, rest)
}

/// An array, by the text of its elements' type.
#[cycle(values)]
fn array<'a, O: Endian>(
    depth: u8,
    short: MarshalFault,
    of: &[u8],
    at: usize,
    bytes: &'a [u8],
) -> Result<(usize, &'a [u8]), MarshalFault>
    requires room { at + length bytes.now < 2 ^ 64 }
    ensures reads { (t : Ty) (tail : List ℕ) → of.now ≡ code t ++ tail
        → Skips (λ x. (x.0, x.1.now)) result
        (array_at (value_at depth O.order) O.order short t at bytes.now) }
    ensures place { IfOk result (λ x. x.0 + length x.1.now ≡ at + length bytes.now) }
    ensures shorter { IfOk result (λ x. length x.1.now < length bytes.now) }
{
    let (place, inside, at, rest) = array_bytes::<O>(short, alignment(of), at, bytes)?;
    elements::<O>(depth, of, place, inside)?;
    Ok((at, rest))
}

/// The elements of an array, to the end of its bytes. Where any bytes are elements, only their
/// number counts.
#[cycle(values)]
fn elements<O: Endian>(depth: u8, of: &[u8], at: usize, bytes: &[u8]) -> Result<(), MarshalFault>
    requires room { at + length bytes.now < 2 ^ 64 }
    ensures { (t : Ty) (tail : List ℕ) → of.now ≡ code t ++ tail → at % alignment t ≡ 0
        → Ends result (elements_at (value_at depth O.order) t (length bytes.now) at bytes.now) }
{
    match free_element(of) {
        Some(size) => {
            if bytes.len() % size == 0 {
                Ok(())
            } else {
                Err(MarshalFault::ArrayLength)
            }
        }
        None => each_element::<O>(depth, of, at, bytes),
    }
}

#[cycle(values)]
fn each_element<O: Endian>(
    depth: u8,
    of: &[u8],
    at: usize,
    bytes: &[u8],
) -> Result<(), MarshalFault>
    requires room { at + length bytes.now < 2 ^ 64 }
    ensures { (t : Ty) (tail : List ℕ) → of.now ≡ code t ++ tail
        → Ends result (elements_at (value_at depth O.order) t (length bytes.now) at bytes.now) }
{
    let mut rest = bytes;
    let mut place = at;
    'each: while !rest.is_empty() {
        (place, rest) = value::<O>(depth, MarshalFault::ArrayLength, of, place, rest)?;
    }
    Ok(())
}

/// A dict entry, by the text of its types.
#[cycle(values)]
fn entry<'a, O: Endian>(
    depth: u8,
    short: MarshalFault,
    of: &[u8],
    at: usize,
    bytes: &'a [u8],
) -> Result<(usize, &'a [u8]), MarshalFault>
    requires room { at + length bytes.now < 2 ^ 64 }
    ensures reads { (k : BasicType) (t : Ty) (tail : List ℕ)
        → of.now ≡ basic_code k ∷ (code t ++ entry_end ∷ tail)
        → Skips (λ x. (x.0, x.1.now)) result
        (entry_at (value_at depth O.order) O.order short k t at bytes.now) }
    ensures place { IfOk result (λ x. x.0 + length x.1.now ≡ at + length bytes.now) }
    ensures shorter { IfOk result (λ x. length x.1.now < length bytes.now) }
{
    let (at, rest) = padding(CONTAINER_ALIGNMENT, short, at, bytes)?;
    let (at, rest) = value::<O>(depth, short, of, at, rest)?;
    value::<O>(depth, short, skip_type(of), at, rest)
}

/// A struct, by the text of its types.
#[cycle(values)]
fn structure<'a, O: Endian>(
    depth: u8,
    short: MarshalFault,
    of: &[u8],
    at: usize,
    bytes: &'a [u8],
) -> Result<(usize, &'a [u8]), MarshalFault>
    requires room { at + length bytes.now < 2 ^ 64 }
    ensures reads { (ts : Tys) (tail : List ℕ) → of.now ≡ codes ts ++ struct_end ∷ tail
        → Skips (λ x. (x.0, x.1.now)) result
        (struct_at (value_at depth O.order) short ts at bytes.now) }
    ensures place { IfOk result (λ x. x.0 + length x.1.now ≡ at + length bytes.now) }
    ensures shorter { IfOk result (λ x. length x.1.now < length bytes.now) }
{
    if at_end(of) {
        return Err(MarshalFault::Signature);
    }
    let (at, rest) = padding(CONTAINER_ALIGNMENT, short, at, bytes)?;
    fields::<O>(depth, short, of, at, rest)
}

/// Values one after the other, of the types that a text lists to its end or to that of a struct.
#[cycle(values)]
fn fields<'a, O: Endian>(
    depth: u8,
    short: MarshalFault,
    of: &[u8],
    at: usize,
    bytes: &'a [u8],
) -> Result<(usize, &'a [u8]), MarshalFault>
    requires room { at + length bytes.now < 2 ^ 64 }
    ensures reads { (ts : Tys) (tail : List ℕ) → of.now ≡ codes ts ++ tail → is_end tail ≡ true
        → Skips (λ x. (x.0, x.1.now)) result
        (fields_at (value_at depth O.order) short ts at bytes.now) }
    ensures place { IfOk result (λ x. x.0 + length x.1.now ≡ at + length bytes.now) }
    ensures within { IfOk result (λ x. length x.1.now ≤ length bytes.now) }
    ensures some { IfOk result (λ x. is_end of.now ≡ false → length x.1.now < length bytes.now) }
{
    let mut types = of;
    let mut rest = bytes;
    let mut place = at;
    'each: while !at_end(types) {
        (place, rest) = value::<O>(depth, short, types, place, rest)?;
        types = skip_type(types);
    }
    Ok((place, rest))
}

/// A value of the type that a text begins with: the place after it, and the bytes there.
pub fn any_value<'a>(
    order: Order,
    of: &[u8],
    at: usize,
    bytes: &'a [u8],
) -> Result<(usize, &'a [u8]), MarshalFault>
    requires room { at + length bytes.now < 2 ^ 64 }
    ensures reads { (t : Ty) (tail : List ℕ) → of.now ≡ code t ++ tail
        → Skips (λ x. (x.0, x.1.now)) result
        (value_at max_container_depth order Truncated t at bytes.now) }
    ensures place { IfOk result (λ x. x.0 + length x.1.now ≡ at + length bytes.now) }
{
    let depth = MAX_CONTAINER_DEPTH;
    let short = MarshalFault::Truncated;
    match order {
        Order::Little => value::<LittleEndian>(depth, short, of, at, bytes),
        Order::Big => value::<BigEndian>(depth, short, of, at, bytes),
    }
}

/// Values of all types that a text lists, one after the other.
fn all_values<'a>(
    order: Order,
    of: &[u8],
    at: usize,
    bytes: &'a [u8],
) -> Result<(usize, &'a [u8]), MarshalFault>
    requires room { at + length bytes.now < 2 ^ 64 }
    ensures reads { (ts : Tys) (tail : List ℕ) → of.now ≡ codes ts ++ tail → is_end tail ≡ true
        → Skips (λ x. (x.0, x.1.now)) result
        (fields_at (value_at max_container_depth order) Truncated ts at bytes.now) }
    ensures place { IfOk result (λ x. x.0 + length x.1.now ≡ at + length bytes.now) }
    ensures within { IfOk result (λ x. length x.1.now ≤ length bytes.now) }
{
    let depth = MAX_CONTAINER_DEPTH;
    let short = MarshalFault::Truncated;
    match order {
        Order::Little => fields::<LittleEndian>(depth, short, of, at, bytes),
        Order::Big => fields::<BigEndian>(depth, short, of, at, bytes),
    }
}

/// How many bytes the values of these types take that the bytes begin with, where the first byte
/// stands at this offset of the message; or the first fault from the left, and never `NoMemory`
/// ("Marshaling (Wire Format)" of the D-Bus Specification). What follows them is not looked at.
///
/// It says what `marshal::decode` says, and takes no memory.
pub fn check(order: Order, offset: usize, types: Types, bytes: &[u8]) -> Result<usize, MarshalFault>
    // The bytes that are taken spell some values.
    ensures found { IfOk result (λ n. (n ≤ length bytes.now) × (vs : Vals)
        × Spells order offset (types_in types.entry.text.now) vs (take n bytes.now)) }
    // Where the bytes begin with a spelling of any values of these types, its length is the answer.
    ensures only { (vs : Vals) (front rest : List ℕ) → bytes.now ≡ front ++ rest
        → Spells order offset (types_in types.entry.text.now) vs front
        → result ≡ Ok (length front) }
    // Which fault it is.
    ensures exact { Leaves (λ n. n) result
        (decode_at order (types_in types.entry.text.now) offset bytes.now) }
{
    let at = offset % 8;
    let (end, _rest) = all_values(order, types.text, at, bytes)?;
    Ok(end - at)
}
