//! Reading values.

ghost use Rattle.std.specs.Prelude.{◌≡◌, ◌+◌, ◌<◌, ◌≤◌, ◌^◌, ℕ, List, ◌++◌, length, map, take, IfOk};
ghost use Rattle.marshal_core.specs.Types.{Tys, entry, ty_of, types_of};
ghost use Rattle.marshal_core.specs.Values.{Vals, a_basic, entry_of, val_of, values, values_of};
ghost use Rattle.marshal_core.specs.Spelling.{Spells};
ghost use Rattle.marshal_core.specs.Faults.{Gives, Tells};
ghost use Rattle.marshal_core.specs.Reading.{array_at, as_a, basic_at, decode_at, decoded, elements_at, entry_at, fields_at, inside_at, sized_at, struct_at, struct_fields_at, value_at, variant_at};

use crate::basic::basic;
use crate::endian::Endian;
use crate::fixed::{gap, number32, padding};
use crate::text::variant_type;
use byteorder::{BigEndian, LittleEndian};
use marshal_core::limits::{MAX_ARRAY_LENGTH, MAX_CONTAINER_DEPTH};
use marshal_core::{BasicType, BasicValue, DataType, MarshalFault, Order, Signature, Value};
use std::alloc::Global;

/// What dict entries are aligned to.
pub const ENTRY_ALIGNMENT: usize = 8;

/// What structs are aligned to.
pub const STRUCT_ALIGNMENT: usize = 8;

/// The bytes of an array of known length: the place of the first element, the bytes of all, the
/// place after them and the bytes there.
#[tactic(auto, unfolding(marshal_core::specs::Reading::sized_at))]
fn sized(
    short: MarshalFault,
    align: usize,
    len: usize,
    at: usize,
    bytes: &[u8],
) -> Result<(usize, &[u8], usize, &[u8]), MarshalFault>
    requires align { 0 < align }
    requires most { align ≤ 8 }
    requires room { at + length bytes.now < 2 ^ 64 }
    ensures reads { Tells (λ x. ((x.0, x.1.now), x.2, x.3.now)) result
        (sized_at short align len at bytes.now) }
    ensures place { IfOk result (λ x. x.2 + length x.3.now ≡ at + length bytes.now) }
    ensures inside { IfOk result (λ x. x.0 + length x.1.now ≡ x.2) }
    ensures within { IfOk result (λ x. length x.3.now ≤ length bytes.now) }
{
    if len > MAX_ARRAY_LENGTH {
        return Err(MarshalFault::ArrayLength);
    }
    if bytes.len() < gap(align, at) + len {
        return Err(short);
    }
    let (place, rest) = padding(align, short, at, bytes)?;
    let (inside, behind) = rest.split_at(len);
    Ok((place, inside, place + len, behind))
}

/// The same, with the length before it.
#[tactic(auto, unfolding(marshal_core::specs::Reading::inside_at))]
pub fn array_bytes<O: Endian>(
    short: MarshalFault,
    align: usize,
    at: usize,
    bytes: &[u8],
) -> Result<(usize, &[u8], usize, &[u8]), MarshalFault>
    requires align { 0 < align }
    requires most { align ≤ 8 }
    requires room { at + length bytes.now < 2 ^ 64 }
    ensures reads { Tells (λ x. ((x.0, x.1.now), x.2, x.3.now)) result
        (inside_at O.order short align at bytes.now) }
    ensures place { IfOk result (λ x. x.2 + length x.3.now ≡ at + length bytes.now) }
    ensures inside { IfOk result (λ x. x.0 + length x.1.now ≡ x.2) }
    ensures shorter { IfOk result (λ x. length x.3.now < length bytes.now) }
{
    let (len, at, rest) = number32::<O>(short, at, bytes)?;
    sized(short, align, len as usize, at, rest)
}

fn basic_value<O: Endian>(
    alloc: Global,
    short: MarshalFault,
    of: BasicType,
    at: usize,
    bytes: &[u8],
) -> Result<(Value, usize, &[u8]), MarshalFault>
    requires room { at + length bytes.now < 2 ^ 64 }
    ensures reads { Gives (λ x. (val_of x.0, x.1, x.2.now)) result
        (as_a a_basic (basic_at O.order short of at bytes.now)) }
    ensures place { IfOk result (λ x. x.1 + length x.2.now ≡ at + length bytes.now) }
    ensures shorter { IfOk result (λ x. length x.2.now < length bytes.now) }
{
    let (one, at, rest) = basic::<O>(alloc, short, of, at, bytes)?;
    Ok((Value::Basic(one), at, rest))
}

/// A value, where so many containers may still stand in one another.
#[cycle(values)]
fn value<'a, O: Endian>(
    alloc: Global,
    depth: u8,
    short: MarshalFault,
    of: &DataType,
    at: usize,
    bytes: &'a [u8],
) -> Result<(Value, usize, &'a [u8]), MarshalFault>
    requires room { at + length bytes.now < 2 ^ 64 }
    ensures reads { Gives (λ x. (val_of x.0, x.1, x.2.now)) result
        (value_at depth O.order short (ty_of of.now) at bytes.now) }
    ensures place { IfOk result (λ x. x.1 + length x.2.now ≡ at + length bytes.now) }
    ensures shorter { IfOk result (λ x. length x.2.now < length bytes.now) }
{
    match of {
        DataType::Basic(of) => basic_value::<O>(alloc, short, *of, at, bytes),
        DataType::Variant => {
            if depth == 0 {
                return Err(MarshalFault::Depth);
            }
            variant::<O>(alloc, depth - 1, short, at, bytes)
        }
        DataType::Array(element) => {
            if depth == 0 {
                return Err(MarshalFault::Depth);
            }
            array::<O>(alloc, depth - 1, short, element, at, bytes)
        }
        DataType::Dictionary(key, of) => {
            if depth == 0 {
                return Err(MarshalFault::Depth);
            }
            dictionary::<O>(alloc, depth - 1, short, *key, of, at, bytes)
        }
        DataType::Struct(fields) => {
            if depth == 0 {
                return Err(MarshalFault::Depth);
            }
            structure::<O>(alloc, depth - 1, short, fields, at, bytes)
        }
    }
}

#[cycle(values)]
#[tactic(auto, unfolding(marshal_core::specs::Reading::variant_at))]
fn variant<O: Endian>(
    alloc: Global,
    depth: u8,
    short: MarshalFault,
    at: usize,
    bytes: &[u8],
) -> Result<(Value, usize, &[u8]), MarshalFault>
    requires room { at + length bytes.now < 2 ^ 64 }
    ensures reads { Gives (λ x. (val_of x.0, x.1, x.2.now)) result
        (variant_at (value_at depth O.order) short at bytes.now) }
    ensures place { IfOk result (λ x. x.1 + length x.2.now ≡ at + length bytes.now) }
    ensures shorter { IfOk result (λ x. length x.2.now < length bytes.now) }
{
    let (of, at, rest) = variant_type(alloc, short, at, bytes)?;
    let (held, at, rest) = value::<O>(alloc, depth, short, &of, at, rest)?;
    Ok((Value::Variant(Box::new(alloc, held)?), at, rest))
}

#[cycle(values)]
#[tactic(auto, unfolding(marshal_core::specs::Reading::array_at))]
fn array<'a, O: Endian>(
    alloc: Global,
    depth: u8,
    short: MarshalFault,
    of: &DataType,
    at: usize,
    bytes: &'a [u8],
) -> Result<(Value, usize, &'a [u8]), MarshalFault>
    requires room { at + length bytes.now < 2 ^ 64 }
    ensures reads { Gives (λ x. (val_of x.0, x.1, x.2.now)) result
        (array_at (value_at depth O.order) O.order short (ty_of of.now) at bytes.now) }
    ensures place { IfOk result (λ x. x.1 + length x.2.now ≡ at + length bytes.now) }
    ensures shorter { IfOk result (λ x. length x.2.now < length bytes.now) }
{
    let (place, inside, at, rest) = array_bytes::<O>(short, of.alignment(), at, bytes)?;
    let items = elements::<O>(alloc, depth, of, place, inside)?;
    let of = of.try_clone(alloc)?;
    Ok((Value::Array(of, items), at, rest))
}

#[cycle(values)]
#[tactic(auto, unfolding(marshal_core::specs::Reading::array_at))]
fn dictionary<'a, O: Endian>(
    alloc: Global,
    depth: u8,
    short: MarshalFault,
    key: BasicType,
    of: &DataType,
    at: usize,
    bytes: &'a [u8],
) -> Result<(Value, usize, &'a [u8]), MarshalFault>
    requires room { at + length bytes.now < 2 ^ 64 }
    ensures reads { Gives (λ x. (val_of x.0, x.1, x.2.now)) result
        (array_at (value_at depth O.order) O.order short (entry key (ty_of of.now)) at bytes.now) }
    ensures place { IfOk result (λ x. x.1 + length x.2.now ≡ at + length bytes.now) }
    ensures shorter { IfOk result (λ x. length x.2.now < length bytes.now) }
{
    let (place, inside, at, rest) = array_bytes::<O>(short, ENTRY_ALIGNMENT, at, bytes)?;
    let items = entries::<O>(alloc, depth, key, of, place, inside)?;
    let of = of.try_clone(alloc)?;
    Ok((Value::Dictionary(key, of, items), at, rest))
}

#[cycle(values)]
fn one_entry<'a, O: Endian>(
    alloc: Global,
    depth: u8,
    key: BasicType,
    of: &DataType,
    at: usize,
    bytes: &'a [u8],
) -> Result<((BasicValue, Value), usize, &'a [u8]), MarshalFault>
    requires room { at + length bytes.now < 2 ^ 64 }
    ensures reads { Gives (λ x. (entry_of x.0, x.1, x.2.now)) result
        (value_at depth O.order MarshalFault.ArrayLength (entry key (ty_of of.now)) at bytes.now) }
    ensures place { IfOk result (λ x. x.1 + length x.2.now ≡ at + length bytes.now) }
    ensures shorter { IfOk result (λ x. length x.2.now < length bytes.now) }
{
    if depth == 0 {
        return Err(MarshalFault::Depth);
    }
    key_and_value::<O>(alloc, depth - 1, key, of, at, bytes)
}

#[cycle(values)]
#[tactic(auto, unfolding(marshal_core::specs::Reading::entry_at))]
fn key_and_value<'a, O: Endian>(
    alloc: Global,
    depth: u8,
    key: BasicType,
    of: &DataType,
    at: usize,
    bytes: &'a [u8],
) -> Result<((BasicValue, Value), usize, &'a [u8]), MarshalFault>
    requires room { at + length bytes.now < 2 ^ 64 }
    ensures reads { Gives (λ x. (entry_of x.0, x.1, x.2.now)) result
        (entry_at (value_at depth O.order) O.order MarshalFault.ArrayLength key
        (ty_of of.now) at bytes.now) }
    ensures place { IfOk result (λ x. x.1 + length x.2.now ≡ at + length bytes.now) }
    ensures shorter { IfOk result (λ x. length x.2.now < length bytes.now) }
{
    let (at, rest) = padding(ENTRY_ALIGNMENT, MarshalFault::ArrayLength, at, bytes)?;
    let (key, at, rest) = basic::<O>(alloc, MarshalFault::ArrayLength, key, at, rest)?;
    let (one, at, rest) = value::<O>(alloc, depth, MarshalFault::ArrayLength, of, at, rest)?;
    Ok(((key, one), at, rest))
}

#[cycle(values)]
#[tactic(auto, unfolding(marshal_core::specs::Reading::struct_at))]
fn structure<'a, O: Endian>(
    alloc: Global,
    depth: u8,
    short: MarshalFault,
    of: &[DataType],
    at: usize,
    bytes: &'a [u8],
) -> Result<(Value, usize, &'a [u8]), MarshalFault>
    requires room { at + length bytes.now < 2 ^ 64 }
    ensures reads { Gives (λ x. (val_of x.0, x.1, x.2.now)) result
        (struct_at (value_at depth O.order) short (types_of of.now) at bytes.now) }
    ensures place { IfOk result (λ x. x.1 + length x.2.now ≡ at + length bytes.now) }
    ensures shorter { IfOk result (λ x. length x.2.now < length bytes.now) }
{
    if of.is_empty() {
        return Err(MarshalFault::Signature);
    }
    fields_of::<O>(alloc, depth, short, of, at, bytes)
}

/// The fields of a struct that has some.
#[cycle(values)]
#[tactic(auto, unfolding(marshal_core::specs::Reading::struct_fields_at))]
fn fields_of<'a, O: Endian>(
    alloc: Global,
    depth: u8,
    short: MarshalFault,
    of: &[DataType],
    at: usize,
    bytes: &'a [u8],
) -> Result<(Value, usize, &'a [u8]), MarshalFault>
    requires some { 0 < length of.now }
    requires room { at + length bytes.now < 2 ^ 64 }
    ensures reads { Gives (λ x. (val_of x.0, x.1, x.2.now)) result
        (struct_fields_at (value_at depth O.order) short (types_of of.now) at bytes.now) }
    ensures place { IfOk result (λ x. x.1 + length x.2.now ≡ at + length bytes.now) }
    ensures shorter { IfOk result (λ x. length x.2.now < length bytes.now) }
{
    let (at, rest) = padding(STRUCT_ALIGNMENT, short, at, bytes)?;
    let (items, at, rest) = fields::<O>(alloc, depth, short, of, at, rest)?;
    Ok((Value::Struct(items), at, rest))
}

#[cycle(values)]
fn elements<O: Endian>(
    alloc: Global,
    depth: u8,
    of: &DataType,
    at: usize,
    bytes: &[u8],
) -> Result<Vec<Value>, MarshalFault>
    requires room { at + length bytes.now < 2 ^ 64 }
    ensures { Gives (λ x. values_of x.items) result
        (elements_at (value_at depth O.order) (ty_of of.now) (length bytes.now) at bytes.now) }
{
    let mut items = Vec::new(alloc);
    let mut rest = bytes;
    let mut place = at;
    'each: while !rest.is_empty() {
        let (one, after, behind) = value::<O>(
            alloc,
            depth,
            MarshalFault::ArrayLength,
            of,
            place,
            rest,
        )?;
        items.push(one)?;
        place = after;
        rest = behind;
    }
    Ok(items)
}

#[cycle(values)]
fn entries<O: Endian>(
    alloc: Global,
    depth: u8,
    key: BasicType,
    of: &DataType,
    at: usize,
    bytes: &[u8],
) -> Result<Vec<(BasicValue, Value)>, MarshalFault>
    requires room { at + length bytes.now < 2 ^ 64 }
    ensures { Gives (λ x. values (map entry_of x.items)) result
        (elements_at (value_at depth O.order) (entry key (ty_of of.now))
        (length bytes.now) at bytes.now) }
{
    let mut items = Vec::new(alloc);
    let mut rest = bytes;
    let mut place = at;
    'each: while !rest.is_empty() {
        let (one, after, behind) = one_entry::<O>(alloc, depth, key, of, place, rest)?;
        items.push(one)?;
        place = after;
        rest = behind;
    }
    Ok(items)
}

#[cycle(values)]
fn fields<'a, O: Endian>(
    alloc: Global,
    depth: u8,
    short: MarshalFault,
    of: &[DataType],
    at: usize,
    bytes: &'a [u8],
) -> Result<(Vec<Value>, usize, &'a [u8]), MarshalFault>
    requires room { at + length bytes.now < 2 ^ 64 }
    ensures reads { Gives (λ x. (values_of x.0.items, x.1, x.2.now)) result
        (fields_at (value_at depth O.order) short (types_of of.now) at bytes.now) }
    ensures place { IfOk result (λ x. x.1 + length x.2.now ≡ at + length bytes.now) }
    ensures shorter { IfOk result (λ x. length x.2.now ≤ length bytes.now) }
    ensures some { IfOk result (λ x. 0 < length of.now → length x.2.now < length bytes.now) }
{
    let mut items = Vec::new(alloc);
    let mut rest = bytes;
    let mut place = at;
    for one in of {
        let (read, after, behind) = value::<O>(alloc, depth, short, one, place, rest)?;
        items.push(read)?;
        place = after;
        rest = behind;
    }
    Ok((items, place, rest))
}

fn read<O: Endian>(
    alloc: Global,
    offset: usize,
    of: &[DataType],
    bytes: &[u8],
) -> Result<(Vec<Value>, usize), MarshalFault>
    ensures { Gives (λ x. (values_of x.0.items, x.1)) result
        (decode_at O.order (types_of of.now) offset bytes.now) }
{
    let at = offset % 8;
    let (items, end, _rest) = fields::<O>(
        alloc,
        MAX_CONTAINER_DEPTH,
        MarshalFault::Truncated,
        of,
        at,
        bytes,
    )?;
    Ok((items, end - at))
}

fn all_values(
    alloc: Global,
    order: Order,
    offset: usize,
    of: &[DataType],
    bytes: &[u8],
) -> Result<(Vec<Value>, usize), MarshalFault>
    ensures { Gives (λ x. (values_of x.0.items, x.1)) result
        (decode_at order (types_of of.now) offset bytes.now) }
{
    match order {
        Order::Little => read::<LittleEndian>(alloc, offset, of, bytes),
        Order::Big => read::<BigEndian>(alloc, offset, of, bytes),
    }
}

/// The values of the signature's types that the bytes begin with, where the first byte stands at
/// this offset of the message, and how many bytes they take; or the first fault from the left
/// ("Marshaling (Wire Format)" of the D-Bus Specification). What follows them is not looked at.
pub fn decode(
    alloc: Global,
    order: Order,
    offset: usize,
    signature: &Signature,
    bytes: &[u8],
) -> Result<(Vec<Value>, usize), MarshalFault>
    // What is read is spelled by the bytes that it takes.
    ensures found { IfOk result (λ x. (x.1 ≤ length bytes.now)
        × Spells order offset (types_of signature.now.types.items)
        (values_of x.0.items) (take x.1 bytes.now)) }
    // Where the bytes begin with a spelling of any values of these types, they are read, unless
    // memory runs out.
    ensures only { (vs : Vals) (front rest : List ℕ) → bytes.now ≡ front ++ rest
        → Spells order offset (types_of signature.now.types.items) vs front
        → Gives (λ x. (values_of x.0.items, x.1)) result (decoded vs (length front)) }
    // Which fault it is.
    ensures exact { Gives (λ x. (values_of x.0.items, x.1)) result
        (decode_at order (types_of signature.now.types.items) offset bytes.now) }
{
    all_values(alloc, order, offset, &signature.types, bytes)
}

/// No spelling under given types, order and offset begins another: what was written is read again,
/// whatever follows.
pub fn one_spelling()
    ensures { (vs ws : Vals) (order : Order) (offset : ℕ) (ts : Tys) (a b x y : List ℕ)
        → Spells order offset ts vs a → Spells order offset ts ws b → a ++ x ≡ b ++ y
        → (a ≡ b) × (vs ≡ ws) }
{}

/// Values have one spelling under given types, order and offset.
pub fn one_text()
    ensures { (vs : Vals) (order : Order) (offset : ℕ) (ts : Tys) (a b : List ℕ)
        → Spells order offset ts vs a → Spells order offset ts vs b → a ≡ b }
{}
