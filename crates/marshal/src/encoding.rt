//! Writing values.
//!
//! Each writer is given the place where the output begins, and appends; after a refusal the output
//! is thrown away.

ghost use Rattle.std.specs.Prelude.{◌≡◌, ◌+◌, ◌%◌, ◌<◌, ◌≤◌, ◌^◌, ℕ, List, [], ◌∷◌, ◌++◌, length, map, OnOk, OnErr, IfOk, IfErr, ◌≢◌, Ok, None, Some, if◌then◌else◌, Err};
ghost use Rattle.std.specs.Int.{w16, w32, w64};
ghost use Rattle.names.specs.Texts.{text_eq};
ghost use Rattle.marshal_core.specs.declared.fault.MarshalFault.TheVariants.{NoMemory, Signature as NotSigned};
ghost use Rattle.marshal_core.specs.Types.{Tys, entry, one_type, ty_of, types_of};
ghost use Rattle.marshal_core.specs.Values.{a_string, an_entry, an_object_path, basic_of, entry_of, val_of, values, values_of};
ghost use Rattle.marshal_core.specs.Signatures.{IsSignature, basic_code, code, codes, entry_begin, entry_end, has_types};
ghost use Rattle.marshal_core.specs.Spelling.{after_length, alignment, ended, first_place, number_spelling, pad_len, pads, signature_spelling, text_spelling, Spells};
ghost use Rattle.marshal_core.specs.Faults.{Gives};
ghost use Rattle.marshal.specs.Writing.{and_then, array_written, padded, string_fault, basic_written, elements_written, encode_at, fields_written, type_of, types_of_values, value_written, variant_type_written};

use crate::decoding::{ENTRY_ALIGNMENT, STRUCT_ALIGNMENT};
use crate::endian::Endian;
use crate::fixed::gap;
use crate::text::any_zero;
use crate::type_text::{type_code, type_codes, value_code, value_codes};
use byteorder::{BigEndian, LittleEndian};
use marshal_core::limits::{MAX_ARRAY_LENGTH, MAX_CONTAINER_DEPTH};
use marshal_core::{BasicType, BasicValue, DataType, MarshalFault, Order, Signature, Value};
use names::ObjectPath;
use std::alloc::{AllocError, Global};

fn padding(align: usize, at: usize, output: &mut Vec<u8>) -> Result<(), AllocError>
    requires align { 0 < align }
    requires most { align ≤ 8 }
    requires place { at < 8 }
    ensures { OnOk result (output.new.items
        ≡ output.old.items ++ pads align (at + length output.old.items)) }
{
    let zeros = [0u8; 8];
    let count = gap(align, at + output.len());
    output.extend_from_slice(&zeros[..count])
}

fn number16<O: Endian>(at: usize, number: u16, output: &mut Vec<u8>) -> Result<(), MarshalFault>
    requires place { at < 8 }
    ensures { Gives (λ _. output.new.items) result
        (Ok (output.old.items
        ++ number_spelling O.order w16 (at + length output.old.items) number)) }
{
    padding(2, at, output)?;
    let mut two = [0; 2];
    O::write_u16(&mut two, number);
    output.extend_from_slice(&two)?;
    Ok(())
}

fn number32<O: Endian>(at: usize, number: u32, output: &mut Vec<u8>) -> Result<(), MarshalFault>
    requires place { at < 8 }
    ensures { Gives (λ _. output.new.items) result
        (Ok (output.old.items
        ++ number_spelling O.order w32 (at + length output.old.items) number)) }
{
    padding(4, at, output)?;
    let mut four = [0; 4];
    O::write_u32(&mut four, number);
    output.extend_from_slice(&four)?;
    Ok(())
}

fn number64<O: Endian>(at: usize, number: u64, output: &mut Vec<u8>) -> Result<(), MarshalFault>
    requires place { at < 8 }
    ensures { Gives (λ _. output.new.items) result
        (Ok (output.old.items
        ++ number_spelling O.order w64 (at + length output.old.items) number)) }
{
    padding(8, at, output)?;
    let mut eight = [0; 8];
    O::write_u64(&mut eight, number);
    output.extend_from_slice(&eight)?;
    Ok(())
}

/// The length of a text that is a string.
fn string_length(text: &str) -> Result<u32, MarshalFault>
    ensures len { IfOk result (λ n. n ≡ length text.now) }
    ensures fine { IfOk result (λ _. string_fault text.now ≡ None) }
    ensures faulty { IfErr result (λ e. string_fault text.now ≡ Some e) }
{
    let Ok(len) = u32::try_from(text.len()) else {
        return Err(MarshalFault::ArrayLength);
    };
    if any_zero(text.as_bytes()) {
        return Err(MarshalFault::NulInText);
    }
    Ok(len)
}

/// A text after its length.
fn text<O: Endian>(
    at: usize,
    len: u32,
    text: &str,
    output: &mut Vec<u8>,
) -> Result<(), MarshalFault>
    requires place { at < 8 }
    requires len { len ≡ length text.now }
    ensures { Gives (λ _. output.new.items) result
        (Ok (output.old.items ++ text_spelling O.order (at + length output.old.items) text.now)) }
{
    number32::<O>(at, len, output)?;
    output.extend_from_slice(text.as_bytes())?;
    output.push(0)?;
    Ok(())
}

#[tactic(auto, unfolding(crate::specs::Writing::basic_written))]
fn string<O: Endian>(at: usize, content: &str, output: &mut Vec<u8>) -> Result<(), MarshalFault>
    requires place { at < 8 }
    ensures { Gives (λ _. output.new.items) result
        (basic_written O.order at (a_string content.now) output.old.items) }
{
    let len = string_length(content)?;
    text::<O>(at, len, content, output)
}

#[tactic(auto, unfolding(crate::specs::Writing::basic_written))]
fn path<O: Endian>(at: usize, content: &str, output: &mut Vec<u8>) -> Result<(), MarshalFault>
    requires place { at < 8 }
    ensures { Gives (λ _. output.new.items) result
        (basic_written O.order at (an_object_path content.now) output.old.items) }
{
    let len = string_length(content)?;
    if ObjectPath::parse(content).is_err() {
        return Err(MarshalFault::Path);
    }
    text::<O>(at, len, content, output)
}

/// The text of a signature after its length.
fn short_text(text: &[u8], output: &mut Vec<u8>) -> Result<(), MarshalFault>
    requires { length text.now ≤ 255 }
    ensures { Gives (λ _. output.new.items) result
        (Ok (output.old.items ++ (length text.now ∷ ended text.now))) }
{
    output.push(text.len() as u8)?;
    output.extend_from_slice(text)?;
    output.push(0)?;
    Ok(())
}

fn signature(alloc: Global, types: &[DataType], output: &mut Vec<u8>) -> Result<(), MarshalFault>
    requires { IsSignature (types_of types.now) }
    ensures { Gives (λ _. output.new.items) result
        (Ok (output.old.items ++ signature_spelling (types_of types.now))) }
{
    let mut text = Vec::new(alloc);
    type_codes(types, &mut text)?;
    short_text(&text, output)
}

#[tactic(auto, unfolding(crate::specs::Writing::basic_written))]
fn basic<O: Endian>(
    alloc: Global,
    value: &BasicValue,
    at: usize,
    output: &mut Vec<u8>,
) -> Result<(), MarshalFault>
    requires place { at < 8 }
    ensures { Gives (λ _. output.new.items) result
        (basic_written O.order at (basic_of value.now) output.old.items) }
{
    match value {
        BasicValue::Byte(number) => {
            output.push(*number)?;
            Ok(())
        }
        BasicValue::Boolean(value) => number32::<O>(at, u32::from(*value), output),
        BasicValue::Int16(number) => number16::<O>(at, number.cast_unsigned(), output),
        BasicValue::Uint16(number) => number16::<O>(at, *number, output),
        BasicValue::Int32(number) => number32::<O>(at, number.cast_unsigned(), output),
        BasicValue::Uint32(number) => number32::<O>(at, *number, output),
        BasicValue::Int64(number) => number64::<O>(at, number.cast_unsigned(), output),
        BasicValue::Uint64(number) => number64::<O>(at, *number, output),
        BasicValue::Double(eight) => {
            padding(8, at, output)?;
            output.extend_from_slice(eight)?;
            Ok(())
        }
        BasicValue::String(content) => string::<O>(at, content, output),
        BasicValue::ObjectPath(content) => path::<O>(at, content, output),
        BasicValue::Signature(one) => signature(alloc, &one.types, output),
    }
}

/// The signature of a variant that holds the value.
#[tactic(auto, unfolding(crate::specs::Writing::variant_type_written))]
fn variant_type(alloc: Global, held: &Value, output: &mut Vec<u8>) -> Result<(), MarshalFault>
    ensures { Gives (λ _. output.new.items) result
        (variant_type_written (type_of (val_of held.now)) output.old.items) }
{
    let mut text = Vec::new(alloc);
    value_code(held, &mut text)?;
    Signature::from_bytes(alloc, &text)?;
    short_text(&text, output)
}

/// Where the first element stands after the length of an array, as the remainder by 8.
fn first(align: usize, at: usize) -> usize
    requires align { 0 < align }
    requires most { align ≤ 8 }
    requires room { at < 2 ^ 63 + 8 }
    ensures { result ≡ (after_length at + pad_len align (after_length at)) % 8 }
{
    let after = at + gap(4, at) + 4;
    (after + gap(align, after)) % 8
}

/// The bytes of an array's elements after their length.
#[tactic(auto, unfolding(crate::specs::Writing::array_written))]
fn sized<O: Endian>(
    align: usize,
    at: usize,
    inside: &[u8],
    output: &mut Vec<u8>,
) -> Result<(), MarshalFault>
    requires align { 0 < align }
    requires most { align ≤ 8 }
    requires place { at < 8 }
    ensures { Gives (λ _. output.new.items) result
        (array_written O.order align at output.old.items inside.now) }
{
    if inside.len() > MAX_ARRAY_LENGTH {
        return Err(MarshalFault::ArrayLength);
    }
    number32::<O>(at, inside.len() as u32, output)?;
    padding(align, at, output)?;
    output.extend_from_slice(inside)?;
    Ok(())
}

/// Whether the code of a value's type is this one.
fn has_code(alloc: Global, value: &Value, wanted: &[u8]) -> Result<bool, AllocError>
    ensures { IfOk result (λ b. b ≡ text_eq (code (type_of (val_of value.now))) wanted.now) }
{
    if let Value::Basic(basic) = value {
        return Ok([basic.basic_type().code()].as_slice() == wanted);
    }
    let mut own = Vec::new(alloc);
    value_code(value, &mut own)?;
    Ok(own.as_slice() == wanted)
}

/// A value, where so many containers may still stand in one another.
#[cycle(writers)]
#[tactic(auto, using(crate::proofs::ValueViews::val_dictionary))]
fn value<O: Endian>(
    alloc: Global,
    depth: u8,
    one: &Value,
    at: usize,
    output: &mut Vec<u8>,
) -> Result<(), MarshalFault>
    requires place { at < 8 }
    ensures { Gives (λ _. output.new.items) result
        (value_written (val_of one.now) depth O.order at output.old.items) }
{
    match one {
        Value::Basic(one) => basic::<O>(alloc, one, at, output),
        Value::Variant(held) => {
            if depth == 0 {
                return Err(MarshalFault::Depth);
            }
            variant::<O>(alloc, depth - 1, held, at, output)
        }
        Value::Array(of, items) => {
            if depth == 0 {
                return Err(MarshalFault::Depth);
            }
            array::<O>(alloc, depth - 1, of, items, at, output)
        }
        Value::Dictionary(key, of, items) => {
            if depth == 0 {
                return Err(MarshalFault::Depth);
            }
            dictionary::<O>(alloc, depth - 1, *key, of, items, at, output)
        }
        Value::Struct(fields) => {
            if depth == 0 {
                return Err(MarshalFault::Depth);
            }
            structure::<O>(alloc, depth - 1, fields, at, output)
        }
    }
}

#[cycle(writers)]
fn variant<O: Endian>(
    alloc: Global,
    depth: u8,
    held: &Value,
    at: usize,
    output: &mut Vec<u8>,
) -> Result<(), MarshalFault>
    requires place { at < 8 }
    ensures { Gives (λ _. output.new.items) result
        (and_then (variant_type_written (type_of (val_of held.now)) output.old.items)
        (value_written (val_of held.now) depth O.order at)) }
{
    variant_type(alloc, held, output)?;
    value::<O>(alloc, depth, held, at, output)
}

#[cycle(writers)]
fn array<O: Endian>(
    alloc: Global,
    depth: u8,
    of: &DataType,
    items: &[Value],
    at: usize,
    output: &mut Vec<u8>,
) -> Result<(), MarshalFault>
    requires place { at < 8 }
    ensures { Gives (λ _. output.new.items) result
        (and_then (elements_written (values_of items.now) depth O.order
        (first_place (ty_of of.now) (at + length output.old.items) % 8) (ty_of of.now) [])
        (array_written O.order (alignment (ty_of of.now)) at output.old.items)) }
{
    let align = of.alignment();
    let place = first(align, at + output.len());
    let inside = elements::<O>(alloc, depth, of, items, place)?;
    sized::<O>(align, at, &inside, output)
}

#[cycle(writers)]
fn dictionary<O: Endian>(
    alloc: Global,
    depth: u8,
    key: BasicType,
    of: &DataType,
    items: &[(BasicValue, Value)],
    at: usize,
    output: &mut Vec<u8>,
) -> Result<(), MarshalFault>
    requires place { at < 8 }
    ensures { Gives (λ _. output.new.items) result
        (and_then (elements_written (values (map entry_of items.now)) depth O.order
        (first_place (entry key (ty_of of.now)) (at + length output.old.items) % 8)
        (entry key (ty_of of.now)) []) (array_written O.order 8 at output.old.items)) }
{
    let place = first(ENTRY_ALIGNMENT, at + output.len());
    let inside = entries::<O>(alloc, depth, key, of, items, place)?;
    sized::<O>(ENTRY_ALIGNMENT, at, &inside, output)
}

#[cycle(writers)]
fn one_entry<O: Endian>(
    alloc: Global,
    depth: u8,
    key: &BasicValue,
    held: &Value,
    at: usize,
    output: &mut Vec<u8>,
) -> Result<(), MarshalFault>
    requires place { at < 8 }
    ensures { Gives (λ _. output.new.items) result
        (value_written (an_entry (basic_of key.now) (val_of held.now))
        depth O.order at output.old.items) }
{
    if depth == 0 {
        return Err(MarshalFault::Depth);
    }
    padding(ENTRY_ALIGNMENT, at, output)?;
    basic::<O>(alloc, key, at, output)?;
    value::<O>(alloc, depth - 1, held, at, output)
}

#[cycle(writers)]
fn structure<O: Endian>(
    alloc: Global,
    depth: u8,
    of: &[Value],
    at: usize,
    output: &mut Vec<u8>,
) -> Result<(), MarshalFault>
    requires place { at < 8 }
    ensures { Gives (λ _. output.new.items) result
        (if has_types (types_of_values (values_of of.now))
        then fields_written (values_of of.now) depth O.order at (padded 8 at output.old.items)
        else Err NotSigned) }
{
    if of.is_empty() {
        return Err(MarshalFault::Signature);
    }
    padding(STRUCT_ALIGNMENT, at, output)?;
    fields::<O>(alloc, depth, of, at, output)
}

#[cycle(writers)]
fn elements<O: Endian>(
    alloc: Global,
    depth: u8,
    of: &DataType,
    items: &[Value],
    at: usize,
) -> Result<Vec<u8>, MarshalFault>
    requires place { at < 8 }
    ensures { Gives (λ x. x.items) result
        (elements_written (values_of items.now) depth O.order at (ty_of of.now) []) }
{
    let mut wanted = Vec::new(alloc);
    type_code(of, &mut wanted)?;
    let mut inside = Vec::new(alloc);
    for one in items {
        if !has_code(alloc, one, &wanted)? {
            return Err(MarshalFault::Signature);
        }
        value::<O>(alloc, depth, one, at, &mut inside)?;
    }
    Ok(inside)
}

/// The code of a dict entry's type, where its value has this code.
fn entry_code(key: BasicType, of: &[u8], output: &mut Vec<u8>) -> Result<(), AllocError>
    ensures { OnOk result (output.new.items
        ≡ output.old.items ++ (entry_begin ∷ basic_code key ∷ (of.now ++ entry_end ∷ []))) }
{
    output.push(b'{')?;
    output.push(key.code())?;
    output.extend_from_slice(of)?;
    output.push(b'}')?;
    Ok(())
}

/// Whether the code of an entry's type is this one.
fn entry_has_code(
    alloc: Global,
    key: &BasicValue,
    held: &Value,
    wanted: &[u8],
) -> Result<bool, AllocError>
    ensures { IfOk result (λ b.
        b ≡ text_eq (code (type_of (an_entry (basic_of key.now) (val_of held.now)))) wanted.now) }
{
    if let Value::Basic(basic) = held {
        let own = [
            b'{',
            key.basic_type().code(),
            basic.basic_type().code(),
            b'}',
        ];
        return Ok(own.as_slice() == wanted);
    }
    let mut of = Vec::new(alloc);
    value_code(held, &mut of)?;
    let mut own = Vec::new(alloc);
    entry_code(key.basic_type(), &of, &mut own)?;
    Ok(own.as_slice() == wanted)
}

#[cycle(writers)]
fn entries<O: Endian>(
    alloc: Global,
    depth: u8,
    key: BasicType,
    of: &DataType,
    items: &[(BasicValue, Value)],
    at: usize,
) -> Result<Vec<u8>, MarshalFault>
    requires place { at < 8 }
    ensures { Gives (λ x. x.items) result (elements_written (values (map entry_of items.now))
        depth O.order at (entry key (ty_of of.now)) []) }
{
    let mut of_value = Vec::new(alloc);
    type_code(of, &mut of_value)?;
    let mut wanted = Vec::new(alloc);
    entry_code(key, &of_value, &mut wanted)?;
    let mut inside = Vec::new(alloc);
    for one in items {
        if !entry_has_code(alloc, &one.0, &one.1, &wanted)? {
            return Err(MarshalFault::Signature);
        }
        one_entry::<O>(alloc, depth, &one.0, &one.1, at, &mut inside)?;
    }
    Ok(inside)
}

#[cycle(writers)]
fn fields<O: Endian>(
    alloc: Global,
    depth: u8,
    of: &[Value],
    at: usize,
    output: &mut Vec<u8>,
) -> Result<(), MarshalFault>
    requires place { at < 8 }
    ensures { Gives (λ _. output.new.items) result
        (fields_written (values_of of.now) depth O.order at output.old.items) }
{
    for one in of {
        value::<O>(alloc, depth, one, at, output)?;
    }
    Ok(())
}

fn written<O: Endian>(alloc: Global, offset: usize, of: &[Value]) -> Result<Vec<u8>, MarshalFault>
    ensures { Gives (λ x. x.items) result (encode_at O.order offset (values_of of.now)) }
{
    let mut text = Vec::new(alloc);
    value_codes(of, &mut text)?;
    Signature::from_bytes(alloc, &text)?;
    let mut bytes = Vec::new(alloc);
    fields::<O>(alloc, MAX_CONTAINER_DEPTH, of, offset % 8, &mut bytes)?;
    Ok(bytes)
}

fn all_written(
    alloc: Global,
    order: Order,
    offset: usize,
    of: &[Value],
) -> Result<Vec<u8>, MarshalFault>
    ensures { Gives (λ x. x.items) result (encode_at order offset (values_of of.now)) }
{
    match order {
        Order::Little => written::<LittleEndian>(alloc, offset, of),
        Order::Big => written::<BigEndian>(alloc, offset, of),
    }
}

/// Appends the bytes of the values, where the first byte stands at this offset of the message
/// ("Marshaling (Wire Format)" of the D-Bus Specification). Refused, the output is as before:
/// `NoMemory` aside, only values that no bytes spell are refused. `Signature` is the fault of a
/// value whose type is none or another than its array's, `NulInText`, `Path` and `ArrayLength`
/// those of texts and of arrays and strings that are too long, `Depth` that of more than 64
/// containers in one another.
pub fn encode(
    alloc: Global,
    order: Order,
    offset: usize,
    values: &[Value],
    output: &mut Vec<u8>,
) -> Result<(), MarshalFault>
    // What is appended is a spelling of the values, under the types that they have.
    ensures appended { OnOk result ((bytes : List ℕ)
        × (output.new.items ≡ output.old.items ++ bytes)
        × Spells order offset (types_of_values (values_of values.now))
        (values_of values.now) bytes) }
    ensures kept { OnErr result (output.new.items ≡ output.old.items) }
    // Values are refused only where they have no spelling, unless memory runs out.
    ensures refused { IfErr result (λ e. e ≢ NoMemory → (ts : Tys) (bytes : List ℕ)
        → Spells order offset ts (values_of values.now) bytes → ⊥) }
    // Which fault it is.
    ensures exact { Gives (λ _. output.new.items) result
        (and_then (encode_at order offset (values_of values.now))
        (λ bytes. Ok (output.old.items ++ bytes))) }
{
    let bytes = all_written(alloc, order, offset, values)?;
    output.extend_from_slice(&bytes)?;
    Ok(())
}
