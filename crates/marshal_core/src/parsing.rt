//! Reading signatures.

ghost use Rattle.std.specs.Prelude.{◌≡◌, ◌+◌, ◌<◌, ◌≤◌, length, IfOk};
ghost use Rattle.marshal_core.specs.Types.{entry, ty_of, types_of};
ghost use Rattle.marshal_core.specs.Signatures.{array_type_at, basic_type_at, complete_type_at, entry_end_at, entry_type_at, key_type_at, not_a_code, signature_of, struct_type_at, type_at, types_at, variant_type_of};
ghost use Rattle.marshal_core.specs.Faults.{Gives, Tells};

use crate::data_type::{BasicType, DataType};
use crate::fault::MarshalFault;
use crate::limits::{MAX_ARRAY_NESTING, MAX_SIGNATURE_LENGTH, MAX_STRUCT_NESTING};
use std::alloc::Global;

/// The fault of a letter that is no type's.
fn not_a_type(letter: u8) -> MarshalFault
    ensures { result ≡ not_a_code letter }
{
    if letter == b'h' {
        MarshalFault::Descriptor
    } else {
        MarshalFault::Signature
    }
}

#[tactic(auto, unfolding(crate::specs::Signatures::key_type_at))]
fn basic_type(text: &[u8]) -> Result<(BasicType, &[u8]), MarshalFault>
    ensures reads { Tells (λ x. (x.0, x.1.now)) result (key_type_at text.now) }
    ensures shorter { IfOk result (λ x. length x.1.now < length text.now) }
{
    let Some((first, rest)) = text.split_first() else {
        return Err(MarshalFault::Signature);
    };
    match BasicType::from_code(*first) {
        Some(basic) => Ok((basic, rest)),
        None => Err(not_a_type(*first)),
    }
}

#[tactic(auto, unfolding(crate::specs::Signatures::entry_end_at))]
fn entry_end(text: &[u8]) -> Result<&[u8], MarshalFault>
    ensures reads { Tells (λ x. x.now) result (entry_end_at text.now) }
    ensures shorter { IfOk result (λ x. length x.now < length text.now) }
{
    let Some((first, rest)) = text.split_first() else {
        return Err(MarshalFault::Signature);
    };
    if *first == b'}' {
        Ok(rest)
    } else {
        Err(not_a_type(*first))
    }
}

#[tactic(auto, unfolding(crate::specs::Signatures::basic_type_at), using(crate::proofs::Views::ty_basic))]
fn basic_data_type(text: &[u8]) -> Result<(DataType, &[u8]), MarshalFault>
    ensures reads { Tells (λ x. (ty_of x.0, x.1.now)) result (basic_type_at text.now) }
    ensures shorter { IfOk result (λ x. length x.1.now < length text.now) }
{
    let (basic, rest) = basic_type(text)?;
    Ok((DataType::Basic(basic), rest))
}

/// The types of key and value of a dict entry.
#[cycle(types)]
#[tactic(auto, unfolding(crate::specs::Signatures::entry_type_at))]
fn entry_type(
    alloc: Global,
    arrays: u8,
    structs: u8,
    text: &[u8],
) -> Result<(BasicType, DataType, &[u8]), MarshalFault>
    requires { arrays + structs < 65 }
    ensures reads { Gives (λ x. (entry x.0 (ty_of x.1), x.2.now)) result
        (entry_type_at (type_at (arrays + structs + 1) arrays structs) text.now) }
    ensures shorter { IfOk result (λ x. length x.2.now < length text.now) }
{
    let (key, rest) = basic_type(text)?;
    let (value, rest) = complete_type(alloc, arrays, structs, rest)?;
    let rest = entry_end(rest)?;
    Ok((key, value, rest))
}

/// An array, or a dictionary, after its letter.
#[cycle(types)]
#[tactic(auto, unfolding(crate::specs::Signatures::array_type_at, crate::specs::Signatures::element_type_at))]
fn array_type(
    alloc: Global,
    arrays: u8,
    structs: u8,
    text: &[u8],
) -> Result<(DataType, &[u8]), MarshalFault>
    requires { arrays + structs < 65 }
    ensures reads { Gives (λ x. (ty_of x.0, x.1.now)) result
        (array_type_at (type_at (arrays + structs + 1) arrays structs) text.now) }
    ensures shorter { IfOk result (λ x. length x.1.now < length text.now) }
{
    if let Some((first, behind)) = text.split_first() {
        if *first == b'{' {
            let (key, value, rest) = entry_type(alloc, arrays, structs, behind)?;
            return Ok((DataType::Dictionary(key, Box::new(alloc, value)?), rest));
        }
    }
    let (element, rest) = complete_type(alloc, arrays, structs, text)?;
    Ok((DataType::Array(Box::new(alloc, element)?), rest))
}

/// A struct, after its parenthesis.
#[cycle(types)]
#[tactic(auto, unfolding(crate::specs::Signatures::struct_type_at))]
fn struct_type(
    alloc: Global,
    arrays: u8,
    structs: u8,
    text: &[u8],
) -> Result<(DataType, &[u8]), MarshalFault>
    requires { arrays + structs < 65 }
    ensures reads { Gives (λ x. (ty_of x.0, x.1.now)) result
        (struct_type_at (type_at (arrays + structs + 1) arrays structs) text.now) }
    ensures within { IfOk result (λ x. length x.1.now ≤ length text.now) }
{
    let (fields, rest) = types(alloc, true, arrays, structs, text)?;
    if fields.is_empty() {
        return Err(MarshalFault::Signature);
    }
    Ok((DataType::Struct(fields), rest))
}

/// A single complete type, in which so many arrays and so many structs may stand in one another.
#[cycle(types)]
fn complete_type(
    alloc: Global,
    arrays: u8,
    structs: u8,
    text: &[u8],
) -> Result<(DataType, &[u8]), MarshalFault>
    requires { arrays + structs < 65 }
    ensures reads { Gives (λ x. (ty_of x.0, x.1.now)) result
        (type_at (arrays + structs + 1) arrays structs text.now) }
    ensures shorter { IfOk result (λ x. length x.1.now < length text.now) }
{
    let Some((first, rest)) = text.split_first() else {
        return Err(MarshalFault::Signature);
    };
    if *first == b'v' {
        return Ok((DataType::Variant, rest));
    }
    if *first == b'a' {
        if arrays == 0 {
            return Err(MarshalFault::Signature);
        }
        return array_type(alloc, arrays - 1, structs, rest);
    }
    if *first == b'(' {
        if structs == 0 {
            return Err(MarshalFault::Signature);
        }
        return struct_type(alloc, arrays, structs - 1, rest);
    }
    basic_data_type(text)
}

/// Types one after the other: those within a struct to its end, others to the end of the text.
#[cycle(types)]
fn types(
    alloc: Global,
    inside: bool,
    arrays: u8,
    structs: u8,
    text: &[u8],
) -> Result<(Vec<DataType>, &[u8]), MarshalFault>
    requires { arrays + structs < 65 }
    ensures reads { Gives (λ x. (types_of x.0.items, x.1.now)) result
        (types_at inside (type_at (arrays + structs + 1) arrays structs)
        (length text.now) text.now) }
    ensures within { IfOk result (λ x. length x.1.now ≤ length text.now) }
{
    let mut types = Vec::new(alloc);
    let mut rest = text;
    'each: while let Some((first, behind)) = rest.split_first() {
        if inside && *first == b')' {
            return Ok((types, behind));
        }
        let (one, after) = complete_type(alloc, arrays, structs, rest)?;
        types.push(one)?;
        rest = after;
    }
    if inside {
        return Err(MarshalFault::Signature);
    }
    Ok((types, rest))
}

/// The types of a signature.
#[tactic(auto, unfolding(crate::specs::Signatures::signature_of))]
pub fn signature_types(alloc: Global, text: &[u8]) -> Result<Vec<DataType>, MarshalFault>
    ensures { Gives (λ x. types_of x.items) result (signature_of text.now) }
{
    if text.len() > MAX_SIGNATURE_LENGTH {
        return Err(MarshalFault::Signature);
    }
    let (types, _rest) = types(alloc, false, MAX_ARRAY_NESTING, MAX_STRUCT_NESTING, text)?;
    Ok(types)
}

/// The one type of a variant's signature.
#[tactic(auto, unfolding(crate::specs::Signatures::variant_type_of))]
pub fn variant_type(alloc: Global, text: &[u8]) -> Result<DataType, MarshalFault>
    ensures { Gives (λ x. ty_of x) result (variant_type_of text.now) }
{
    let (one, rest) = complete_type(alloc, MAX_ARRAY_NESTING, MAX_STRUCT_NESTING, text)?;
    if rest.is_empty() {
        Ok(one)
    } else {
        Err(MarshalFault::Signature)
    }
}
