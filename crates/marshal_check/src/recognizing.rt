//! Whether a text is a signature.

ghost use Rattle.std.specs.Prelude.{◌≡◌, ◌+◌, ◌<◌, ◌≤◌, length, IfOk};
ghost use Rattle.marshal_core.specs.Signatures.{array_type_at, entry_end_at, entry_type_at, key_type_at, not_a_code, signature_of, struct_type_at, type_at, types_at, variant_type_of};
ghost use Rattle.marshal_core.specs.Faults.{Tells};
ghost use Rattle.marshal_check.specs.Checking.{Ends, Leaves};

use crate::letters::at_end;
use marshal_core::limits::{MAX_ARRAY_NESTING, MAX_SIGNATURE_LENGTH, MAX_STRUCT_NESTING};
use marshal_core::{BasicType, MarshalFault};

/// The fault of a letter that is no type's.
fn not_a_type(letter: u8) -> MarshalFault
    ensures { result ≡ not_a_code letter }
{
    if letter == b'h' {
        MarshalFault::Descriptor
    } else {
        MarshalFault::Signature
    }
}

#[tactic(auto, unfolding(marshal_core::specs::Signatures::key_type_at))]
fn after_basic(text: &[u8]) -> Result<&[u8], MarshalFault>
    ensures reads { Leaves (λ x. x.now) result (key_type_at text.now) }
    ensures shorter { IfOk result (λ x. length x.now < length text.now) }
{
    let Some((first, rest)) = text.split_first() else {
        return Err(MarshalFault::Signature);
    };
    match BasicType::from_code(*first) {
        Some(_) => Ok(rest),
        None => Err(not_a_type(*first)),
    }
}

#[tactic(auto, unfolding(marshal_core::specs::Signatures::entry_end_at))]
fn after_entry_end(text: &[u8]) -> Result<&[u8], MarshalFault>
    ensures reads { Tells (λ x. x.now) result (entry_end_at text.now) }
    ensures shorter { IfOk result (λ x. length x.now < length text.now) }
{
    let Some((first, rest)) = text.split_first() else {
        return Err(MarshalFault::Signature);
    };
    if *first == b'}' {
        Ok(rest)
    } else {
        Err(not_a_type(*first))
    }
}

/// What follows a dict entry, after its brace.
#[cycle(types)]
#[tactic(auto, unfolding(marshal_core::specs::Signatures::entry_type_at))]
fn after_entry(arrays: u8, structs: u8, text: &[u8]) -> Result<&[u8], MarshalFault>
    requires { arrays + structs < 65 }
    ensures reads { Leaves (λ x. x.now) result
        (entry_type_at (type_at (arrays + structs + 1) arrays structs) text.now) }
    ensures shorter { IfOk result (λ x. length x.now < length text.now) }
{
    let rest = after_basic(text)?;
    let rest = after_type(arrays, structs, rest)?;
    after_entry_end(rest)
}

/// What follows an array, after its letter.
#[cycle(types)]
#[tactic(auto, unfolding(marshal_core::specs::Signatures::array_type_at, marshal_core::specs::Signatures::element_type_at))]
fn after_array(arrays: u8, structs: u8, text: &[u8]) -> Result<&[u8], MarshalFault>
    requires { arrays + structs < 65 }
    ensures reads { Leaves (λ x. x.now) result
        (array_type_at (type_at (arrays + structs + 1) arrays structs) text.now) }
    ensures shorter { IfOk result (λ x. length x.now < length text.now) }
{
    if let Some((first, behind)) = text.split_first() {
        if *first == b'{' {
            return after_entry(arrays, structs, behind);
        }
    }
    after_type(arrays, structs, text)
}

/// What follows a struct, after its parenthesis.
#[cycle(types)]
fn after_struct(arrays: u8, structs: u8, text: &[u8]) -> Result<&[u8], MarshalFault>
    requires { arrays + structs < 65 }
    ensures reads { Leaves (λ x. x.now) result
        (struct_type_at (type_at (arrays + structs + 1) arrays structs) text.now) }
    ensures within { IfOk result (λ x. length x.now ≤ length text.now) }
{
    if at_end(text) {
        return Err(MarshalFault::Signature);
    }
    after_types(true, arrays, structs, text)
}

/// What follows a single complete type, in which so many arrays and so many structs may stand in
/// one another.
#[cycle(types)]
fn after_type(arrays: u8, structs: u8, text: &[u8]) -> Result<&[u8], MarshalFault>
    requires { arrays + structs < 65 }
    ensures reads { Leaves (λ x. x.now) result
        (type_at (arrays + structs + 1) arrays structs text.now) }
    ensures shorter { IfOk result (λ x. length x.now < length text.now) }
{
    let Some((first, rest)) = text.split_first() else {
        return Err(MarshalFault::Signature);
    };
    if *first == b'v' {
        return Ok(rest);
    }
    if *first == b'a' {
        if arrays == 0 {
            return Err(MarshalFault::Signature);
        }
        return after_array(arrays - 1, structs, rest);
    }
    if *first == b'(' {
        if structs == 0 {
            return Err(MarshalFault::Signature);
        }
        return after_struct(arrays, structs - 1, rest);
    }
    after_basic(text)
}

/// What follows types that stand one after the other: those within a struct to its end, others to
/// the end of the text.
#[cycle(types)]
fn after_types(inside: bool, arrays: u8, structs: u8, text: &[u8]) -> Result<&[u8], MarshalFault>
    requires { arrays + structs < 65 }
    ensures reads { Leaves (λ x. x.now) result
        (types_at inside (type_at (arrays + structs + 1) arrays structs)
        (length text.now) text.now) }
    ensures within { IfOk result (λ x. length x.now ≤ length text.now) }
{
    let mut rest = text;
    'each: while let Some((first, behind)) = rest.split_first() {
        if inside && *first == b')' {
            return Ok(behind);
        }
        rest = after_type(arrays, structs, rest)?;
    }
    if inside {
        return Err(MarshalFault::Signature);
    }
    Ok(rest)
}

/// Whether a text is a signature; or the first fault from the left.
#[tactic(auto, unfolding(marshal_core::specs::Signatures::signature_of))]
pub fn is_signature(text: &[u8]) -> Result<(), MarshalFault>
    ensures { Ends result (signature_of text.now) }
{
    if text.len() > MAX_SIGNATURE_LENGTH {
        return Err(MarshalFault::Signature);
    }
    after_types(false, MAX_ARRAY_NESTING, MAX_STRUCT_NESTING, text)?;
    Ok(())
}

/// Whether a text is one single complete type, as the signature of a variant is.
#[tactic(auto, unfolding(marshal_core::specs::Signatures::variant_type_of))]
pub fn is_one_type(text: &[u8]) -> Result<(), MarshalFault>
    ensures { Ends result (variant_type_of text.now) }
{
    let rest = after_type(MAX_ARRAY_NESTING, MAX_STRUCT_NESTING, text)?;
    if rest.is_empty() {
        Ok(())
    } else {
        Err(MarshalFault::Signature)
    }
}
