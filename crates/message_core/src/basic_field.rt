//! Header fields that the standard names: all of them have basic values.

ghost use Rattle.std.specs.Prelude.{◌≡◌, ◌<◌, ◌≤◌, ◌+◌, ◌^◌, ◌++◌, ◌↔◌, ℕ, List, IsTrue, length, take, slice_index, IfSome, IfNone};
ghost use Rattle.std.specs.Int.{w32};
ghost use Rattle.marshal_core.specs.declared.data_type.BasicType.{BasicType};
ghost use Rattle.marshal_core.specs.declared.data_type.BasicType.TheVariants as of_type;
ghost use Rattle.marshal_core.specs.Signatures.{basic_code};
ghost use Rattle.marshal_core.specs.Spelling.{ended, number_bytes};
ghost use Rattle.message_core.specs.Kinds.{code_of};
ghost use Rattle.message_core.specs.HeaderFields.{IsStringOf, IsNumberOf};
ghost use Rattle.message_core.specs.BasicFields.{BeginsNoString, BeginsValue, BeginsNoValue, BeginsBasic, BeginsNoBasic};

use crate::announcement::number;
use crate::header_field::HeaderField;
use marshal_check::Types;
use marshal_core::Order;
use names::{BusName, ErrorName, Interface, Member, ObjectPath};

/// The bytes that begin here as a string does: behind their length, and before a zero byte. They
/// are not looked at.
fn string(order: Order, bytes: &[u8]) -> Option<&[u8]>
    ensures some { IfSome result (λ text. (length text.now < 2 ^ 32) × (rest : List ℕ)
        × (bytes.now ≡ number_bytes order w32 (length text.now) ++ (ended text.now ++ rest))) }
    ensures none { IfNone result (BeginsNoString order bytes.now) }
{
    if bytes.len() < 4 {
        return None;
    }
    let length = number(order, 0, bytes) as usize;
    let (_, rest) = bytes.split_at(4);
    if rest.len() <= length {
        return None;
    }
    let (text, end) = rest.split_at(length);
    if end[0] != 0 {
        return None;
    }
    Some(text)
}

/// Whether the field takes this string. All that such fields take are names, so their bytes are
/// looked at once.
fn takes_string(field: HeaderField, text: &[u8]) -> bool
    ensures { IsTrue result ↔ IsStringOf field text.now }
{
    match field {
        HeaderField::Interface => Interface::check(text).is_ok(),
        HeaderField::Member => Member::check(text).is_ok(),
        HeaderField::ErrorName => ErrorName::check(text).is_ok(),
        HeaderField::Destination => BusName::check(text).is_ok(),
        HeaderField::Sender => BusName::check(text).is_ok(),
        _ => false,
    }
}

/// Whether the field takes this number.
fn takes_number(field: HeaderField, number: u32) -> bool
    ensures { IsTrue result ↔ IsNumberOf field number }
{
    match field {
        HeaderField::ReplySerial => number != 0,
        HeaderField::UnixFds => number == 0,
        _ => false,
    }
}

/// How many bytes the string takes that begins here, if the field takes it.
fn string_value(order: Order, field: HeaderField, bytes: &[u8]) -> Option<usize>
    ensures some { IfSome result (BeginsValue order field of_type.String bytes.now) }
    ensures none { IfNone result (BeginsNoValue order field of_type.String bytes.now) }
{
    let text = string(order, bytes)?;
    if takes_string(field, text) {
        return Some(5 + text.len());
    }
    None
}

/// How many bytes the object path takes that begins here, if the field takes one.
fn path_value(order: Order, field: HeaderField, bytes: &[u8]) -> Option<usize>
    ensures some { IfSome result (BeginsValue order field of_type.ObjectPath bytes.now) }
    ensures none { IfNone result (BeginsNoValue order field of_type.ObjectPath bytes.now) }
{
    let HeaderField::Path = field else {
        return None;
    };
    let text = string(order, bytes)?;
    if ObjectPath::check(text).is_ok() {
        return Some(5 + text.len());
    }
    None
}

/// How many bytes the number takes that begins here, if the field takes it.
fn number_value(order: Order, field: HeaderField, bytes: &[u8]) -> Option<usize>
    ensures some { IfSome result (BeginsValue order field of_type.Uint32 bytes.now) }
    ensures none { IfNone result (BeginsNoValue order field of_type.Uint32 bytes.now) }
{
    if bytes.len() < 4 {
        return None;
    }
    if takes_number(field, number(order, 0, bytes)) {
        return Some(4);
    }
    None
}

/// How many bytes the signature takes that begins here, if the field takes one.
fn signature_value(order: Order, field: HeaderField, bytes: &[u8]) -> Option<usize>
    ensures some { IfSome result (BeginsValue order field of_type.Signature bytes.now) }
    ensures none { IfNone result (BeginsNoValue order field of_type.Signature bytes.now) }
{
    let _ = order;
    let HeaderField::Signature = field else {
        return None;
    };
    let (first, rest) = bytes.split_first()?;
    let length = *first as usize;
    if rest.len() <= length {
        return None;
    }
    let (text, end) = rest.split_at(length);
    if end[0] != 0 {
        return None;
    }
    if Types::from_bytes(text).is_ok() {
        return Some(2 + length);
    }
    None
}

/// How many bytes the value takes that begins here, behind the code of its type.
fn value(order: Order, field: HeaderField, code: u8, bytes: &[u8]) -> Option<usize>
    ensures some { IfSome result (λ n. (b : BasicType) × (code ≡ basic_code b)
        × BeginsValue order field b bytes.now n) }
    ensures none { IfNone result ((b : BasicType) → code ≡ basic_code b
        → BeginsNoValue order field b bytes.now) }
{
    if code == b's' {
        return string_value(order, field, bytes);
    }
    if code == b'o' {
        return path_value(order, field, bytes);
    }
    if code == b'u' {
        return number_value(order, field, bytes);
    }
    if code == b'g' {
        return signature_value(order, field, bytes);
    }
    None
}

/// How many bytes the field takes that begins here with its code.
pub fn basic_field(order: Order, field: HeaderField, bytes: &[u8]) -> Option<usize>
    requires begins { 0 < length bytes.now }
    requires code { slice_index bytes.now 0 ≡ code_of field }
    ensures some { IfSome result (BeginsBasic order field bytes.now) }
    ensures none { IfNone result (BeginsNoBasic order field bytes.now) }
{
    if bytes.len() < 4 {
        return None;
    }
    if bytes[1] != 1 || bytes[3] != 0 {
        return None;
    }
    let code = bytes[2];
    let (_, rest) = bytes.split_at(4);
    let length = value(order, field, code, rest)?;
    Some(4 + length)
}
