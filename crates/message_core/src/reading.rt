//! Reading one whole message.

ghost use Rattle.std.specs.Prelude.{◌≡◌, ◌≢◌, ◌≤◌, ◌+◌, ◌∷◌, [], Ok, Some, None, IfOk, OnOk, IfErr, is_ok, true, false, length};
ghost use Rattle.marshal_core.specs.Signatures.{signature_of};
ghost use Rattle.marshal_core.specs.Types.{Tys};
ghost use Rattle.message_core.specs.declared.fault.FrameFault.TheVariants.{NoMemory, Field, Missing};
ghost use Rattle.message_core.specs.declared.header_field.HeaderField.{HeaderField};
ghost use Rattle.message_core.specs.Announcements.{whole_length, announced};
ghost use Rattle.message_core.specs.Kinds.{code_of, required as required_of};
ghost use Rattle.message_core.specs.Refusals.{IsBodyFault, IsRefused};
ghost use Rattle.message_core.specs.Said.{order_of as order_in};
ghost use Rattle.message_core.specs.Whole.{place_of as place_in, signature_part, text_part, number_part, unplaced, HasRoom, IsUtf8Part, Lends, IsBody, IsWhole};

use crate::announcement::{FIXED_LENGTH, MAXIMUM_LENGTH, number};
use crate::fault::FrameFault;
use crate::field_place::FieldPlace;
use crate::header_field::HeaderField;
use crate::header_fields::{has_code, is_zero, read_fields};
use marshal_check::{Types, check};
use marshal_core::Order;
use match_rules::MessageKind;
use std::alloc::Global;

/// The byte order that the first byte tells.
pub fn order_of(bytes: &[u8]) -> Order
    requires { 16 ≤ length bytes.now }
    ensures { result ≡ order_in bytes.now }
{
    if bytes[0] == b'B' {
        Order::Big
    } else {
        Order::Little
    }
}

/// The place of the field of a code.
pub fn place_of(places: &[FieldPlace], code: u8) -> Option<FieldPlace>
    ensures { result ≡ place_in code places.now }
{
    for place in places {
        if place.code == code {
            return Some(*place);
        }
    }
    None
}

/// The fields that a message of a type must have, by rising code.
fn required(kind: MessageKind) -> &'static [HeaderField]
    ensures { result.now ≡ required_of kind }
{
    match kind {
        MessageKind::MethodCall => &[HeaderField::Path, HeaderField::Member],
        MessageKind::MethodReturn => &[HeaderField::ReplySerial],
        MessageKind::Error => &[HeaderField::ErrorName, HeaderField::ReplySerial],
        MessageKind::Signal => &[
            HeaderField::Path,
            HeaderField::Interface,
            HeaderField::Member,
        ],
        MessageKind::Unknown(_) => &[],
    }
}

/// Looks for the first required field that isn't there.
fn check_required(kind: MessageKind, places: &[FieldPlace]) -> Result<(), FrameFault>
    ensures complete { OnOk result (unplaced (required_of kind) places.now ≡ None) }
    ensures missing { IfErr result (λ f. (k : HeaderField) × (f ≡ Missing (code_of k))
        × (unplaced (required_of kind) places.now ≡ Some k)) }
{
    for field in required(kind) {
        if !has_code(places, field.code()) {
            return Err(FrameFault::Missing(field.code()));
        }
    }
    Ok(())
}

/// Checks that the body has the values that its signature says, and no byte more.
pub fn check_body(order: Order, signature: &[u8], body: &[u8]) -> Result<(), FrameFault>
    ensures signed { OnOk result (is_ok (signature_of signature.now) ≡ true) }
    ensures unsigned { IfErr result (λ f. is_ok (signature_of signature.now) ≡ false
        → f ≡ Field 8) }
    ensures body { OnOk result ((types : Tys) → signature_of signature.now ≡ Ok types
        → IsBody order types body.now) }
    ensures fault { IfErr result (λ f. (types : Tys) → signature_of signature.now ≡ Ok types
        → IsBodyFault order types body.now f) }
{
    let Ok(types) = Types::from_bytes(signature) else {
        return Err(FrameFault::Field(8));
    };
    match check(order, 0, types, body) {
        Ok(length) if length < body.len() => Err(FrameFault::BodyLength),
        Ok(_) => Ok(()),
        Err(fault) => Err(FrameFault::Body(fault)),
    }
}

/// The text of SIGNATURE, empty without one.
pub fn signature_text<'a>(places: &[FieldPlace], bytes: &'a [u8]) -> &'a [u8]
    requires { HasRoom 6 bytes.now (place_in 8 places.now) }
    ensures { result.now ≡ signature_part (place_in 8 places.now) bytes.now }
{
    match place_of(places, HeaderField::Signature.code()) {
        Some(place) => &bytes[place.from + 5..place.to - 1],
        None => &[],
    }
}

/// Checks the parts of a message, and tells the places of its fields.
pub fn places_of(alloc: Global, bytes: &[u8]) -> Result<Vec<FieldPlace>, FrameFault>
    requires fixed { FIXED_LENGTH ≤ length bytes.now }
    requires small { length bytes.now ≤ MAXIMUM_LENGTH }
    requires whole { announced MAXIMUM_LENGTH bytes.now ≡ Ok (length bytes.now) }
    requires long { whole_length (order_in bytes.now) bytes.now ≡ length bytes.now }
    ensures whole { IfOk result (λ places. IsWhole bytes.now places.items) }
    ensures fault { IfErr result (λ f. f ≢ NoMemory → IsRefused bytes.now f) }
{
    let order = order_of(bytes);
    let length = number(order, 12, bytes) as usize;
    let end = FIXED_LENGTH + length;
    let places = read_fields(alloc, order, bytes, end)?;
    let begin = end + (8 - length % 8) % 8;
    if !is_zero(&bytes[end..begin]) {
        return Err(FrameFault::Field(0));
    }
    check_required(MessageKind::from(bytes[1]), &places)?;
    check_body(order, signature_text(&places, bytes), &bytes[begin..])?;
    Ok(places)
}

/// The text at a place, which is not looked at again.
pub fn text_at(place: Option<FieldPlace>, bytes: &[u8]) -> Option<&str>
    requires room { HasRoom 9 bytes.now place }
    requires utf8 { IsUtf8Part place bytes.now }
    ensures { Lends result (text_part place bytes.now) }
{
    let place = place?;
    let text = &bytes[place.from + 8..place.to - 1];
    // SAFETY: the place holds UTF-8, as the contract asks.
    Some(unsafe { std::str::from_utf8_unchecked(text) })
}

/// The number at a place.
pub fn number_at(order: Order, place: Option<FieldPlace>, bytes: &[u8]) -> Option<u32>
    requires { HasRoom 8 bytes.now place }
    ensures { result ≡ number_part order place bytes.now }
{
    let place = place?;
    Some(number(order, place.from + 4, bytes))
}
