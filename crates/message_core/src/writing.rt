//! Putting messages of one's own together.

ghost use Rattle.std.specs.Prelude.{◌≡◌, ◌≢◌, ◌<◌, ◌≤◌, ◌⊎◌, ◌^◌, ◌++◌, [], ℕ, List, length, OnOk, OnErr, IfOk, IfErr, false};
ghost use Rattle.marshal_core.specs.Types.{Tys};
ghost use Rattle.marshal_core.specs.Values.{Vals, a_string, an_object_path, a_uint32};
ghost use Rattle.marshal_core.specs.Signatures.{codes, IsSignature};
ghost use Rattle.marshal_core.specs.Spelling.{IsString, has_zero, pads};
ghost use Rattle.message_core.specs.declared.fault.FrameFault.TheVariants.{NoMemory, TooLong};
ghost use Rattle.message_core.specs.declared.header_field.HeaderField.TheVariants as field_of;
ghost use Rattle.message_core.specs.HeaderFields.{Field};
ghost use Rattle.message_core.specs.Headers.{AreWritten, AreKnownValues, IsLaidOut, optional_field, signature_field, fields_of, message_of, text_field_bytes, whole_bytes};
ghost use Rattle.message_core.specs.Announcements.{order_byte as order_byte_of};
ghost use Rattle.marshal_core.specs.declared.order.Order.{Order};
ghost use Rattle.match_rules.specs.Kinds.{kind_number};

use crate::announcement::FIXED_LENGTH;
use crate::fault::FrameFault;
use crate::header::Header;
use crate::header_field::HeaderField;
use crate::in_room::{self, gap, put, put_body, put_number};
use byteorder::{BigEndian, LittleEndian};
use marshal::parts::Endian;
use marshal_core::Order;
use match_rules::MessageKind;
use names::{BusName, ErrorName, Interface, Member, ObjectPath};
use std::alloc::Global;

/// A name that a header field of a string holds.
trait Name {
    ghost text: { Self → List ℕ };

    fn as_text(&self) -> &str
        ensures value { result.now ≡ text self.now }
        ensures short { length result.now ≤ 255 }
        ensures clean { has_zero result.now ≡ false };
}

impl Name for Interface {
    ghost text = { λ name. name };

    fn as_text(&self) -> &str {
        self.as_str()
    }
}

impl Name for Member {
    ghost text = { λ name. name };

    fn as_text(&self) -> &str {
        self.as_str()
    }
}

impl Name for ErrorName {
    ghost text = { λ name. name };

    fn as_text(&self) -> &str {
        self.as_str()
    }
}

impl Name for BusName {
    ghost text = { λ name. name };

    fn as_text(&self) -> &str {
        self.as_str()
    }
}

/// Puts a field of a text.
fn put_text<E: Endian>(
    output: &mut Vec<u8>,
    field: HeaderField,
    letter: u8,
    text: &str,
) -> Result<(), FrameFault>
    requires clean { has_zero text.now ≡ false }
    ensures put { OnOk result (output.new.items ≡ output.old.items
        ++ (pads 8 (length output.old.items) ++ text_field_bytes E.order field letter text.now)) }
    ensures string { OnOk result (IsString text.now) }
    ensures refused { IfErr result (λ f. f ≢ NoMemory
        → (f ≡ TooLong) × (2 ^ 32 ≤ length text.now)) }
{
    let Ok(length) = u32::try_from(text.len()) else {
        return Err(FrameFault::TooLong);
    };
    output.reserve(17 + length as usize)?;
    let at = output.len();
    in_room::put_text::<E>(output, at, field, letter, text);
    Ok(())
}

/// Puts the field of a name, where there is one.
fn put_name<E: Endian, N: Name>(
    output: &mut Vec<u8>,
    field: HeaderField,
    name: &Option<N>,
) -> Result<(), FrameFault>
    ensures put { (sent : List Field) → AreWritten E.order sent output.old.items
        → OnOk result (AreWritten E.order (sent
        ++ optional_field field (λ n. a_string (N.text n)) name.now) output.new.items) }
    ensures memory { IfErr result (λ f. f ≡ NoMemory) }
{
    match name {
        Some(name) => put_text::<E>(output, field, b's', name.as_text()),
        None => Ok(()),
    }
}

/// Puts PATH, where there is one.
fn put_path<E: Endian>(
    output: &mut Vec<u8>,
    path: &Option<ObjectPath<'_>>,
) -> Result<(), FrameFault>
    ensures put { (sent : List Field) → AreWritten E.order sent output.old.items
        → OnOk result (AreWritten E.order (sent
        ++ optional_field field_of.Path an_object_path path.now) output.new.items) }
    ensures refused { IfErr result (λ f. f ≢ NoMemory
        → (f ≡ TooLong) × (AreKnownValues (optional_field field_of.Path an_object_path path.now)
        → ⊥)) }
{
    match path {
        Some(path) => put_text::<E>(output, HeaderField::Path, b'o', path.as_str()),
        None => Ok(()),
    }
}

/// Puts REPLY_SERIAL, where there is one.
fn put_reply_serial<E: Endian>(output: &mut Vec<u8>, serial: Option<u32>) -> Result<(), FrameFault>
    ensures put { (sent : List Field) → AreWritten E.order sent output.old.items
        → OnOk result (AreWritten E.order (sent
        ++ optional_field field_of.ReplySerial a_uint32 serial) output.new.items) }
    ensures memory { IfErr result (λ f. f ≡ NoMemory) }
{
    match serial {
        Some(serial) => {
            output.reserve(15)?;
            in_room::put_reply_serial::<E>(output, serial);
            Ok(())
        }
        None => Ok(()),
    }
}

/// Puts SIGNATURE, where the body has values.
fn put_signature(output: &mut Vec<u8>, signature: &[u8]) -> Result<(), FrameFault>
    ensures put { (order : Order) (types : Tys) (sent : List Field) → signature.now ≡ codes types
        → IsSignature types → AreWritten order sent output.old.items
        → OnOk result (AreWritten order (sent ++ signature_field types) output.new.items) }
    ensures refused { IfErr result (λ f. f ≢ NoMemory → (types : Tys) → signature.now ≡ codes types
        → IsSignature types → ⊥) }
{
    if signature.is_empty() {
        return Ok(());
    }
    if signature.len() > 255 {
        return Err(FrameFault::Field(8));
    }
    output.reserve(13 + signature.len())?;
    in_room::put_signature(output, signature);
    Ok(())
}

fn put_fields_in<E: Endian>(
    output: &mut Vec<u8>,
    header: &Header<'_>,
    signature: &[u8],
) -> Result<(), FrameFault>
    ensures put { (types : Tys) → signature.now ≡ codes types → IsSignature types
        → output.old.items ≡ [] → OnOk result
        (AreWritten E.order (fields_of header.now types) output.new.items) }
    ensures refused { IfErr result (λ f. f ≢ NoMemory → (types : Tys) → signature.now ≡ codes types
        → IsSignature types → (f ≡ TooLong) × (AreKnownValues (fields_of header.now types) → ⊥)) }
{
    put_path::<E>(output, &header.path)?;
    put_name::<E, _>(output, HeaderField::Interface, &header.interface)?;
    put_name::<E, _>(output, HeaderField::Member, &header.member)?;
    put_name::<E, _>(output, HeaderField::ErrorName, &header.error_name)?;
    put_reply_serial::<E>(output, header.reply_serial)?;
    put_name::<E, _>(output, HeaderField::Destination, &header.destination)?;
    put_name::<E, _>(output, HeaderField::Sender, &header.sender)?;
    put_signature(output, signature)
}

/// Puts the fields of a header by rising code.
pub fn put_fields(
    output: &mut Vec<u8>,
    header: &Header<'_>,
    signature: &[u8],
) -> Result<(), FrameFault>
    ensures put { (types : Tys) → signature.now ≡ codes types → IsSignature types
        → output.old.items ≡ [] → OnOk result
        (AreWritten header.now.order (fields_of header.now types) output.new.items) }
    ensures refused { IfErr result (λ f. f ≢ NoMemory → (types : Tys) → signature.now ≡ codes types
        → IsSignature types → (f ≡ TooLong) × (AreKnownValues (fields_of header.now types) → ⊥)) }
{
    match header.order {
        Order::Little => put_fields_in::<LittleEndian>(output, header, signature),
        Order::Big => put_fields_in::<BigEndian>(output, header, signature),
    }
}

/// Appends a message of the parts given, which begins with the byte of its order.
fn lay_out_in<E: Endian>(
    output: &mut Vec<u8>,
    order_byte: u8,
    kind: MessageKind,
    flags: u8,
    serial: u32,
    fields: &[u8],
    body: &[u8],
) -> Result<(), FrameFault>
    requires { order_byte ≡ order_byte_of E.order }
    ensures laid { OnOk result (output.new.items ≡ output.old.items
        ++ whole_bytes E.order (kind_number kind) flags serial fields.now body.now) }
    ensures fits { OnOk result ((length fields.now < 2 ^ 32) × (length body.now < 2 ^ 32)) }
    ensures kept { OnErr result (output.new.items ≡ output.old.items) }
    ensures refused { IfErr result (λ f. f ≢ NoMemory
        → (f ≡ TooLong) × ((2 ^ 32 ≤ length fields.now) ⊎ (2 ^ 32 ≤ length body.now))) }
{
    let (Ok(fields_length), Ok(body_length)) = (
        u32::try_from(fields.len()),
        u32::try_from(body.len()),
    ) else {
        return Err(FrameFault::TooLong);
    };
    let end = FIXED_LENGTH + fields.len();
    output.reserve(end + gap(end) + body.len())?;
    put(output, &[order_byte, kind.number(), flags, 1]);
    put_number::<E>(output, body_length);
    put_number::<E>(output, serial);
    put_number::<E>(output, fields_length);
    put(output, fields);
    put_body(output, end, body);
    Ok(())
}

/// Appends a message of the parts given: the fixed part, the fields, the padding, the body.
/// Refused, the output is as before.
pub fn lay_out(
    output: &mut Vec<u8>,
    order: Order,
    kind: MessageKind,
    flags: u8,
    serial: u32,
    fields: &[u8],
    body: &[u8],
) -> Result<(), FrameFault>
    ensures laid { OnOk result (output.new.items ≡ output.old.items
        ++ whole_bytes order (kind_number kind) flags serial fields.now body.now) }
    ensures fits { OnOk result ((length fields.now < 2 ^ 32) × (length body.now < 2 ^ 32)) }
    ensures kept { OnErr result (output.new.items ≡ output.old.items) }
    ensures refused { IfErr result (λ f. f ≢ NoMemory
        → (f ≡ TooLong) × ((2 ^ 32 ≤ length fields.now) ⊎ (2 ^ 32 ≤ length body.now))) }
{
    match order {
        Order::Little => lay_out_in::<LittleEndian>(
            output, b'l', kind, flags, serial, fields, body,
        ),
        Order::Big => lay_out_in::<BigEndian>(output, b'B', kind, flags, serial, fields, body),
    }
}

/// The bytes of the message of a header, these fields and this body.
pub fn whole_of(
    alloc: Global,
    header: &Header<'_>,
    fields: &[u8],
    body: &[u8],
) -> Result<Vec<u8>, FrameFault>
    ensures laid { IfOk result (λ bytes. (types : Tys) (values : Vals)
        → IsLaidOut (message_of header.now types values) fields.now body.now bytes.items) }
    ensures refused { IfErr result (λ f. f ≢ NoMemory
        → (f ≡ TooLong) × ((2 ^ 32 ≤ length fields.now) ⊎ (2 ^ 32 ≤ length body.now))) }
{
    let mut bytes = Vec::new(alloc);
    lay_out(
        &mut bytes,
        header.order,
        header.kind,
        header.flags,
        header.serial,
        fields,
        body,
    )?;
    Ok(bytes)
}
