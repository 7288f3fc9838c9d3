//! Putting the bytes of messages where there is room for them.

ghost use Rattle.std.specs.Prelude.{◌≡◌, ◌+◌, ◌++◌, ◌∷◌, [], ◌^◌, ◌<◌, ◌≤◌, List, length, vec_capacity};
ghost use Rattle.std.specs.Int.{w32};
ghost use Rattle.marshal_core.specs.declared.order.Order.{Order};
ghost use Rattle.marshal_core.specs.Types.{Tys};
ghost use Rattle.marshal_core.specs.Values.{a_uint32};
ghost use Rattle.marshal_core.specs.Signatures.{codes, IsSignature};
ghost use Rattle.marshal_core.specs.Spelling.{pad_len, pads, number_bytes};
ghost use Rattle.message_core.specs.declared.header_field.HeaderField.TheVariants as field_of;
ghost use Rattle.message_core.specs.HeaderFields.{Field};
ghost use Rattle.message_core.specs.Headers.{AreWritten, known_field, signature_field, text_field_bytes};
ghost use Rattle.message_core.specs.Kinds.{code_of};

use crate::header_field::HeaderField;
use marshal::parts::Endian;

/// How many bytes there are from a place to the next multiple of eight.
pub fn gap(at: usize) -> usize
    ensures { result ≡ pad_len 8 at }
{
    (8 - at % 8) % 8
}

/// Puts bytes.
pub fn put(output: &mut Vec<u8>, bytes: &[u8])
    requires { length output.old.items + length bytes.now ≤ vec_capacity output.old }
    ensures items { output.new.items ≡ output.old.items ++ bytes.now }
    ensures capacity { vec_capacity output.old ≤ vec_capacity output.new }
{
    let _ = output.extend_from_slice(bytes);
}

/// Puts a number.
pub fn put_number<E: Endian>(output: &mut Vec<u8>, number: u32)
    requires { length output.old.items + 4 ≤ vec_capacity output.old }
    ensures items { output.new.items ≡ output.old.items ++ number_bytes E.order w32 number }
    ensures capacity { vec_capacity output.old ≤ vec_capacity output.new }
{
    let mut four = [0; 4];
    E::write_u32(&mut four, number);
    put(output, &four);
}

/// Puts the padding from a place of the message to the next multiple of eight.
pub fn put_padding(output: &mut Vec<u8>, at: usize)
    requires { length output.old.items + pad_len 8 at ≤ vec_capacity output.old }
    ensures items { output.new.items ≡ output.old.items ++ pads 8 at }
    ensures capacity { vec_capacity output.old ≤ vec_capacity output.new }
{
    let zeros = [0u8; 8];
    put(output, &zeros[..gap(at)]);
}

/// Puts the padding behind the header fields, which end at a place of the message, and the body.
pub fn put_body(output: &mut Vec<u8>, end: usize, body: &[u8])
    requires { length output.old.items + (pad_len 8 end + length body.now)
        ≤ vec_capacity output.old }
    ensures items { output.new.items ≡ output.old.items ++ (pads 8 end ++ body.now) }
    ensures capacity { vec_capacity output.old ≤ vec_capacity output.new }
{
    put_padding(output, end);
    put(output, body);
}

/// Puts what comes before the value of a header field of a basic type, from a place of the message
/// on: the padding, its code, the letter of its type.
fn put_start(output: &mut Vec<u8>, at: usize, field: HeaderField, letter: u8)
    requires { length output.old.items + (pad_len 8 at + 4) ≤ vec_capacity output.old }
    ensures items { output.new.items
        ≡ output.old.items ++ (pads 8 at ++ (code_of field ∷ 1 ∷ letter ∷ 0 ∷ [])) }
    ensures capacity { vec_capacity output.old ≤ vec_capacity output.new }
{
    put_padding(output, at);
    put(output, &[field.code(), 1, letter, 0]);
}

/// Puts a header field of a text, from a place of the message on.
pub fn put_text<E: Endian>(
    output: &mut Vec<u8>,
    at: usize,
    field: HeaderField,
    letter: u8,
    text: &str,
)
    requires short { length text.now < 2 ^ 32 }
    requires room { length output.old.items + (pad_len 8 at + (9 + length text.now))
        ≤ vec_capacity output.old }
    ensures items { output.new.items
        ≡ output.old.items ++ (pads 8 at ++ text_field_bytes E.order field letter text.now) }
    ensures capacity { vec_capacity output.old ≤ vec_capacity output.new }
{
    put_start(output, at, field, letter);
    put_number::<E>(output, text.len() as u32);
    put(output, text.as_bytes());
    put(output, &[0]);
}

/// Puts REPLY_SERIAL behind the fields that stand there.
pub fn put_reply_serial<E: Endian>(fields: &mut Vec<u8>, serial: u32)
    requires room { length fields.old.items + 15 ≤ vec_capacity fields.old }
    ensures put { (sent : List Field) → AreWritten E.order sent fields.old.items
        → AreWritten E.order (sent ++ known_field field_of.ReplySerial (a_uint32 serial) ∷ [])
        fields.new.items }
    ensures capacity { vec_capacity fields.old ≤ vec_capacity fields.new }
    ensures room { length fields.new.items ≤ length fields.old.items + 15 }
{
    let at = fields.len();
    put_start(fields, at, HeaderField::ReplySerial, b'u');
    put_number::<E>(fields, serial);
}

/// Puts SIGNATURE behind the fields that stand there, where the body has values.
pub fn put_signature(fields: &mut Vec<u8>, signature: &[u8])
    requires short { length signature.now ≤ 255 }
    requires room { length fields.old.items + (13 + length signature.now)
        ≤ vec_capacity fields.old }
    ensures put { (order : Order) (types : Tys) (sent : List Field) → signature.now ≡ codes types
        → IsSignature types → AreWritten order sent fields.old.items
        → AreWritten order (sent ++ signature_field types) fields.new.items }
    ensures capacity { vec_capacity fields.old ≤ vec_capacity fields.new }
    ensures room { length fields.new.items
        ≤ length fields.old.items + (13 + length signature.now) }
{
    if signature.is_empty() {
        return;
    }
    let at = fields.len();
    put_start(fields, at, HeaderField::Signature, b'g');
    put(fields, &[signature.len() as u8]);
    put(fields, signature);
    put(fields, &[0]);
}
