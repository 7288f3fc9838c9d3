//! Header fields of the messages of the bus.

ghost use Rattle.std.specs.Prelude.{◌≡◌, IsUtf8, ◌+◌, ◌≤◌, ◌++◌, ◌∷◌, [], length, false, List, Option, option_map, vec_capacity};
ghost use Rattle.names.specs.UniqueName.{unique_text};
ghost use Rattle.marshal_core.specs.Types.{Tys};
ghost use Rattle.marshal_core.specs.Values.{a_string, an_object_path};
ghost use Rattle.marshal_core.specs.Signatures.{codes as signature_text, IsSignature};
ghost use Rattle.marshal_core.specs.Spelling.{has_zero, pads};
ghost use Rattle.marshal_core.specs.declared.order.Order.TheVariants.{Little};
ghost use Rattle.message_core.specs.declared.header_field.HeaderField.TheVariants as field_of;
ghost use Rattle.message_core.specs.HeaderFields.{Field};
ghost use Rattle.message_core.specs.Headers.{AreWritten, known_field, optional_field, text_field_bytes};
ghost use Rattle.driver.specs.OwnMessages.{bus_path};
ghost use Rattle.driver.specs.Layout.{end_fields, IsNamed};

use byteorder::LittleEndian;
use message_core::{HeaderField, in_room};
use names::{BUS_NAME, BUS_PATH, ConnectionName};

/// The most bytes of the header fields of a message of the bus.
pub const ROOM: usize = 512;

/// Puts a field whose value is a text.
fn put_text(fields: &mut Vec<u8>, field: HeaderField, letter: u8, text: &str)
    requires room { length fields.old.items + length text.now + 16 ≤ ROOM }
    requires capacity { ROOM ≤ vec_capacity fields.old }
    ensures put { fields.new.items ≡ fields.old.items
        ++ (pads 8 (length fields.old.items) ++ text_field_bytes Little field letter text.now) }
    ensures utf8 { IsUtf8 text.now }
    ensures capacity { vec_capacity fields.old ≤ vec_capacity fields.new }
    ensures room { length fields.new.items ≤ length fields.old.items + length text.now + 16 }
{
    let at = fields.len();
    in_room::put_text::<LittleEndian>(fields, at, field, letter, text);
}

/// Puts a field of a string.
pub fn put_string(fields: &mut Vec<u8>, field: HeaderField, text: &str)
    requires room { length fields.old.items + length text.now + 16 ≤ ROOM }
    requires capacity { ROOM ≤ vec_capacity fields.old }
    requires string { has_zero text.now ≡ false }
    ensures put { (sent : List Field) → AreWritten Little sent fields.old.items
        → AreWritten Little (sent ++ known_field field (a_string text.now) ∷ []) fields.new.items }
    ensures capacity { vec_capacity fields.old ≤ vec_capacity fields.new }
    ensures room { length fields.new.items ≤ length fields.old.items + length text.now + 16 }
{
    put_text(fields, field, b's', text);
}

/// Puts the path of the bus.
pub fn put_path(fields: &mut Vec<u8>)
    requires room { length fields.old.items + 64 ≤ ROOM }
    requires capacity { ROOM ≤ vec_capacity fields.old }
    ensures put { (sent : List Field) → AreWritten Little sent fields.old.items
        → AreWritten Little (sent ++ known_field field_of.Path (an_object_path bus_path)
        ∷ []) fields.new.items }
    ensures capacity { vec_capacity fields.old ≤ vec_capacity fields.new }
    ensures room { length fields.new.items ≤ length fields.old.items + 64 }
{
    put_text(fields, HeaderField::Path, b'o', BUS_PATH);
}

/// Puts the destination, where there is one.
fn put_destination(fields: &mut Vec<u8>, number: Option<u64>)
    requires room { length fields.old.items + 271 ≤ ROOM }
    requires capacity { ROOM ≤ vec_capacity fields.old }
    ensures put { (sent : List Field) → AreWritten Little sent fields.old.items
        → AreWritten Little (sent ++ optional_field field_of.Destination a_string
        (option_map unique_text number)) fields.new.items }
    ensures named { IsNamed number }
    ensures capacity { vec_capacity fields.old ≤ vec_capacity fields.new }
    ensures room { length fields.new.items ≤ length fields.old.items + 271 }
{
    if let Some(number) = number {
        let name = ConnectionName::of(number);
        put_string(fields, HeaderField::Destination, name.as_str());
    }
}

/// Puts the fields that all messages of the bus end with: the destination, where there is one, the
/// sender, which is the bus, and the signature of the body.
pub fn put_end(fields: &mut Vec<u8>, destination: Option<u64>, signature: &str)
    requires room { length fields.old.items + 339 ≤ ROOM }
    requires capacity { ROOM ≤ vec_capacity fields.old }
    requires short { length signature.now ≤ 16 }
    ensures put { (types : Tys) (sent : List Field) → signature.now ≡ signature_text types
        → IsSignature types → AreWritten Little sent fields.old.items
        → AreWritten Little (sent ++ end_fields destination types) fields.new.items }
    ensures named { IsNamed destination }
    ensures capacity { vec_capacity fields.old ≤ vec_capacity fields.new }
    ensures fits { length fields.new.items ≤ ROOM }
    ensures room { length fields.new.items ≤ length fields.old.items + 339 }
{
    put_destination(fields, destination);
    put_string(fields, HeaderField::Sender, BUS_NAME);
    in_room::put_signature(fields, signature.as_bytes());
}
