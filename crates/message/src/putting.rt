//! Putting header fields of a message that is written again, where there is room for them.

ghost use Rattle.std.specs.Prelude.{◌≡◌, ◌+◌, ◌++◌, ◌^◌, ◌<◌, ◌≤◌, length, vec_capacity};
ghost use Rattle.marshal_core.specs.Spelling.{pad_len, pads};
ghost use Rattle.message.specs.Layout.{AreWithin, fields_end, copied, sender_bytes};

use crate::layout::behind;
use byteorder::{BigEndian, LittleEndian};
use marshal_core::Order;
use message_core::in_room::{put, put_padding, put_text};
use message_core::{FieldPlace, HeaderField};

/// Puts the fields at these places of a message one after the other, the first from a place on.
pub fn put_fields(output: &mut Vec<u8>, bytes: &[u8], fields: &[FieldPlace], at: usize)
    requires within { AreWithin (length bytes.now) fields.now }
    requires small { fields_end at fields.now < 2 ^ 63 }
    requires room { length output.old.items + fields_end at fields.now
        ≤ vec_capacity output.old + at }
    ensures items { output.new.items ≡ output.old.items ++ copied bytes.now at fields.now }
    ensures capacity { vec_capacity output.old ≤ vec_capacity output.new }
{
    let mut end = at;
    for field in fields {
        put_padding(output, end);
        put(output, &bytes[field.from..field.to]);
        end = behind(end, field.to - field.from);
    }
}

/// Puts SENDER of a name, from a place on.
pub fn put_sender(output: &mut Vec<u8>, order: Order, name: &str, at: usize)
    requires short { length name.now ≤ 255 }
    requires room { length output.old.items + (pad_len 8 at + (9 + length name.now))
        ≤ vec_capacity output.old }
    ensures items { output.new.items
        ≡ output.old.items ++ (pads 8 at ++ sender_bytes order name.now) }
    ensures capacity { vec_capacity output.old ≤ vec_capacity output.new }
{
    match order {
        Order::Little => put_text::<LittleEndian>(output, at, HeaderField::Sender, b's', name),
        Order::Big => put_text::<BigEndian>(output, at, HeaderField::Sender, b's', name),
    }
}
