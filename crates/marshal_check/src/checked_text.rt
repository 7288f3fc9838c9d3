//! Texts that were checked.

ghost use Rattle.std.specs.Prelude.{◌≡◌, ◌+◌, ◌<◌, ◌^◌, length, is_ok, true, Ok};
ghost use Rattle.marshal_core.specs.declared.fault.MarshalFault.TheVariants.{Truncated};
ghost use Rattle.marshal_core.specs.Reading.{string_at};

use byteorder::{BigEndian, LittleEndian};
use marshal::parts::Endian;
use marshal_core::Order;

fn text_in<'a, O: Endian>(at: usize, bytes: &'a [u8]) -> (&'a str, usize, &'a [u8])
    requires room { at + length bytes.now < 2 ^ 64 }
    requires there { is_ok (string_at O.order Truncated at bytes.now) ≡ true }
    ensures reads { string_at O.order Truncated at bytes.now
        ≡ Ok (result.0.now, result.1, result.2.now) }
    ensures place { result.1 + length result.2.now ≡ at + length bytes.now }
{
    let gap = (4 - at % 4) % 4;
    let (_, rest) = bytes.split_at(gap);
    let (four, rest) = rest.split_at(4);
    let length = O::read_u32(four) as usize;
    let (text, _) = rest.split_at(length);
    let (_, rest) = rest.split_at(length + 1);
    // SAFETY: a string stands here, as the contract asks, and strings hold UTF-8.
    let text = unsafe { std::str::from_utf8_unchecked(text) };
    (text, at + gap + 4 + length + 1, rest)
}

/// The text of a string or an object path that stands here, the place after it, and the bytes
/// there. Nothing of it is checked again.
pub fn checked_text<'a>(order: Order, at: usize, bytes: &'a [u8]) -> (&'a str, usize, &'a [u8])
    requires room { at + length bytes.now < 2 ^ 64 }
    requires there { is_ok (string_at order Truncated at bytes.now) ≡ true }
    ensures reads { string_at order Truncated at bytes.now
        ≡ Ok (result.0.now, result.1, result.2.now) }
    ensures place { result.1 + length result.2.now ≡ at + length bytes.now }
{
    match order {
        Order::Little => text_in::<LittleEndian>(at, bytes),
        Order::Big => text_in::<BigEndian>(at, bytes),
    }
}
