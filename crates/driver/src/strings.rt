//! Bodies of strings.

ghost use Rattle.std.specs.Prelude.{◌≡◌, ◌+◌, ◌≤◌, ◌++◌, length, IsUtf8};
ghost use Rattle.marshal_core.specs.declared.order.Order.TheVariants.{Little};
ghost use Rattle.marshal_core.specs.Spelling.{IsString, text_spelling};
ghost use Rattle.seq_bus_core.specs.Steps.{owner_text};

use arrayvec::ArrayVec;
use byteorder::{ByteOrder, LittleEndian};
use names::{BusName, ConnectionName};

/// The most bytes of the strings of a message of the bus.
pub const ROOM: usize = 1024;

/// Puts a string: the padding to the next multiple of four, its length, the text and a zero byte.
pub fn put_string(body: &mut ArrayVec<u8, ROOM>, text: &str)
    requires { length body.old.items + length text.now + 8 ≤ ROOM }
    ensures put { body.new.items ≡ body.old.items
        ++ text_spelling Little (length body.old.items) text.now }
    ensures utf8 { IsUtf8 text.now }
    ensures room { length body.new.items ≤ length body.old.items + length text.now + 8 }
{
    let zeros = [0u8; 4];
    let gap = (4 - body.len() % 4) % 4;
    let _ = body.try_extend_from_slice(&zeros[..gap]);
    let mut length = [0; 4];
    LittleEndian::write_u32(&mut length, text.len() as u32);
    let _ = body.try_extend_from_slice(&length);
    let _ = body.try_extend_from_slice(text.as_bytes());
    body.push(0);
}

/// Puts a name.
pub fn put_name(body: &mut ArrayVec<u8, ROOM>, name: &BusName)
    requires { length body.old.items + 263 ≤ ROOM }
    ensures put { body.new.items ≡ body.old.items
        ++ text_spelling Little (length body.old.items) name.now }
    ensures string { IsString name.now }
    ensures room { length body.new.items ≤ length body.old.items + 263 }
{
    put_string(body, name.as_str());
}

/// Puts the unique name of the owner of a name, or an empty string where there is none.
pub fn put_owner(body: &mut ArrayVec<u8, ROOM>, owner: Option<u64>)
    requires { length body.old.items + 263 ≤ ROOM }
    ensures put { body.new.items ≡ body.old.items
        ++ text_spelling Little (length body.old.items) (owner_text owner) }
    ensures string { IsString (owner_text owner) }
    ensures room { length body.new.items ≤ length body.old.items + 263 }
{
    match owner {
        Some(number) => {
            let name = ConnectionName::of(number);
            put_string(body, name.as_str());
        }
        None => put_string(body, ""),
    }
}
