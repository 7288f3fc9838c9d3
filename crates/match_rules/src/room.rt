//! Bytes in fixed room.

ghost use Rattle.std.specs.Prelude.{◌≡◌, ◌+◌, ◌-◌, ◌≤◌, ◌++◌, [], length, take, drop};

use std::marker::Model;

/// The longest text of a rule, in bytes.
pub const MAX_RULE_LENGTH: usize = 1024;

/// At most as many bytes as the text of a rule may have, which lie in the value itself. The room
/// behind them is zero.
#[derive(Clone, Copy)]
pub struct Room {
    bytes: [u8; MAX_RULE_LENGTH],
    length: u16,
}

impl Model for Room {
    ghost use Rattle.std.specs.Prelude.{◌≡◌, ◌-◌, ◌≤◌, ◌++◌, length as len, take, drop, replicate};
    ghost use Rattle.std.proofs.Common.{arith, ap, sym, ◌∙◌, take-append-drop, length-take-le};
    ghost use Rattle.names.specs.Texts.{Text};

    ghost Value = { Text };

    ghost view = { λ room. take room.length room.bytes };

    ghost invariant = { λ room. (room.length ≤ 1024) × (len room.bytes ≡ 1024)
        × (drop room.length room.bytes ≡ replicate (1024 - room.length) 0) };

    ghost inverse = { λ bytes.
        record { bytes = bytes ++ replicate (1024 - len bytes) 0; length = len bytes } };

    ghost inverse_ok = { λ room h.
        let long = length-take-le room.length room.bytes (omega (arith, h.0, h.1)) in
        let whole = ap (λ n. take room.length room.bytes ++ replicate (1024 - n) 0) long
        ∙ ap (λ rest. take room.length room.bytes ++ rest) (sym h.2)
        ∙ take-append-drop room.length room.bytes in
        λ i. record { bytes = whole i; length = long i } };
}

impl Room {
    pub fn new() -> Self
        ensures { result ≡ [] }
    {
        Room {
            bytes: [0; MAX_RULE_LENGTH],
            length: 0,
        }
    }

    pub fn as_slice(&self) -> &[u8]
        ensures value { result.now ≡ self.now }
        ensures fits { length self.now ≤ MAX_RULE_LENGTH }
    {
        &self.bytes[..usize::from(self.length)]
    }

    /// Adds bytes behind the others.
    pub fn append(&mut self, bytes: &[u8])
        requires { length self.old + length bytes.now ≤ MAX_RULE_LENGTH }
        ensures { self.new ≡ self.old ++ bytes.now }
    {
        let end = usize::from(self.length);
        self.bytes[end..end + bytes.len()].copy_from_slice(bytes);
        self.length += bytes.len() as u16;
    }

    /// Moves the last bytes, as many as `count`, to a place before them.
    pub fn move_last(&mut self, count: usize, at: usize)
        requires { at + count ≤ length self.old }
        ensures { self.new ≡ take at self.old
            ++ (drop (length self.old - count) self.old
            ++ take (length self.old - count - at) (drop at self.old)) }
    {
        let end = usize::from(self.length);
        self.bytes[at..end].rotate_right(count);
    }
}
