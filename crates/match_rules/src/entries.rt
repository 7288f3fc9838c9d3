//! The entries of a rule, read from the bytes in which they are kept.

ghost use Rattle.std.specs.Iterator.{YieldsFirstBy, item_count};
ghost use Rattle.std.specs.Prelude.{◌≡◌};
ghost use Rattle.match_rules.specs.EntryView.{pair_of, entries_left};
ghost use Rattle.match_rules.specs.RuleBytes.{rule_in};

use crate::Key;

/// The bytes of an entry before its value.
pub const HEAD_LENGTH: usize = 3;

/// A key of a rule, and its value.
#[derive(Clone, Copy)]
pub struct Entry<'a> {
    pub key: Key,
    pub value: &'a [u8],
}

/// The entries that stand in a run of bytes.
#[derive(Clone, Copy)]
pub struct Entries<'a> {
    bytes: &'a [u8],
}

impl<'a> Entries<'a> {
    pub fn new(bytes: &'a [u8]) -> Self
        ensures { entries_left result ≡ rule_in bytes.now }
    {
        Entries { bytes }
    }
}

impl<'a> Iterator for Entries<'a> {
    type Item = Entry<'a>;

    ghost next_gives = { YieldsFirstBy pair_of entries_left };

    ghost remaining = { item_count entries_left };

    fn next(&mut self) -> Option<Entry<'a>> {
        let bytes = self.bytes;
        if bytes.len() < HEAD_LENGTH {
            return None;
        }
        let key = Key::at(bytes[0]);
        let length = bytes[1] as usize + 256 * bytes[2] as usize;
        let room = bytes.len() - HEAD_LENGTH;
        let (value, rest) = bytes[HEAD_LENGTH..].split_at(length.min(room));
        self.bytes = rest;
        Some(Entry { key, value })
    }
}
