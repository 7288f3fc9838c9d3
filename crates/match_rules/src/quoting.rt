//! How values are quoted in the text of a rule, and where its items end.

ghost use Rattle.std.specs.Prelude.{◌≡◌, ◌+◌, ◌≤◌, ◌<◌, ◌++◌, length, drop, Some, option_map, IfSome};
ghost use Rattle.arrayvec.specs.ArrayVec.{array_vec_len};
ghost use Rattle.match_rules.specs.Reading.{quoting_of, item_length, held_back};
ghost use Rattle.match_rules.specs.RuleFaults.{Outside, next, ends_item, meant, value_from};

use crate::MAX_RULE_LENGTH;
use arrayvec::ArrayVec;

/// The bytes of a value.
pub type ValueBytes = ArrayVec<u8, MAX_RULE_LENGTH>;

/// Where a byte of an item stands.
#[derive(Clone, Copy)]
pub enum Quoting {
    Outside,
    AfterBackslash,
    Inside,
}

impl Quoting {
    /// Where the byte after this one stands.
    fn next(self, byte: u8) -> Self
        ensures { quoting_of result ≡ next (quoting_of self) byte }
    {
        match self {
            Quoting::Outside => {
                if byte == b'\'' {
                    Quoting::Inside
                } else if byte == b'\\' {
                    Quoting::AfterBackslash
                } else {
                    Quoting::Outside
                }
            }
            Quoting::AfterBackslash => {
                if byte == b'\'' {
                    Quoting::Outside
                } else if byte == b'\\' {
                    Quoting::AfterBackslash
                } else {
                    Quoting::Outside
                }
            }
            Quoting::Inside => {
                if byte == b'\'' {
                    Quoting::Outside
                } else {
                    Quoting::Inside
                }
            }
        }
    }

    fn ends_item(self, byte: u8) -> bool
        ensures { result ≡ ends_item (quoting_of self) byte }
    {
        match self {
            Quoting::Outside => byte == b',',
            Quoting::AfterBackslash => byte == b',',
            Quoting::Inside => false,
        }
    }

    /// Appends the bytes of the value that are known once a byte is read.
    fn append_meant(self, byte: u8, value: &mut ValueBytes)
        requires { array_vec_len value.old + held_back (quoting_of self) < MAX_RULE_LENGTH }
        ensures bytes { value.new.items ≡ value.old.items ++ meant (quoting_of self) byte }
        ensures room { array_vec_len value.new + held_back (next (quoting_of self) byte)
            ≤ array_vec_len value.old + held_back (quoting_of self) + 1 }
    {
        match self {
            Quoting::Outside => {
                if byte != b'\'' && byte != b'\\' {
                    value.push(byte);
                }
            }
            Quoting::AfterBackslash => {
                if byte == b'\'' {
                    value.push(b'\'');
                } else if byte == b'\\' {
                    value.push(b'\\');
                } else {
                    value.push(b'\\');
                    value.push(byte);
                }
            }
            Quoting::Inside => {
                if byte != b'\'' {
                    value.push(byte);
                }
            }
        }
    }
}

/// The length of the first item of a text.
pub fn item_length(text: &[u8]) -> usize
    ensures value { result ≡ item_length Outside text.now }
    ensures within { result ≤ length text.now }
{
    let mut quoting = Quoting::Outside;
    for (i, byte) in text.iter().enumerate() {
        if quoting.ends_item(*byte) {
            return i;
        }
        quoting = quoting.next(*byte);
    }
    text.len()
}

/// What stands behind a byte of a text.
pub fn behind(text: &[u8], place: usize) -> &[u8]
    requires { place < length text.now }
    ensures { result.now ≡ drop (place + 1) text.now }
{
    &text[place + 1..]
}

/// The value of a text that is a value between two apostrophes; none where the text is written in
/// another way.
pub fn plain_value(text: &[u8]) -> Option<&[u8]>
    ensures value { IfSome result (λ value. value_from Outside text.now ≡ Some value.now) }
    ensures short { IfSome result (λ value. length value.now ≤ length text.now) }
{
    let value = text.strip_prefix(b"'")?.strip_suffix(b"'")?;
    if value.contains(&b'\'') {
        None
    } else {
        Some(value)
    }
}

/// The value that is written in a text; none where an apostrophe is open at its end.
pub fn value_of(text: &[u8]) -> Option<ValueBytes>
    requires { length text.now ≤ MAX_RULE_LENGTH }
    ensures value { option_map (λ value. value.items) result ≡ value_from Outside text.now }
    ensures short { IfSome result (λ value. length value.items ≤ length text.now) }
{
    let mut value = ValueBytes::new();
    let mut quoting = Quoting::Outside;
    for byte in text {
        quoting.append_meant(*byte, &mut value);
        quoting = quoting.next(*byte);
    }
    match quoting {
        Quoting::Outside => Some(value),
        Quoting::AfterBackslash => {
            value.push(b'\\');
            Some(value)
        }
        Quoting::Inside => None,
    }
}
