//! The words of a line.

ghost use Rattle.std.specs.Prelude.{◌≡◌, ◌==◌, ◌&&◌, ◌∷◌};
ghost use Rattle.std.specs.List.{list_all, position, slice_split};
ghost use Rattle.sasl.specs.Lines.{is_printable};
ghost use Rattle.sasl.specs.Words.{TakesFirst, ends_with_return, parts_of};
ghost use Rattle.sasl.specs.Hearing.{is_nil};

use std::marker::Model;

/// The byte that parts words.
pub(crate) const SPACE: u8 = b' ';

/// Whether all bytes are letters, digits, signs and spaces of ASCII.
pub(crate) fn are_printable(bytes: &[u8]) -> bool
    ensures { result ≡ list_all is_printable bytes.now }
{
    bytes.iter().all(|b| matches!(*b, b' '..=b'~'))
}

/// Whether a carriage return is the last byte.
fn ends_with_return(line: &[u8]) -> bool
    ensures { result ≡ ends_with_return line.now }
{
    match line.last() {
        Some(byte) => *byte == b'\r',
        None => false,
    }
}

/// Whether a byte behind those of a line completes its end.
pub(crate) fn completes_end(line: &[u8], byte: u8) -> bool
    ensures { result ≡ (ends_with_return line.now && (byte == 10)) }
{
    ends_with_return(line) && byte == b'\n'
}

fn place_of(text: &[u8], byte: u8) -> Option<usize>
    ensures { result ≡ position (λ b. b == byte) text.now }
{
    text.iter().position(|b| *b == byte)
}

/// Cuts a text at the first of these bytes: what stands before it, and behind it where there is
/// one.
pub(crate) fn cut(text: &[u8], at: u8) -> (&[u8], Option<&[u8]>)
    ensures { slice_split (λ b. b == at) text.now ≡ result.0.now ∷ parts_of at result.1 }
{
    match place_of(text, at) {
        Some(place) => (&text[..place], Some(&text[place + 1..])),
        None => (text, None),
    }
}

/// The words of a line that are left, parted by single spaces.
#[derive(Drop)]
pub(crate) struct Words<'a> {
    left: Option<&'a [u8]>,
}

impl<'a> Model for Words<'a> {
    ghost use Rattle.std.specs.Prelude.{List, ℕ};
    ghost use Rattle.sasl.specs.Settings.{space};
    ghost use Rattle.sasl.specs.Words.{parts_of};

    ghost Value = { List (List ℕ) };

    ghost view = { λ words. parts_of space words.left };
}

impl<'a> Words<'a> {
    pub fn of(line: &'a [u8]) -> Words<'a>
        ensures { result ≡ slice_split (λ b. b == SPACE) line.now }
    {
        Words { left: Some(line) }
    }

    pub fn is_empty(&self) -> bool
        ensures { result ≡ is_nil self.now }
    {
        self.left.is_none()
    }

    /// Takes the next word off.
    pub fn next(&mut self) -> Option<&'a [u8]>
        ensures { TakesFirst self.old result self.new }
    {
        let (word, behind) = cut(self.left?, SPACE);
        self.left = behind;
        Some(word)
    }
}
