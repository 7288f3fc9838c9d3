//! A text in fixed room.

ghost use Rattle.std.specs.Prelude.{◌≡◌, ◌↔◌, ◌≤◌, ◌+◌, ◌++◌, length as text_length, take, drop, Some, nat_eq, refl};
ghost use Rattle.std.specs.Ordering.{nat_cmp};
ghost use Rattle.std.specs.Cmp.{on_equiv, on_total, on_po, on_per, partial_equiv_from_equiv};
ghost use Rattle.std.specs.Cmp.Lexicographic.{pointwise, slice_cmp, nat_list_eq_equiv, nat_list_cmp_total, texts_po, texts_ties};
ghost use Rattle.std.specs.Cmp.Rules.{hashing};
ghost use Rattle.std.specs.Hash as fed;
ghost use Rattle.std.proofs.Common.{rules};

use std::cmp::Ordering;
use std::hash::{Hash, Hasher};
use std::marker::Model;
use std::{fmt, str};

/// A text of at most `ROOM` bytes, which lie in the value itself. The room behind them is zero.
#[derive(Clone, Copy)]
pub struct FixedText<const ROOM: usize> {
    bytes: [u8; ROOM],
    length: u8,
}

/// A text with room for any name.
pub type ShortText = FixedText<255>;

impl<const ROOM: usize> Model for FixedText<ROOM> {
    ghost use Rattle.std.specs.Prelude.{◌≡◌, ◌-◌, ◌≤◌, ◌++◌, length as len, take, drop, replicate, IsUtf8};
    ghost use Rattle.std.proofs.Common.{arith, ap, sym, ◌∙◌, take-append-drop, length-take-le};
    ghost use Rattle.names.specs.Texts.{Text};

    ghost Value = { Text };

    ghost view = { λ t. take t.length t.bytes };

    ghost invariant = { λ t. (t.length ≤ ROOM) × (len t.bytes ≡ ROOM)
        × (drop t.length t.bytes ≡ replicate (ROOM - t.length) 0)
        × ∥ IsUtf8 (take t.length t.bytes) ∥₁ };

    ghost inverse = { λ text.
        record { bytes = text ++ replicate (ROOM - len text) 0; length = len text } };

    ghost inverse_ok = { λ t h.
        let long = length-take-le t.length t.bytes (omega (arith, h.0, h.1)) in
        let whole = ap (λ n. take t.length t.bytes ++ replicate (ROOM - n) 0) long
        ∙ ap (λ room. take t.length t.bytes ++ room) (sym h.2)
        ∙ take-append-drop t.length t.bytes in
        λ i. record { bytes = whole i; length = long i } };
}

impl FixedText<255> {
    /// A copy of the text.
    pub fn new(text: &str) -> Self
        requires { text_length text.now ≤ 255 }
        ensures { result ≡ text.now }
    {
        Self::joined(text, "")
    }
}

impl<const ROOM: usize> FixedText<ROOM> {
    /// A copy of two texts, one after the other.
    pub fn joined(front: &str, back: &str) -> Self
        requires room { text_length front.now + text_length back.now ≤ ROOM }
        requires short { ROOM ≤ 255 }
        ensures { result ≡ front.now ++ back.now }
    {
        let mut bytes = [0; ROOM];
        write_at(&mut bytes, 0, front.as_bytes());
        write_at(&mut bytes, front.len(), back.as_bytes());
        let length = (front.len() + back.len()) as u8;
        FixedText { bytes, length }
    }

    pub fn as_str(&self) -> &str
        ensures value { result.now ≡ self.now }
        ensures fits { text_length result.now ≤ ROOM }
    {
        let bytes = &self.bytes[..usize::from(self.length)];
        unsafe { str::from_utf8_unchecked(bytes) }
    }
}

fn write_at(room: &mut [u8], place: usize, bytes: &[u8])
    requires { place + text_length bytes.now ≤ text_length room.old }
    ensures { room.new ≡ take place room.old ++ bytes.now
        ++ drop (place + text_length bytes.now) room.old }
{
    room[place..place + bytes.len()].copy_from_slice(bytes);
}

impl<const ROOM: usize> PartialEq for FixedText<ROOM> {
    ghost eq = { λ a b. pointwise nat_eq a b };

    ghost laws = { on_per (λ a. a) (partial_equiv_from_equiv nat_list_eq_equiv) };

    fn eq(&self, other: &Self) -> bool {
        self.as_str() == other.as_str()
    }
}

impl<const ROOM: usize> Eq for FixedText<ROOM> {
    ghost laws = { on_equiv (λ a. a) nat_list_eq_equiv };
}

impl<const ROOM: usize> PartialOrd for FixedText<ROOM> {
    ghost partial_cmp = { λ a b. Some (slice_cmp nat_cmp a b) };

    ghost laws = { on_po (λ a. a) texts_po };

    fn partial_cmp(&self, other: &Self) -> Option<Ordering> {
        Some(self.cmp(other))
    }
}

impl<const ROOM: usize> Ord for FixedText<ROOM> {
    ghost cmp = { λ a b. slice_cmp nat_cmp a b };

    ghost total = { on_total (λ a. a) nat_list_cmp_total };

    ghost matches_partial_cmp = { λ a b. refl };

    ghost matches_eq = { λ a b. texts_ties a b };

    fn cmp(&self, other: &Self) -> Ordering {
        self.as_str().cmp(other.as_str())
    }
}

impl<const ROOM: usize> Hash for FixedText<ROOM> {
    ghost hash_input = { λ a. fed.str a };

    ghost respects_eq = { Prim.search (hashing, rules) };

    fn hash<H: Hasher>(&self, state: &mut H) {
        self.as_str().hash(state);
    }
}

impl<const ROOM: usize> fmt::Debug for FixedText<ROOM> {
    fn fmt<W: fmt::Write>(&self, f: &mut fmt::Formatter<W>) -> fmt::Result {
        fmt::Debug::fmt(&self.as_str(), f)
    }
}

impl<const ROOM: usize> fmt::Display for FixedText<ROOM> {
    ghost output = { λ a. Some a };

    fn fmt<W: fmt::Write>(&self, f: &mut fmt::Formatter<W>) -> fmt::Result {
        f.pad(self.as_str())
    }
}
