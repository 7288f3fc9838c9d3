//! Object paths.

ghost use Rattle.std.specs.Prelude.{◌≡◌, ◌↔◌, Some, None, IsOk, IfOk, MatchResult, nat_eq, refl};
ghost use Rattle.std.specs.Ordering.{nat_cmp};
ghost use Rattle.std.specs.Cmp.{on_equiv, on_total, on_po, on_per, partial_equiv_from_equiv};
ghost use Rattle.std.specs.Cmp.Lexicographic.{pointwise, slice_cmp, nat_list_eq_equiv, nat_list_cmp_total, texts_po, texts_ties};
ghost use Rattle.std.specs.Cmp.Rules.{hashing};
ghost use Rattle.std.specs.Hash as fed;
ghost use Rattle.std.proofs.Common.{rules};
ghost use Rattle.names.specs.ObjectPath.{IsObjectPath, object_path_fault};

use crate::elements::Style;
use crate::fault::NameFault;
use std::cmp::Ordering;
use std::fmt;
use std::hash::{Hash, Hasher};
use std::marker::Model;

const STYLE: Style = Style {
    separator: Some(b'/'),
    hyphen: false,
    digit_first: true,
};

/// The path of an object ("Valid Object Paths" of the D-Bus Specification). It borrows its text,
/// whose length has no limit.
#[derive(Drop)]
pub struct ObjectPath<'a> {
    text: &'a str,
}

impl<'a> Model for ObjectPath<'a> {
    ghost use Rattle.names.specs.Texts.{Text};
    ghost use Rattle.names.specs.ObjectPath.{IsObjectPath};

    ghost Value = { Text };

    ghost view = { λ path. path.text.now };

    ghost invariant = { λ path. IsObjectPath path.text.now };
}

impl<'a> ObjectPath<'a> {
    /// Whether bytes are an object path: a slash alone, or a slash and then elements joined by
    /// slashes. Nothing is copied, and they need not be known as UTF-8: what is such a path is
    /// ASCII.
    pub fn check(text: &[u8]) -> Result<(), NameFault>
        ensures variant { IsOk result ↔ IsObjectPath text.now }
        ensures fault { MatchResult result (λ _. object_path_fault text.now ≡ None)
            (λ fault. object_path_fault text.now ≡ Some fault) }
    {
        if text.is_empty() {
            return Err(NameFault::Empty);
        }
        if text[0] != b'/' {
            return Err(NameFault::BadByte(0));
        }
        if text.len() == 1 {
            return Ok(());
        }
        match STYLE.fault(true, 1, text) {
            Some(fault) => Err(fault),
            None => Ok(()),
        }
    }

    /// Reads an object path: a slash alone, or a slash and then elements joined by slashes.
    pub fn parse(text: &'a str) -> Result<Self, NameFault>
        ensures value { IfOk result (λ path. path ≡ text.now) }
        ensures variant { IsOk result ↔ IsObjectPath text.now }
        ensures fault { MatchResult result (λ _. object_path_fault text.now ≡ None)
            (λ fault. object_path_fault text.now ≡ Some fault) }
    {
        match ObjectPath::check(text.as_bytes()) {
            Ok(()) => Ok(ObjectPath { text }),
            Err(fault) => Err(fault),
        }
    }

    pub fn as_str(&self) -> &'a str
        ensures value { result.now ≡ self.now }
        ensures name { IsObjectPath self.now }
    {
        self.text
    }
}

impl<'a> PartialEq for ObjectPath<'a> {
    ghost eq = { λ a b. pointwise nat_eq a b };

    ghost laws = { on_per (λ a. a) (partial_equiv_from_equiv nat_list_eq_equiv) };

    fn eq(&self, other: &Self) -> bool {
        self.as_str() == other.as_str()
    }
}

impl<'a> Eq for ObjectPath<'a> {
    ghost laws = { on_equiv (λ a. a) nat_list_eq_equiv };
}

impl<'a> PartialOrd for ObjectPath<'a> {
    ghost partial_cmp = { λ a b. Some (slice_cmp nat_cmp a b) };

    ghost laws = { on_po (λ a. a) texts_po };

    fn partial_cmp(&self, other: &Self) -> Option<Ordering> {
        Some(self.cmp(other))
    }
}

impl<'a> Ord for ObjectPath<'a> {
    ghost cmp = { λ a b. slice_cmp nat_cmp a b };

    ghost total = { on_total (λ a. a) nat_list_cmp_total };

    ghost matches_partial_cmp = { λ a b. refl };

    ghost matches_eq = { λ a b. texts_ties a b };

    fn cmp(&self, other: &Self) -> Ordering {
        self.as_str().cmp(other.as_str())
    }
}

impl<'a> Hash for ObjectPath<'a> {
    ghost hash_input = { λ a. fed.str a };

    ghost respects_eq = { Prim.search (hashing, rules) };

    fn hash<H: Hasher>(&self, state: &mut H) {
        self.as_str().hash(state);
    }
}

impl<'a> fmt::Debug for ObjectPath<'a> {
    fn fmt<W: fmt::Write>(&self, f: &mut fmt::Formatter<W>) -> fmt::Result {
        fmt::Debug::fmt(&self.as_str(), f)
    }
}

impl<'a> fmt::Display for ObjectPath<'a> {
    ghost output = { λ path. Some path };

    fn fmt<W: fmt::Write>(&self, f: &mut fmt::Formatter<W>) -> fmt::Result {
        f.pad(self.as_str())
    }
}
