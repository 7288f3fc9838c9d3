//! Member names.

ghost use Rattle.std.specs.Prelude.{◌≡◌, ◌↔◌, Some, None, IsOk, IfOk, MatchResult};
ghost use Rattle.names.specs.Member.{IsMember, member_fault};

use crate::elements::Style;
use crate::fault::NameFault;
use crate::short_text::ShortText;
use std::fmt;
use std::marker::Model;

const STYLE: Style = Style {
    separator: None,
    hyphen: false,
    digit_first: false,
};

/// The name of a method or signal ("Member names" of the D-Bus Specification), of at most 255
/// bytes.
#[derive(Clone, Copy, Debug, PartialEq, Eq, PartialOrd, Ord, Hash)]
pub struct Member {
    text: ShortText,
}

impl Model for Member {
    ghost use Rattle.names.specs.Texts.{Text};
    ghost use Rattle.names.specs.Member.{IsMember};

    ghost Value = { Text };

    ghost view = { λ name. name.text };

    ghost invariant = { λ name. IsMember name.text };

    ghost inverse = { λ text. record { text = text } };
}

impl Member {
    /// Whether bytes are a member name: one element, with no dot. Nothing is copied, and they need
    /// not be known as UTF-8: what is such a name is ASCII.
    pub fn check(text: &[u8]) -> Result<(), NameFault>
        ensures variant { IsOk result ↔ IsMember text.now }
        ensures fault { MatchResult result (λ _. member_fault text.now ≡ None)
            (λ fault. member_fault text.now ≡ Some fault) }
    {
        STYLE.check(true, text)
    }

    /// Reads a member name: one element, with no dot.
    pub fn parse(text: &str) -> Result<Self, NameFault>
        ensures value { IfOk result (λ name. name ≡ text.now) }
        ensures variant { IsOk result ↔ IsMember text.now }
        ensures fault { MatchResult result (λ _. member_fault text.now ≡ None)
            (λ fault. member_fault text.now ≡ Some fault) }
    {
        match Member::check(text.as_bytes()) {
            Ok(()) => Ok(Member {
                text: ShortText::new(text),
            }),
            Err(fault) => Err(fault),
        }
    }

    pub fn as_str(&self) -> &str
        ensures value { result.now ≡ self.now }
        ensures name { IsMember self.now }
    {
        self.text.as_str()
    }
}

impl fmt::Display for Member {
    ghost output = { λ name. Some name };

    fn fmt<W: fmt::Write>(&self, f: &mut fmt::Formatter<W>) -> fmt::Result {
        f.pad(self.as_str())
    }
}
