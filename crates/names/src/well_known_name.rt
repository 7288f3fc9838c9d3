//! Well-known bus names.

ghost use Rattle.std.specs.Prelude.{◌≡◌, ◌↔◌, Some, None, IsTrue, IsOk, IfOk, MatchResult};
ghost use Rattle.names.specs.WellKnown.{IsWellKnownName, well_known_fault, IsNamespace};

use crate::elements::Style;
use crate::fault::NameFault;
use crate::short_text::ShortText;
use std::fmt;
use std::marker::Model;

const STYLE: Style = Style {
    separator: Some(b'.'),
    hyphen: true,
    digit_first: false,
};

/// A well-known bus name ("Bus names" of the D-Bus Specification), of at most 255 bytes.
#[derive(Clone, Copy, Debug, PartialEq, Eq, PartialOrd, Ord, Hash)]
pub struct WellKnown {
    pub(crate) text: ShortText,
}

impl Model for WellKnown {
    ghost use Rattle.names.specs.Texts.{Text};
    ghost use Rattle.names.specs.WellKnown.{IsWellKnownName};

    ghost Value = { Text };

    ghost view = { λ name. name.text };

    ghost invariant = { λ name. IsWellKnownName name.text };

    ghost inverse = { λ text. record { text = text } };
}

impl WellKnown {
    /// Whether bytes are a well-known name: two or more elements joined by dots, which may have
    /// hyphens. Nothing is copied, and they need not be known as UTF-8: what is such a name is
    /// ASCII.
    pub fn check(text: &[u8]) -> Result<(), NameFault>
        ensures variant { IsOk result ↔ IsWellKnownName text.now }
        ensures fault { MatchResult result (λ _. well_known_fault text.now ≡ None)
            (λ fault. well_known_fault text.now ≡ Some fault) }
    {
        STYLE.check(false, text)
    }

    /// Reads a well-known name: two or more elements joined by dots, which may have hyphens.
    pub fn parse(text: &str) -> Result<Self, NameFault>
        ensures value { IfOk result (λ name. name ≡ text.now) }
        ensures variant { IsOk result ↔ IsWellKnownName text.now }
        ensures fault { MatchResult result (λ _. well_known_fault text.now ≡ None)
            (λ fault. well_known_fault text.now ≡ Some fault) }
    {
        match WellKnown::check(text.as_bytes()) {
            Ok(()) => Ok(WellKnown {
                text: ShortText::new(text),
            }),
            Err(fault) => Err(fault),
        }
    }

    /// Whether the text is a well-known name or one element of it, as the value of a match rule's
    /// `arg0namespace` is ("Match Rules" of the D-Bus Specification).
    pub fn is_namespace(text: &str) -> bool
        ensures { IsTrue result ↔ IsNamespace text.now }
    {
        STYLE.check(true, text.as_bytes()).is_ok()
    }

    pub fn as_str(&self) -> &str
        ensures value { result.now ≡ self.now }
        ensures name { IsWellKnownName self.now }
    {
        self.text.as_str()
    }
}

impl fmt::Display for WellKnown {
    ghost output = { λ name. Some name };

    fn fmt<W: fmt::Write>(&self, f: &mut fmt::Formatter<W>) -> fmt::Result {
        f.pad(self.as_str())
    }
}
