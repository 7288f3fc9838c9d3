//! Error names.

ghost use Rattle.std.specs.Prelude.{◌≡◌, ◌↔◌, Some, None, IsOk, IfOk, MatchResult};
ghost use Rattle.names.specs.ErrorName.{IsErrorName, error_name_fault};

use crate::elements::Style;
use crate::fault::NameFault;
use crate::short_text::ShortText;
use std::fmt;
use std::marker::Model;

const STYLE: Style = Style {
    separator: Some(b'.'),
    hyphen: false,
    digit_first: false,
};

/// The name of an error ("Error names" of the D-Bus Specification), of at most 255 bytes.
#[derive(Clone, Copy, Debug, PartialEq, Eq, PartialOrd, Ord, Hash)]
pub struct ErrorName {
    text: ShortText,
}

impl Model for ErrorName {
    ghost use Rattle.names.specs.Texts.{Text};
    ghost use Rattle.names.specs.ErrorName.{IsErrorName};

    ghost Value = { Text };

    ghost view = { λ name. name.text };

    ghost invariant = { λ name. IsErrorName name.text };

    ghost inverse = { λ text. record { text = text } };
}

impl ErrorName {
    /// Whether bytes are an error name, which is spelled as an interface name. Nothing is copied,
    /// and they need not be known as UTF-8: what is such a name is ASCII.
    pub fn check(text: &[u8]) -> Result<(), NameFault>
        ensures variant { IsOk result ↔ IsErrorName text.now }
        ensures fault { MatchResult result (λ _. error_name_fault text.now ≡ None)
            (λ fault. error_name_fault text.now ≡ Some fault) }
    {
        STYLE.check(false, text)
    }

    /// Reads an error name, which is spelled as an interface name.
    pub fn parse(text: &str) -> Result<Self, NameFault>
        ensures value { IfOk result (λ name. name ≡ text.now) }
        ensures variant { IsOk result ↔ IsErrorName text.now }
        ensures fault { MatchResult result (λ _. error_name_fault text.now ≡ None)
            (λ fault. error_name_fault text.now ≡ Some fault) }
    {
        match ErrorName::check(text.as_bytes()) {
            Ok(()) => Ok(ErrorName {
                text: ShortText::new(text),
            }),
            Err(fault) => Err(fault),
        }
    }

    pub fn as_str(&self) -> &str
        ensures value { result.now ≡ self.now }
        ensures name { IsErrorName self.now }
    {
        self.text.as_str()
    }
}

impl fmt::Display for ErrorName {
    ghost output = { λ name. Some name };

    fn fmt<W: fmt::Write>(&self, f: &mut fmt::Formatter<W>) -> fmt::Result {
        f.pad(self.as_str())
    }
}
