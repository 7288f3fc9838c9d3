//! Interface names.

ghost use Rattle.std.specs.Prelude.{◌≡◌, ◌↔◌, Some, None, IsOk, IfOk, MatchResult};
ghost use Rattle.names.specs.Interface.{IsInterface, interface_fault};

use crate::elements::Style;
use crate::fault::NameFault;
use crate::short_text::ShortText;
use std::fmt;
use std::marker::Model;

const STYLE: Style = Style {
    separator: Some(b'.'),
    hyphen: false,
    digit_first: false,
};

/// The name of an interface ("Interface names" of the D-Bus Specification), of at most 255 bytes.
#[derive(Clone, Copy, Debug, PartialEq, Eq, PartialOrd, Ord, Hash)]
pub struct Interface {
    text: ShortText,
}

impl Model for Interface {
    ghost use Rattle.names.specs.Texts.{Text};
    ghost use Rattle.names.specs.Interface.{IsInterface};

    ghost Value = { Text };

    ghost view = { λ name. name.text };

    ghost invariant = { λ name. IsInterface name.text };

    ghost inverse = { λ text. record { text = text } };
}

impl Interface {
    /// Whether bytes are an interface name: two or more elements joined by dots. Nothing is copied,
    /// and they need not be known as UTF-8: what is such a name is ASCII.
    pub fn check(text: &[u8]) -> Result<(), NameFault>
        ensures variant { IsOk result ↔ IsInterface text.now }
        ensures fault { MatchResult result (λ _. interface_fault text.now ≡ None)
            (λ fault. interface_fault text.now ≡ Some fault) }
    {
        STYLE.check(false, text)
    }

    /// Reads an interface name: two or more elements joined by dots.
    pub fn parse(text: &str) -> Result<Self, NameFault>
        ensures value { IfOk result (λ name. name ≡ text.now) }
        ensures variant { IsOk result ↔ IsInterface text.now }
        ensures fault { MatchResult result (λ _. interface_fault text.now ≡ None)
            (λ fault. interface_fault text.now ≡ Some fault) }
    {
        match Interface::check(text.as_bytes()) {
            Ok(()) => Ok(Interface {
                text: ShortText::new(text),
            }),
            Err(fault) => Err(fault),
        }
    }

    pub fn as_str(&self) -> &str
        ensures value { result.now ≡ self.now }
        ensures name { IsInterface self.now }
    {
        self.text.as_str()
    }
}

impl fmt::Display for Interface {
    ghost output = { λ name. Some name };

    fn fmt<W: fmt::Write>(&self, f: &mut fmt::Formatter<W>) -> fmt::Result {
        f.pad(self.as_str())
    }
}
