//! Unique connection names.

ghost use Rattle.std.specs.Prelude.{◌≡◌, ◌↔◌, ◌<◌, ◌^◌, ℕ, Some, None, IsOk, IfOk, MatchResult};
ghost use Rattle.names.specs.UniqueName.{IsUniqueName, unique_name_fault, unique_text};

use crate::elements::Style;
use crate::fault::NameFault;
use crate::short_text::ShortText;
use std::fmt;
use std::marker::Model;

const STYLE: Style = Style {
    separator: Some(b'.'),
    hyphen: true,
    digit_first: true,
};

/// The unique name of a connection ("Bus names" of the D-Bus Specification), of at most 255 bytes.
#[derive(Clone, Copy, Debug, PartialEq, Eq, PartialOrd, Ord, Hash)]
pub struct UniqueName {
    pub(crate) text: ShortText,
}

impl Model for UniqueName {
    ghost use Rattle.names.specs.Texts.{Text};
    ghost use Rattle.names.specs.UniqueName.{IsUniqueName};

    ghost Value = { Text };

    ghost view = { λ name. name.text };

    ghost invariant = { λ name. IsUniqueName name.text };

    ghost inverse = { λ text. record { text = text } };
}

impl UniqueName {
    /// Whether bytes are a unique name: a colon, and then two or more elements joined by dots.
    /// Nothing is copied, and they need not be known as UTF-8: what is such a name is ASCII.
    pub fn check(text: &[u8]) -> Result<(), NameFault>
        ensures variant { IsOk result ↔ IsUniqueName text.now }
        ensures fault { MatchResult result (λ _. unique_name_fault text.now ≡ None)
            (λ fault. unique_name_fault text.now ≡ Some fault) }
    {
        if text.is_empty() {
            return Err(NameFault::Empty);
        }
        if text.len() > 255 {
            return Err(NameFault::TooLong);
        }
        if text[0] != b':' {
            return Err(NameFault::BadByte(0));
        }
        match STYLE.fault(false, 1, text) {
            Some(fault) => Err(fault),
            None => Ok(()),
        }
    }

    /// Reads a unique name: a colon, and then two or more elements joined by dots.
    pub fn parse(text: &str) -> Result<Self, NameFault>
        ensures value { IfOk result (λ name. name ≡ text.now) }
        ensures variant { IsOk result ↔ IsUniqueName text.now }
        ensures fault { MatchResult result (λ _. unique_name_fault text.now ≡ None)
            (λ fault. unique_name_fault text.now ≡ Some fault) }
    {
        match UniqueName::check(text.as_bytes()) {
            Ok(()) => Ok(UniqueName {
                text: ShortText::new(text),
            }),
            Err(fault) => Err(fault),
        }
    }

    /// The name that the bus gives to the connection of a number: `:1.` and the number.
    pub fn of(number: u64) -> Self
        ensures { result ≡ unique_text number }
    {
        let mut digits = itoa::Buffer::new();
        UniqueName {
            text: ShortText::joined(":1.", digits.format(number)),
        }
    }

    /// The number of the connection to which the bus gives the name of this text, if there is one.
    pub fn number_in(text: &str) -> Option<u64>
        ensures { (number : ℕ) → number < 2 ^ 64
            → (result ≡ Some number) ↔ (text.now ≡ unique_text number) }
    {
        let digits = text.strip_prefix(":1.")?;
        let number = digits.parse().ok()?;
        if itoa::Buffer::new().format(number) == digits {
            Some(number)
        } else {
            None
        }
    }

    /// The number of the connection to which the bus gives this name, if there is one.
    pub fn connection(&self) -> Option<u64>
        ensures { (number : ℕ) → number < 2 ^ 64
            → (result ≡ Some number) ↔ (self.now ≡ unique_text number) }
    {
        UniqueName::number_in(self.as_str())
    }

    pub fn as_str(&self) -> &str
        ensures value { result.now ≡ self.now }
        ensures name { IsUniqueName self.now }
    {
        self.text.as_str()
    }
}

impl fmt::Display for UniqueName {
    ghost output = { λ name. Some name };

    fn fmt<W: fmt::Write>(&self, f: &mut fmt::Formatter<W>) -> fmt::Result {
        f.pad(self.as_str())
    }
}
