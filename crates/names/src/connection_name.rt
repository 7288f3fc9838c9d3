//! The unique names that the bus gives.

ghost use Rattle.std.specs.Prelude.{◌≡◌, Some};
ghost use Rattle.names.specs.UniqueName.{IsUniqueName, unique_text};

use crate::short_text::FixedText;
use std::fmt;
use std::marker::Model;

/// The unique name that the bus gives to a connection, `:1.` and its number ("Bus names" of the
/// D-Bus Specification). It takes 24 bytes, a tenth of a [`UniqueName`](crate::UniqueName), which
/// has room for any.
///
/// ```
/// use names::ConnectionName;
///
/// fn is_shown_by_its_number() -> bool {
///     ConnectionName::of(1).as_str() == ":1.1"
/// }
/// ```
#[derive(Clone, Copy, Debug, PartialEq, Eq, PartialOrd, Ord, Hash)]
pub struct ConnectionName {
    text: FixedText<23>,
}

impl Model for ConnectionName {
    ghost use Rattle.names.specs.Texts.{Text};
    ghost use Rattle.names.specs.UniqueName.{IsUniqueName};

    ghost Value = { Text };

    ghost view = { λ name. name.text };

    ghost invariant = { λ name. IsUniqueName name.text };

    ghost inverse = { λ text. record { text = text } };
}

impl ConnectionName {
    /// The name that the bus gives to the connection of a number.
    pub fn of(number: u64) -> Self
        ensures { result ≡ unique_text number }
    {
        let mut digits = itoa::Buffer::new();
        ConnectionName {
            text: FixedText::joined(":1.", digits.format(number)),
        }
    }

    pub fn as_str(&self) -> &str
        ensures value { result.now ≡ self.now }
        ensures name { IsUniqueName self.now }
    {
        self.text.as_str()
    }
}

impl fmt::Display for ConnectionName {
    ghost output = { λ name. Some name };

    fn fmt<W: fmt::Write>(&self, f: &mut fmt::Formatter<W>) -> fmt::Result {
        f.pad(self.as_str())
    }
}
