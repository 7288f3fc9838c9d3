//! Bus names.

ghost use Rattle.std.specs.Prelude.{◌≡◌, ◌↔◌, Some, None, IsOk, IfOk, MatchResult};
ghost use Rattle.names.specs.BusName.{bus_text, is_bus, kind_of, IsBusName, bus_name_fault};

use crate::bus::BUS_NAME;
use crate::bus_name_kind::BusNameKind;
use crate::fault::NameFault;
use crate::short_text::ShortText;
use crate::unique_name::UniqueName;
use crate::well_known_name::WellKnown;
use std::fmt;
use std::marker::Model;

/// A unique name, a well-known name or the name of the bus itself ("Bus names" of the D-Bus
/// Specification), of at most 255 bytes.
#[derive(Clone, Copy, Debug, PartialEq, Eq, PartialOrd, Ord, Hash)]
pub struct BusName {
    text: ShortText,
}

impl Model for BusName {
    ghost use Rattle.names.specs.Texts.{Text};
    ghost use Rattle.names.specs.BusName.{IsBusName};

    ghost Value = { Text };

    ghost view = { λ name. name.text };

    ghost invariant = { λ name. IsBusName name.text };

    ghost inverse = { λ text. record { text = text } };
}

impl BusName {
    /// The name of the bus itself, `org.freedesktop.DBus`.
    pub fn bus() -> Self
        ensures { result ≡ bus_text }
    {
        BusName {
            text: ShortText::joined(BUS_NAME, ""),
        }
    }

    /// Whether bytes are a bus name: a unique name where it begins with a colon, else a well-known
    /// name or the name of the bus. Nothing is copied, and they need not be known as UTF-8: what is
    /// such a name is ASCII.
    pub fn check(text: &[u8]) -> Result<(), NameFault>
        ensures variant { IsOk result ↔ IsBusName text.now }
        ensures fault { MatchResult result (λ _. bus_name_fault text.now ≡ None)
            (λ fault. bus_name_fault text.now ≡ Some fault) }
    {
        if !text.is_empty() && text[0] == b':' {
            UniqueName::check(text)
        } else {
            WellKnown::check(text)
        }
    }

    /// Reads a bus name: a unique name where the text begins with a colon, else a well-known name
    /// or the name of the bus.
    pub fn parse(text: &str) -> Result<Self, NameFault>
        ensures value { IfOk result (λ name. name ≡ text.now) }
        ensures variant { IsOk result ↔ IsBusName text.now }
        ensures fault { MatchResult result (λ _. bus_name_fault text.now ≡ None)
            (λ fault. bus_name_fault text.now ≡ Some fault) }
    {
        match BusName::check(text.as_bytes()) {
            Ok(()) => Ok(BusName {
                text: ShortText::new(text),
            }),
            Err(fault) => Err(fault),
        }
    }

    /// What the name names. The text of the bus's own name is that name, and no other's.
    pub fn kind(&self) -> BusNameKind
        ensures { result ≡ kind_of self.now }
    {
        let bytes = self.as_str().as_bytes();
        if !bytes.is_empty() && bytes[0] == b':' {
            BusNameKind::Unique
        } else if self.is_bus() {
            BusNameKind::Bus
        } else {
            BusNameKind::WellKnown
        }
    }

    pub fn is_bus(&self) -> bool
        ensures { result ≡ is_bus self.now }
    {
        self.as_str() == BUS_NAME
    }

    pub fn as_str(&self) -> &str
        ensures value { result.now ≡ self.now }
        ensures name { IsBusName self.now }
    {
        self.text.as_str()
    }
}

impl From<UniqueName> for BusName {
    ghost from_gives = { λ unique name. name ≡ unique };

    fn from(name: UniqueName) -> Self {
        BusName { text: name.text }
    }
}

impl From<WellKnown> for BusName {
    ghost from_gives = { λ well_known name. name ≡ well_known };

    fn from(name: WellKnown) -> Self {
        BusName { text: name.text }
    }
}

impl fmt::Display for BusName {
    ghost output = { λ name. Some name };

    fn fmt<W: fmt::Write>(&self, f: &mut fmt::Formatter<W>) -> fmt::Result {
        f.pad(self.as_str())
    }
}
