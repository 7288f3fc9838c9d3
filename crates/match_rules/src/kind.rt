//! The types of messages.

ghost use Rattle.std.specs.Prelude.{◌≡◌, option_map};

use std::fmt;

/// What a message is. (D-Bus Specification: "Message Format", "Message Types".)
#[derive(Clone, Copy, Debug, PartialEq, Eq)]
pub enum MessageKind {
    MethodCall,
    MethodReturn,
    Error,
    Signal,
    /// A type that the standard does not define, by its number.
    Unknown(u8),
}

impl MessageKind {
    ghost use Rattle.match_rules.specs.Kinds.{kind_named, kind_number, kind_word};

    /// The number that stands in a message's header.
    pub fn number(self) -> u8
        ensures { result ≡ kind_number self }
    {
        match self {
            MessageKind::MethodCall => 1,
            MessageKind::MethodReturn => 2,
            MessageKind::Error => 3,
            MessageKind::Signal => 4,
            MessageKind::Unknown(number) => number,
        }
    }

    /// The word for the type in a match rule, if there is one. (D-Bus Specification: "Match
    /// Rules".)
    pub fn word(self) -> Option<&'static str>
        ensures { option_map (λ word. word.now) result ≡ kind_word self }
    {
        match self {
            MessageKind::MethodCall => Some("method_call"),
            MessageKind::MethodReturn => Some("method_return"),
            MessageKind::Error => Some("error"),
            MessageKind::Signal => Some("signal"),
            MessageKind::Unknown(_) => None,
        }
    }

    /// The type that a word of match rules names.
    pub(crate) fn named(word: &[u8]) -> Option<Self>
        ensures { result ≡ kind_named word.now }
    {
        if word == b"method_call".as_slice() {
            return Some(MessageKind::MethodCall);
        }
        if word == b"method_return".as_slice() {
            return Some(MessageKind::MethodReturn);
        }
        if word == b"error".as_slice() {
            return Some(MessageKind::Error);
        }
        if word == b"signal".as_slice() {
            return Some(MessageKind::Signal);
        }
        None
    }
}

impl From<u8> for MessageKind {
    ghost use Rattle.match_rules.specs.Kinds.{kind_of};

    ghost from_gives = { λ number kind. kind ≡ kind_of number };

    fn from(number: u8) -> Self {
        match number {
            1 => MessageKind::MethodCall,
            2 => MessageKind::MethodReturn,
            3 => MessageKind::Error,
            4 => MessageKind::Signal,
            _ => MessageKind::Unknown(number),
        }
    }
}

impl fmt::Display for MessageKind {
    fn fmt<W: fmt::Write>(&self, f: &mut fmt::Formatter<W>) -> fmt::Result {
        match self {
            MessageKind::MethodCall => f.write_str("method_call"),
            MessageKind::MethodReturn => f.write_str("method_return"),
            MessageKind::Error => f.write_str("error"),
            MessageKind::Signal => f.write_str("signal"),
            MessageKind::Unknown(number) => write!(f, "{number}"),
        }
    }
}
