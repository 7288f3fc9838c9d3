//! The keys of match rules.

ghost use Rattle.std.specs.Prelude.{◌≡◌, ◌<◌};
ghost use Rattle.match_rules.specs.Reading.{argument_named, number_named, numbered};

/// A key of a match rule, in the order in which they are looked at: what costs least comes first.
/// An argument's number is at most 63. (D-Bus Specification: "Match Rules".)
#[derive(Clone, Copy, Debug, PartialEq, Eq)]
pub enum Key {
    Type,
    Member,
    Interface,
    Path,
    PathNamespace,
    Sender,
    Destination,
    /// `arg0` to `arg63`.
    Argument(u8),
    /// `arg0path` to `arg63path`.
    ArgumentPath(u8),
    Argument0Namespace,
    Eavesdrop,
}

impl Key {
    ghost use Rattle.std.specs.List.{slice_index_or};
    ghost use Rattle.match_rules.specs.Keys.{all_keys, key_place};
    ghost use Rattle.match_rules.specs.Reading.{key_named};
    ghost use Rattle.match_rules.specs.declared.key.Key.TheVariants.{Eavesdrop};

    /// The key at a place in the order of keys.
    pub(crate) fn at(place: u8) -> Self
        ensures { result ≡ slice_index_or all_keys place Eavesdrop }
    {
        match place {
            0 => Key::Type,
            1 => Key::Member,
            2 => Key::Interface,
            3 => Key::Path,
            4 => Key::PathNamespace,
            5 => Key::Sender,
            6 => Key::Destination,
            7..=70 => Key::Argument(place - 7),
            71..=134 => Key::ArgumentPath(place - 71),
            135 => Key::Argument0Namespace,
            _ => Key::Eavesdrop,
        }
    }

    /// The place of the key in the order of keys.
    pub(crate) fn place(self) -> u16
        ensures { result ≡ key_place self }
    {
        match self {
            Key::Type => 0,
            Key::Member => 1,
            Key::Interface => 2,
            Key::Path => 3,
            Key::PathNamespace => 4,
            Key::Sender => 5,
            Key::Destination => 6,
            Key::Argument(number) => 7 + number as u16,
            Key::ArgumentPath(number) => 71 + number as u16,
            Key::Argument0Namespace => 135,
            Key::Eavesdrop => 136,
        }
    }

    /// The key that is written so, if there is one.
    pub(crate) fn named(text: &[u8]) -> Option<Self>
        ensures { result ≡ key_named text.now }
    {
        if text == b"type".as_slice() {
            return Some(Key::Type);
        }
        if text == b"sender".as_slice() {
            return Some(Key::Sender);
        }
        if text == b"interface".as_slice() {
            return Some(Key::Interface);
        }
        if text == b"member".as_slice() {
            return Some(Key::Member);
        }
        if text == b"path".as_slice() {
            return Some(Key::Path);
        }
        if text == b"path_namespace".as_slice() {
            return Some(Key::PathNamespace);
        }
        if text == b"destination".as_slice() {
            return Some(Key::Destination);
        }
        if text == b"eavesdrop".as_slice() {
            return Some(Key::Eavesdrop);
        }
        if text.starts_with(b"arg") {
            return argument_named(&text[3..]);
        }
        None
    }
}

/// Rules look at the arguments with a number below this. (D-Bus Specification: "Match Rules")
pub const MAX_ARGUMENTS: usize = 64;

/// The key of an argument, by what stands behind `arg`.
fn argument_named(text: &[u8]) -> Option<Key>
    ensures { result ≡ argument_named text.now }
{
    let Some((first, rest)) = text.split_first() else {
        return None;
    };
    if !first.is_ascii_digit() {
        return None;
    }
    number_named(*first - b'0', rest)
}

/// The key of an argument, by the first digit of its number and what stands behind it. No number
/// begins with a zero but 0.
fn number_named(first: u8, text: &[u8]) -> Option<Key>
    requires { first < 10 }
    ensures { result ≡ number_named first text.now }
{
    let Some((second, rest)) = text.split_first() else {
        return numbered(first, text);
    };
    if second.is_ascii_digit() {
        let number = 10 * first + (*second - b'0');
        if 0 < first && usize::from(number) < MAX_ARGUMENTS {
            return numbered(number, rest);
        }
    }
    numbered(first, text)
}

/// The key of an argument, by its number and what stands behind it.
fn numbered(number: u8, text: &[u8]) -> Option<Key>
    ensures { result ≡ numbered number text.now }
{
    if text.is_empty() {
        return Some(Key::Argument(number));
    }
    if text == b"path".as_slice() {
        return Some(Key::ArgumentPath(number));
    }
    if number == 0 && text == b"namespace".as_slice() {
        return Some(Key::Argument0Namespace);
    }
    None
}
