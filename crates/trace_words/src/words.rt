//! What stands in a word.

ghost use Rattle.std.specs.Prelude.{◌≡◌, option_map};
ghost use Rattle.trace_words.specs.Words.{bit_of, is_bus_name, is_number, name_of, number_from, number_of};

use names::BusName;

/// Reads a bit.
pub(crate) fn bit(word: &str) -> Option<bool>
    ensures { result ≡ bit_of word.now }
{
    if word == "1" {
        return Some(true);
    }
    if word == "0" {
        return Some(false);
    }
    None
}

/// Reads on in a number.
fn number_from(number: u64, digits: &[u8]) -> Option<u64>
    ensures { result ≡ number_from number digits.now }
{
    let Some((first, rest)) = digits.split_first() else {
        return Some(number);
    };
    if !first.is_ascii_digit() {
        return None;
    }
    let number = number
        .checked_mul(10)?
        .checked_add(u64::from(*first - b'0'))?;
    number_from(number, rest)
}

/// Reads a decimal number below 2^64, without zeros before it.
pub fn number(word: &str) -> Option<u64>
    ensures { result ≡ number_of word.now }
{
    if word == "0" {
        return Some(0);
    }
    if word.is_empty() || word.starts_with('0') {
        return None;
    }
    number_from(0, word.as_bytes())
}

/// Whether a word is a number.
pub(crate) fn is_number(word: &str) -> bool
    ensures { result ≡ is_number word.now }
{
    number(word).is_some()
}

/// Whether a word is a bus name.
pub(crate) fn is_bus_name(word: &str) -> bool
    ensures { result ≡ is_bus_name word.now }
{
    BusName::check(word.as_bytes()).is_ok()
}

/// Reads a bus name.
pub(crate) fn name(word: &str) -> Option<BusName>
    ensures { option_map (λ n. n) result ≡ name_of word.now }
{
    match BusName::parse(word) {
        Ok(name) => Some(name),
        Err(_) => None,
    }
}
