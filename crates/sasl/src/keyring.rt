//! Keyrings.

ghost use Rattle.std.specs.Prelude.{◌≡◌, ◌⊎◌, Err, option_map};
ghost use Rattle.std.specs.Char.{is_ascii_digit};
ghost use Rattle.std.specs.List.{list_all};
ghost use Rattle.sasl.specs.declared.fault.KeyringFault.TheVariants.{NoMemory};
ghost use Rattle.sasl.specs.Keyrings.{cookie_in, is_number, is_secret, is_visible, keyring_cookie};

use crate::words::{Words, cut};
use crate::{Cookie, KeyringFault};
use std::alloc::Global;

/// A line of a keyring.
#[derive(Clone, Copy)]
struct Entry<'a> {
    id: &'a [u8],
    secret: &'a [u8],
}

fn are_digits(word: &[u8]) -> bool
    ensures { result ≡ list_all is_ascii_digit word.now }
{
    word.iter().all(|b| b.is_ascii_digit())
}

fn are_visible(word: &[u8]) -> bool
    ensures { result ≡ list_all is_visible word.now }
{
    word.iter().all(|b| matches!(*b, b'!'..=b'~'))
}

/// Whether a word is a number of so many digits at most.
fn is_number(word: &[u8], most: usize) -> bool
    ensures { result ≡ is_number most word.now }
{
    1 <= word.len() && word.len() <= most && are_digits(word)
}

/// Whether a word may be a secret.
fn is_secret(word: &[u8]) -> bool
    ensures { result ≡ is_secret word.now }
{
    1 <= word.len() && are_visible(word)
}

impl<'a> Entry<'a> {
    ghost use Rattle.sasl.specs.Entries.{cookie_said};

    /// The entry that a line is.
    fn read(line: &'a [u8]) -> Option<Entry<'a>>
        ensures { option_map cookie_said result ≡ cookie_in line.now }
    {
        let mut words = Words::of(line);
        let id = words.next()?;
        let time = words.next()?;
        let secret = words.next()?;
        if words.is_empty() && is_number(id, 10) && is_number(time, 20) && is_secret(secret) {
            Some(Entry { id, secret })
        } else {
            None
        }
    }
}

/// The cookie that is used of a keyring: that of its last line. Each line has a cookie's number,
/// the time when it was made and the cookie itself, parted by single spaces. (D-Bus Specification:
/// "DBUS_COOKIE_SHA1".)
///
/// # Errors
///
/// `Empty` where there is no line, `Line` with the number of the first line that does not read,
/// `NoMemory` where memory is refused.
pub fn read_keyring(alloc: Global, bytes: &[u8]) -> Result<Cookie, KeyringFault>
    ensures { (result ≡ keyring_cookie bytes.now) ⊎ (result ≡ Err NoMemory) }
{
    let mut last = None;
    let mut rest = bytes;
    let mut lines = 0;
    while !rest.is_empty() {
        let (line, behind) = cut(rest, b'\n');
        lines += 1;
        let Some(entry) = Entry::read(line) else {
            return Err(KeyringFault::Line(lines));
        };
        last = Some(entry);
        rest = behind.unwrap_or(&[]);
    }
    let Some(entry) = last else {
        return Err(KeyringFault::Empty);
    };
    let cookie = Cookie::new(alloc, entry.id, entry.secret)?;
    Ok(cookie)
}
