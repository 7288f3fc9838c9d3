//! One pass over the elements of a name.

ghost use Rattle.std.specs.Prelude.{◌≡◌, ◌≤◌, length, drop, true, Some, None, IfSome, OnOk, MatchResult};
ghost use Rattle.names.specs.Elements.{Style as ElementStyle, IsNoLetter, is_letter, is_separator, is_element_byte, elements_fault, sized_fault};

use crate::fault::NameFault;

/// What stands between two elements of a kind of name, if it can have several, and what an element
/// is made of.
#[derive(Clone, Copy)]
pub struct Style {
    pub separator: Option<u8>,
    pub hyphen: bool,
    pub digit_first: bool,
}

fn is_letter(byte: u8) -> bool
    ensures { result ≡ is_letter byte }
{
    matches!(byte, b'A'..=b'Z' | b'a'..=b'z')
}

impl Style {
    fn is_separator(self, byte: u8) -> bool
        ensures { result ≡ is_separator self.separator byte }
    {
        match self.separator {
            Some(separator) => byte == separator,
            None => false,
        }
    }

    fn is_element_byte(self, byte: u8) -> bool
        ensures { result ≡ is_element_byte record {
          separator = self.separator;
          hyphen = self.hyphen;
          digit_first = self.digit_first;
        } byte }
    {
        match byte {
            b'A'..=b'Z' | b'a'..=b'z' | b'0'..=b'9' | b'_' => true,
            b'-' => self.hyphen,
            _ => false,
        }
    }

    /// The first fault of what is to be elements, from a place of the name on. Where `enough` is
    /// not set there are to be two.
    // Most bytes are letters, which need no further look: no style is separated by one.
    #[tactic(auto, using(crate::proofs::Letters::letters_stay))]
    pub fn fault(self, enough: bool, from: usize, name: &[u8]) -> Option<NameFault>
        requires begins { from ≤ length name.now }
        requires separator { IfSome self.separator IsNoLetter }
        ensures { result ≡ elements_fault record {
          separator = self.separator;
          hyphen = self.hyphen;
          digit_first = self.digit_first;
        } true enough from (drop from name.now) }
    {
        let mut begins = true;
        let mut enough_now = enough;
        for i in from..name.len() {
            let byte = name[i];
            if is_letter(byte) {
                begins = false;
            } else if self.is_separator(byte) {
                if begins {
                    return Some(NameFault::BadByte(i));
                }
                begins = true;
                enough_now = true;
            } else {
                if !self.is_element_byte(byte) {
                    return Some(NameFault::BadByte(i));
                }
                if begins && !self.digit_first && byte.is_ascii_digit() {
                    return Some(NameFault::DigitFirst);
                }
                begins = false;
            }
        }
        if begins {
            return Some(NameFault::BadByte(name.len()));
        }
        if enough_now {
            None
        } else {
            Some(NameFault::TooFewElements)
        }
    }

    /// Whether bytes are a name of at most 255 bytes that is made of elements. Where
    /// `one_is_enough` is not set there are to be two.
    pub fn check(self, one_is_enough: bool, text: &[u8]) -> Result<(), NameFault>
        requires { IfSome self.separator IsNoLetter }
        ensures fits { OnOk result (length text.now ≤ 255) }
        ensures fault { let style : ElementStyle = record {
          separator = self.separator;
          hyphen = self.hyphen;
          digit_first = self.digit_first;
        } in
            MatchResult result
            (λ _. sized_fault (elements_fault style true one_is_enough 0) text.now ≡ None)
            (λ fault.
            sized_fault (elements_fault style true one_is_enough 0) text.now ≡ Some fault) }
    {
        if text.is_empty() {
            return Err(NameFault::Empty);
        }
        if text.len() > 255 {
            return Err(NameFault::TooLong);
        }
        match self.fault(one_is_enough, 0, text) {
            Some(fault) => Err(fault),
            None => Ok(()),
        }
    }
}
