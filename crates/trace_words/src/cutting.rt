//! How a text is cut into parts.

ghost use Rattle.std.specs.Prelude.{◌≡◌, ◌<◌, [], ◌∷◌, MatchOption};
ghost use Rattle.trace_words.specs.Words.{parts};
ghost use Rattle.trace_words.specs.Cutting.{parts_left, texts_left};

use crate::parts::Parts;

/// Cuts a text at its first separator: the first part, and what stands behind it where there is a
/// separator.
fn cut(text: &str, separator: char) -> (&str, Option<&str>)
    requires { separator < 128 }
    ensures { parts separator text.now ≡ result.0.now ∷ texts_left separator result.1 }
{
    match text.split_once(separator) {
        Some((part, behind)) => (part, Some(behind)),
        None => (text, None),
    }
}

impl<'a> Parts<'a> {
    /// The parts of a text.
    pub fn of(text: &'a str, separator: char) -> Parts<'a>
        requires { separator < 128 }
        ensures { parts_left result ≡ parts separator text.now }
    {
        Parts {
            separator,
            rest: Some(text),
        }
    }

    /// Takes the next part.
    pub fn take(&mut self) -> Option<&'a str>
        ensures { MatchOption result ((parts_left self.old ≡ []) × (parts_left self.new ≡ []))
            (λ part. parts_left self.old ≡ part.now ∷ parts_left self.new) }
    {
        let text = self.rest?;
        let (part, behind) = cut(text, self.separator);
        self.rest = behind;
        Some(part)
    }
}
