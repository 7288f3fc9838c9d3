//! Whether a line records what a bus tells.

ghost use Rattle.std.specs.Prelude.{◌≡◌};
ghost use Rattle.trace_words.specs.Cutting.{parts_left};
ghost use Rattle.trace_lines.specs.LineViews.{line_told};
ghost use Rattle.trace_lines.specs.Comparing.{same_words};
ghost use Rattle.trace_words.specs.Words.{parts, space};

use crate::line::Line;
use trace_words::Parts;

fn same_words(mut words: Parts<'_>, mut others: Parts<'_>) -> bool
    ensures { result ≡ same_words (parts_left words.entry) (parts_left others.entry) }
{
    while let Some(word) = words.take() {
        let Some(other) = others.take() else {
            return false;
        };
        if word != other {
            return false;
        }
    }
    others.take().is_none()
}

impl Line<'_> {
    /// Whether the words behind the arrow are those of a text.
    pub fn records(&self, text: &str) -> bool
        ensures { result ≡ same_words (line_told self.now).recorded (parts space text.now) }
    {
        same_words(self.recorded, Parts::of(text, ' '))
    }
}
