//! The words of a command.

ghost use Rattle.std.specs.Prelude.{◌≡◌, [], ◌∷◌, MatchOption};
ghost use Rattle.std.specs.Iterator.{YieldsFirstRef, item_count};
ghost use Rattle.service_files.specs.ServiceFiles.{words_of};
ghost use Rattle.service_files.specs.Words.{words_left};

/// The first word of a command, and what stands behind it.
fn first_word(command: &str) -> Option<(&str, &str)>
    ensures { MatchOption result (words_of command.now ≡ [])
        (λ cut. words_of command.now ≡ cut.0.now ∷ words_of cut.1.now) }
{
    let mut rest = command;
    while let Some((word, behind)) = rest.split_once(' ') {
        if !word.is_empty() {
            return Some((word, behind));
        }
        rest = behind;
    }
    if rest.is_empty() {
        None
    } else {
        Some((rest, ""))
    }
}

/// The words that are left of a command, in order: what stands between its spaces and is not empty.
#[derive(Clone, Copy)]
pub struct Words<'a> {
    left: &'a str,
}

impl<'a> Words<'a> {
    pub(crate) fn of(command: &'a str) -> Words<'a>
        ensures { words_left result ≡ words_of command.now }
    {
        Words { left: command }
    }
}

impl<'a> Iterator for Words<'a> {
    type Item = &'a str;

    ghost next_gives = { YieldsFirstRef words_left };

    ghost remaining = { item_count words_left };

    fn next(&mut self) -> Option<&'a str> {
        let (word, behind) = first_word(self.left)?;
        self.left = behind;
        Some(word)
    }
}
