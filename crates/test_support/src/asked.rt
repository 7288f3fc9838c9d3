//! What a program is asked for that tells of its parts.

use std::str;

/// Which parts a program is to run, and how often.
#[derive(Clone, Copy, Debug)]
pub struct Asked<'a> {
    pub times: u32,
    /// The name of a part. An empty one asks for all.
    part: &'a str,
}

impl<'a> Asked<'a> {
    /// What standard input asks for: `3 times mail` for a part thrice, `mail` for it once, and
    /// nothing for each part once.
    pub fn of(input: &'a [u8]) -> Asked<'a> {
        let input = str::from_utf8(input).unwrap_or("none").trim_end();
        let (times, part) = input.split_once(" times ").unwrap_or(("1", input));
        Asked {
            times: times.parse().unwrap_or(0),
            part,
        }
    }

    /// Whether the part of this name is asked for.
    pub fn has(&self, part: &str) -> bool {
        self.part.is_empty() || part == self.part
    }
}

/// What is told of a part.
pub fn told(is_answered: bool) -> &'static str {
    if is_answered {
        "as it should be"
    } else {
        "wrong"
    }
}
