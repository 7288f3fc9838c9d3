//! Rows in words.

/// The words of a row, with single spaces between them.
#[derive(Clone, Copy)]
pub struct Words<'a> {
    /// What follows the words that were taken.
    pub rest: &'a str,
}

impl<'a> Words<'a> {
    pub fn of(row: &'a str) -> Words<'a> {
        Words { rest: row }
    }

    /// The next word; the empty text where there is none.
    pub fn next(&mut self) -> &'a str {
        let (word, rest) = self.rest.split_once(' ').unwrap_or((self.rest, ""));
        self.rest = rest;
        word
    }

    /// The next word as a number; 0 where it is none.
    pub fn number(&mut self) -> u32 {
        self.next().parse().unwrap_or(0)
    }
}
