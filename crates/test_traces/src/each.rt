//! Rows that stand for many lines.

use std::alloc::{AllocError, Global};
use trace_lines::Draft;

/// Lines with ` ; ` between them, that stand there once for each number of a range. In them `#` is
/// that number, and `%` one that rises with it.
#[derive(Clone, Copy)]
pub struct Each<'a> {
    pub first: u64,
    pub last: u64,
    /// What `%` is at first.
    pub other: u64,
    pub lines: &'a str,
}

impl<'a> Each<'a> {
    /// A row `each FIRST LAST OTHER LINE ; LINE ..`; none where it is another.
    pub fn read(row: &'a str) -> Option<Each<'a>> {
        let rest = row.strip_prefix("each ")?;
        let (first, rest) = rest.split_once(' ')?;
        let (last, rest) = rest.split_once(' ')?;
        let (other, lines) = rest.split_once(' ')?;
        Some(Each {
            first: first.parse().ok()?,
            last: last.parse().ok()?,
            other: other.parse().ok()?,
            lines,
        })
    }
}

/// A text with a number in the place of each such mark.
pub fn numbered(alloc: Global, text: &str, mark: char, number: u64) -> Result<String, AllocError> {
    let mut draft = Draft::new(alloc);
    let mut parts = text.split(mark);
    if let Some(front) = parts.next() {
        draft.push(front)?;
    }
    for part in parts {
        draft.push_number(number)?;
        draft.push(part)?;
    }
    Ok(draft.into_string())
}
