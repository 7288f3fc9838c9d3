//! What rows are played on.

use crate::each::{Each, numbered};
use std::alloc::{AllocError, Global};

/// A bus, or several, on which lines are played.
pub trait Player {
    /// What stands in the place of a line; none where nothing is told of it.
    fn line(&mut self, alloc: Global, text: &str) -> Result<Option<String>, AllocError>;

    /// What stands in the place of lines of changes with ` ; ` between them, made at once by those
    /// that can do that; none where nothing is told of them.
    fn batch(&mut self, alloc: Global, lines: &str) -> Result<Option<String>, AllocError>;
}

/// What stands in the place of a row; none where nothing is told of it. A heading stays.
pub fn answer<P: Player>(
    player: &mut P,
    alloc: Global,
    row: &str,
) -> Result<Option<String>, AllocError> {
    if row.is_empty() || row.starts_with('#') {
        return Ok(Some(String::from_str(alloc, row)?));
    }
    if let Some(each) = Each::read(row) {
        return answer_to_each(player, alloc, row, each);
    }
    if let Some(lines) = row.strip_prefix("batch ") {
        return match player.batch(alloc, lines)? {
            Some(lines) => Ok(Some(format!(in alloc; "batch {lines}")?)),
            None => Ok(None),
        };
    }
    player.line(alloc, row)
}

/// The row itself, or the first of its lines in whose place something else stands.
fn answer_to_each<P: Player>(
    player: &mut P,
    alloc: Global,
    row: &str,
    each: Each<'_>,
) -> Result<Option<String>, AllocError> {
    for (number, other) in (each.first..=each.last).zip(each.other..) {
        for line in each.lines.split(" ; ") {
            let line = numbered(alloc, line, '#', number)?;
            let line = numbered(alloc, line.as_str(), '%', other)?;
            let told = player.line(alloc, line.as_str())?;
            if told != Some(line) {
                return Ok(told);
            }
        }
    }
    Ok(Some(String::from_str(alloc, row)?))
}
