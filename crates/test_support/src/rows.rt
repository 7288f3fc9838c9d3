//! Rows of a table that a program reads: columns, and bytes written as in Rust's literals.

use std::alloc::{AllocError, Global};
use std::fmt;

/// A line of a table, in its columns, with ` | ` between them. A column `-` is empty, and so is one
/// that isn't there.
#[derive(Drop)]
pub struct Row<'a> {
    /// The columns as they stand in the line.
    pub columns: Vec<&'a str>,
}

impl<'a> Row<'a> {
    pub fn new(alloc: Global, line: &'a str) -> Result<Self, AllocError> {
        Ok(Row {
            columns: line.split(" | ").collect(alloc)?,
        })
    }

    /// The text of a column.
    pub fn text(&self, place: usize) -> &'a str {
        match self.columns.get(place) {
            Some(text) if *text != "-" => text,
            _ => "",
        }
    }

    /// The number of a column; 0 where there is none.
    pub fn number(&self, place: usize) -> u64 {
        self.text(place).parse().unwrap_or(0)
    }

    /// The bytes of a column.
    pub fn bytes(&self, alloc: Global, place: usize) -> Result<Vec<u8>, AllocError> {
        unescaped(alloc, self.text(place))
    }
}

/// How far an escape has been read.
#[derive(Drop)]
enum Escape {
    None,
    Backslash,
    High,
    Low(u8),
}

/// The bytes of a text in which `\0`, `\n` and `\x` before two hexadecimal digits are single bytes,
/// and a backslash before any other byte stands for that byte.
pub fn unescaped(alloc: Global, text: &str) -> Result<Vec<u8>, AllocError> {
    let mut bytes = Vec::new(alloc);
    let mut escape = Escape::None;
    for byte in text.as_bytes() {
        escape = match (escape, *byte) {
            (Escape::None, b'\\') => Escape::Backslash,
            (Escape::Backslash, b'x') => Escape::High,
            (Escape::High, digit) => Escape::Low(value_of(digit)),
            (Escape::None, plain) => {
                bytes.push(plain)?;
                Escape::None
            }
            (Escape::Backslash, letter) => {
                bytes.push(match letter {
                    b'0' => 0,
                    b'n' => b'\n',
                    other => other,
                })?;
                Escape::None
            }
            (Escape::Low(high), digit) => {
                bytes.push((high << 4) | value_of(digit))?;
                Escape::None
            }
        };
    }
    Ok(bytes)
}

/// The value of a hexadecimal digit in lower case.
fn value_of(digit: u8) -> u8 {
    if digit.is_ascii_digit() {
        digit.wrapping_sub(b'0')
    } else {
        digit.wrapping_sub(b'a').wrapping_add(10)
    }
}

/// Bytes, shown as [`unescaped`] reads them.
#[derive(Clone, Copy)]
pub struct Escaped<'a>(pub &'a [u8]);

impl fmt::Display for Escaped<'_> {
    fn fmt<W: fmt::Write>(&self, f: &mut fmt::Formatter<W>) -> fmt::Result {
        for byte in self.0 {
            match *byte {
                0 => f.write_str("\\0")?,
                b'\n' => f.write_str("\\n")?,
                b'\\' => f.write_str("\\\\")?,
                b' '..=b'~' => f.write_char(char::from(*byte))?,
                other => write!(f, "\\x{other:02x}")?,
            }
        }
        Ok(())
    }
}
