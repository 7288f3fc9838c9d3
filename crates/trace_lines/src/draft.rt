//! A text that is being written.

ghost use Rattle.std.specs.Prelude.{◌≡◌, ◌++◌, [], decimal, string_bytes, OnOk};
ghost use Rattle.trace_lines.specs.Texts.{hex_text};

use std::alloc::{AllocError, Global};
use std::marker::Model;

/// A text that is being written. Where there is no memory for more, some of what was to be appended
/// may stand in it.
#[derive(Drop)]
pub struct Draft {
    alloc: Global,
    text: String,
}

impl Model for Draft {
    ghost use Rattle.std.specs.Prelude.{string_bytes};
    ghost use Rattle.names.specs.Texts.{Text};

    ghost Value = { Text };

    ghost view = { λ d. string_bytes d.text };
}

impl Draft {
    /// Nothing is written.
    pub fn new(alloc: Global) -> Draft
        ensures { result ≡ [] }
    {
        Draft {
            alloc,
            text: String::new(alloc),
        }
    }

    /// Where it takes its memory.
    pub(crate) fn alloc(&self) -> Global {
        self.alloc
    }

    /// Appends a text.
    pub fn push(&mut self, text: &str) -> Result<(), AllocError>
        ensures { OnOk result (self.new ≡ self.old ++ text.now) }
    {
        self.text.push_str(text)
    }

    /// Appends a number.
    pub fn push_number(&mut self, number: u64) -> Result<(), AllocError>
        ensures { OnOk result (self.new ≡ self.old ++ decimal number) }
    {
        let mut digits = itoa::Buffer::new();
        self.push(digits.format(number))
    }

    /// Appends a text in hex.
    pub fn push_hex(&mut self, text: &str) -> Result<(), AllocError>
        ensures { OnOk result (self.new ≡ self.old ++ hex_text text.now) }
    {
        let digits = hex::encode(self.alloc, text)?;
        self.push("x")?;
        self.push(digits.as_str())
    }

    /// Nothing is written any more. What is written next stands in the same memory.
    pub fn clear(&mut self)
        ensures { self.new ≡ [] }
    {
        self.text.clear();
    }

    /// What is written.
    pub fn as_str(&self) -> &str
        ensures { result.now ≡ self.now }
    {
        self.text.as_str()
    }

    /// What is written.
    pub fn into_string(self) -> String
        ensures { string_bytes result ≡ self }
    {
        self.text
    }
}
