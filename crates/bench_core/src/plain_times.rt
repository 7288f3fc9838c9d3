//! The times of the same works in plain Rust.

ghost use Rattle.std.specs.Prelude.{◌≡◌, [], find, option_map, string_bytes};
ghost use Rattle.std.specs.Str.{bytes_eq};

use anyhow::{Context, Result};
use std::alloc::Global;

/// What each work takes in plain Rust, in tenths of a nanosecond.
#[derive(Drop)]
pub struct PlainTimes {
    times: Vec<(String, u64)>,
}

impl PlainTimes {
    pub fn new(alloc: Global) -> Self
        ensures { result.times.items ≡ [] }
    {
        PlainTimes {
            times: Vec::new(alloc),
        }
    }

    /// Reads lines of a work's name, a tab and its time.
    pub fn read(alloc: Global, text: &str) -> Result<Self> {
        let mut times = Vec::new(alloc);
        for line in text.lines() {
            let (name, time) = line.split_once('\t').context("a line without a tab")?;
            let time = time.parse::<u64>().context("a time that is no number")?;
            times.push((String::from_str(alloc, name)?, time))?;
        }
        Ok(PlainTimes { times })
    }

    /// The time of the first work of this name.
    pub fn of(&self, name: &str) -> Option<u64>
        ensures { result ≡ option_map (λ line. line.1)
            (find (λ line. bytes_eq (string_bytes line.0) name.now) self.now.times.items) }
    {
        let line = self.times.iter().find(|line| line.0.as_str() == name)?;
        Some(line.1)
    }
}
