//! What a row brought.

use anyhow::Result;
use std::alloc::Global;

/// What a row brought, one thing after the other.
#[derive(Drop)]
pub struct Journal {
    pub text: String,
}

impl Journal {
    pub fn new(alloc: Global) -> Journal {
        Journal {
            text: String::new(alloc),
        }
    }

    /// Something of a client follows.
    pub fn begin(&mut self, client: &str) -> Result<()> {
        let parting = if self.text.is_empty() { "" } else { "; " };
        write!(self.text, "{parting}{client}")?;
        Ok(())
    }
}
