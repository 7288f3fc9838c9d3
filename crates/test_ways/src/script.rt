//! A socket that does what a test says.

use outgoing::Sink;
use std::io;
use std::io::{ErrorKind, IoSlice, Write};

/// A socket that takes so many bytes at once and so many in all, and then refuses.
#[derive(Drop)]
pub struct Script {
    pub taken: Vec<u8>,
    pub room: usize,
    pub at_once: usize,
    pub refusal: ErrorKind,
    /// The most parts that it was lent in one call.
    pub most_parts: usize,
}

impl Write for Script {
    fn write(&mut self, bytes: &[u8]) -> io::Result<usize> {
        if self.room == 0 {
            return Err(io::Error::from(self.refusal));
        }
        let count = bytes.len().min(self.room).min(self.at_once);
        self.taken.extend_from_slice(&bytes[..count])?;
        self.room -= count;
        Ok(count)
    }

    fn flush(&mut self) -> io::Result<()> {
        Ok(())
    }
}

impl Sink for Script {
    fn write_parts(&mut self, parts: &[IoSlice<'_>]) -> io::Result<usize> {
        let lent = parts
            .iter()
            .filter(|part| !part.as_slice().is_empty())
            .count();
        self.most_parts = self.most_parts.max(lent);
        self.write_vectored(parts)
    }
}
