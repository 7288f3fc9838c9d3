//! Clients.

use crate::journal::Journal;
use crate::script::Wire;
use crate::shown::put_message;
use anyhow::Result;
use message::Framer;
use router_host::EndCause;
use std::alloc::Global;
use std::cell::RefCell;
use std::mem;
use std::rc::Rc;
use test_support::Escaped;

/// A client of the bus. One of a crowd has no name, and what it gets is not told.
#[derive(Drop)]
pub struct Client {
    alloc: Global,
    pub name: String,
    /// The router that serves it, counted from 0.
    pub router: usize,
    pub key: usize,
    pub wire: Rc<RefCell<Wire>>,
    framer: Framer,
    /// It gets lines of text until its first message.
    gets_lines: bool,
    /// Why its connection is over, if it is, and that is not told yet.
    pub end: Option<EndCause>,
    pub is_over: bool,
}

impl Client {
    /// A client that came, and may be asked first who it is.
    pub fn new(
        alloc: Global,
        name: String,
        router: usize,
        key: usize,
        wire: Rc<RefCell<Wire>>,
        is_asked: bool,
    ) -> Client {
        Client {
            alloc,
            name,
            router,
            key,
            wire,
            framer: Framer::new(alloc),
            gets_lines: is_asked,
            end: None,
            is_over: false,
        }
    }

    /// The bytes that came since this was asked last.
    fn take_written(&self) -> Vec<u8> {
        match self.wire.try_borrow_mut() {
            Ok(mut wire) => mem::replace(&mut wire.written, Vec::new(self.alloc)),
            Err(_) => Vec::new(self.alloc),
        }
    }

    /// Tells what came, and why the connection is over, if it is.
    pub fn tell(&mut self, as_bytes: bool, journal: &mut Journal) -> Result<()> {
        let written = self.take_written();
        if !self.name.is_empty() {
            if as_bytes {
                self.tell_bytes(&written, journal)?;
            } else {
                self.tell_words(&written, journal)?;
            }
        }
        if let Some(cause) = self.end.take() {
            journal.begin(self.name.as_str())?;
            write!(journal.text, " {cause}")?;
        }
        Ok(())
    }

    fn tell_bytes(&self, written: &[u8], journal: &mut Journal) -> Result<()> {
        if !written.is_empty() {
            journal.begin(self.name.as_str())?;
            write!(journal.text, ": {}", Escaped(written))?;
        }
        Ok(())
    }

    /// Tells lines of text, and then messages.
    fn tell_words(&mut self, written: &[u8], journal: &mut Journal) -> Result<()> {
        let mut rest = written;
        if self.gets_lines {
            for line in written.split_inclusive(|byte| *byte == b'\n') {
                if line.first() == Some(&b'l') {
                    self.gets_lines = false;
                    break;
                }
                journal.begin(self.name.as_str())?;
                write!(journal.text, ": {}", Escaped(line))?;
                rest = rest.get(line.len()..).unwrap_or(b"");
            }
        }
        self.framer.feed(rest)?;
        self.tell_messages(written.len(), journal)
    }

    /// Tells the whole messages, so many at most.
    fn tell_messages(&mut self, most: usize, journal: &mut Journal) -> Result<()> {
        for _message in 0..most {
            let Some(message) = self.framer.next()? else {
                return Ok(());
            };
            journal.begin(self.name.as_str())?;
            write!(journal.text, ": ")?;
            put_message(self.alloc, &message, &mut journal.text)?;
        }
        Ok(())
    }
}
