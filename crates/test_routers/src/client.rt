//! A client, and the socket of its connection.

ghost use Rattle.std.specs.Prelude.{◌≡◌, ◌≤◌, length, IfOk};

use crate::scenario::ClientMessage;
use match_rules::{Argument, MessageKind};
use message::{Framer, Message, first_arguments};
use router_host::Socket;
use std::alloc::{AllocError, Global};
use std::fmt::Write as _;
use std::io::{ErrorKind, IoSlice, Write};
use std::sync::{Mutex, Wait};
use std::{fmt, io};

/// A client as its router sees it, and what it received.
#[derive(Drop)]
pub(crate) struct Client {
    alloc: Global,
    /// What it sent that is not read yet.
    unread: Vec<u8>,
    /// Whether it sends no more.
    hangs_up: bool,
    /// The serial of its next message.
    serial: u32,
    /// How many bytes its socket takes.
    room: usize,
    /// Whether its socket refused bytes.
    is_blocked: bool,
    framer: Framer,
    /// How many messages it received.
    count: u32,
    /// A line for each of them.
    received: String,
}

/// A message in a line: its serial, what it is, and the texts among its arguments.
fn write_line(line: &mut String, message: &Message) -> Result<(), AllocError> {
    write!(line, "{} ", message.serial())?;
    let replies_to = message.reply_serial().unwrap_or(0);
    match message.kind() {
        MessageKind::MethodReturn => write!(line, "reply {replies_to}")?,
        MessageKind::Error => {
            let name = message.error_name().unwrap_or("");
            write!(line, "error {replies_to} {name}")?;
        }
        _ => {
            let sender = message.sender().unwrap_or("");
            let member = message.member().unwrap_or("");
            write!(line, "{sender} {member}")?;
        }
    }
    let arguments = first_arguments(message);
    for argument in arguments.as_slice() {
        if let Argument::String(text) = *argument {
            write!(line, " {text}")?;
        }
    }
    writeln!(line)
}

impl Client {
    pub(crate) fn new(alloc: Global, room: usize) -> Client {
        Client {
            alloc,
            unread: Vec::new(alloc),
            hangs_up: false,
            serial: 1,
            room,
            is_blocked: false,
            framer: Framer::new(alloc),
            count: 0,
            received: String::new(alloc),
        }
    }

    /// It sends something. False where there is no memory for it.
    pub(crate) fn send(&mut self, message: ClientMessage) -> bool {
        let Ok(bytes) = message.bytes(self.alloc, self.serial) else {
            return false;
        };
        self.serial = self.serial.saturating_add(message.count());
        self.unread.extend_from_slice(bytes.as_slice()).is_ok()
    }

    /// It sends no more.
    pub(crate) fn hang_up(&mut self) {
        self.hangs_up = true;
    }

    /// Its socket takes all bytes from now on.
    pub(crate) fn take_all(&mut self) {
        self.room = usize::MAX;
        self.is_blocked = false;
    }

    pub(crate) fn count(&self) -> u32 {
        self.count
    }

    pub(crate) fn is_blocked(&self) -> bool {
        self.is_blocked
    }

    pub(crate) fn received(&self) -> &str {
        self.received.as_str()
    }

    /// Its router reads what it sent.
    fn read(&mut self, room: &mut [u8]) -> io::Result<usize>
        ensures bound { IfOk result (λ count. count ≤ length room.old) }
        ensures room { length room.new ≡ length room.old }
    {
        let count = self.unread.len().min(room.len());
        if count == 0 && !self.hangs_up {
            return Err(io::Error::from(ErrorKind::WouldBlock));
        }
        room[..count].copy_from_slice(&self.unread[..count]);
        let rest = Vec::from_slice(self.alloc, &self.unread[count..])?;
        self.unread = rest;
        Ok(count)
    }

    /// It is written bytes, as many as its socket takes.
    fn take(&mut self, bytes: &[u8]) -> io::Result<usize>
        ensures { IfOk result (λ count. count ≤ length bytes.now) }
    {
        let count = bytes.len().min(self.room);
        if count == 0 {
            self.is_blocked = true;
            return Err(io::Error::from(ErrorKind::WouldBlock));
        }
        self.framer.feed(&bytes[..count])?;
        self.room -= count;
        self.hear();
        Ok(count)
    }

    /// It reads the messages that came.
    fn hear(&mut self) {
        for _ in 0..10_000 {
            match self.framer.next() {
                Ok(Some(message)) => {
                    self.count = self.count.saturating_add(1);
                    let _short = write_line(&mut self.received, &message);
                }
                Ok(None) => return,
                Err(_) => {
                    let _short = writeln!(self.received, "no message");
                    return;
                }
            }
        }
    }
}

/// The socket of a client's connection.
#[derive(Drop)]
pub(crate) struct ClientSocket<'a, R: Wait> {
    pub(crate) rt: &'a R,
    pub(crate) client: &'a Mutex<Client>,
    /// Which client it is.
    pub(crate) index: usize,
}

impl<'a, R: Wait> Write for ClientSocket<'a, R> {
    fn write(&mut self, bytes: &[u8]) -> io::Result<usize> {
        self.client.lock(self.rt).take(bytes)
    }

    fn flush(&mut self) -> io::Result<()> {
        Ok(())
    }
}

impl<'a, R: Wait> outgoing::Sink for ClientSocket<'a, R> {
    fn write_parts(&mut self, parts: &[IoSlice<'_>]) -> io::Result<usize> {
        self.write_vectored(parts)
    }
}

impl<'a, R: Wait> Socket for ClientSocket<'a, R> {
    fn read(&mut self, room: &mut [u8]) -> io::Result<usize> {
        self.client.lock(self.rt).read(room)
    }
}
