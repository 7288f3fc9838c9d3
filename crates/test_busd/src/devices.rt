//! Readers and writers that move one byte at a time, and fail, and a client that waits for a reply.

use crate::runs::{joined, run};
use busd_core::{ReadBeside, RunFault};
use std::alloc::{AllocError, Global};
use std::io;
use std::io::{ErrorKind, Read, Write};
use std::process::Abort;
use test_support::messages::{ACQUIRED, GET_NAME_OWNER, HELLO, OWNER, WELCOME};

/// Gives one byte at a time, and then ends or fails.
#[derive(Drop)]
struct OneByOne<'a> {
    bytes: &'a [u8],
    fails: bool,
}

impl Read for OneByOne<'_> {
    fn read(&mut self, buf: &mut [u8]) -> io::Result<usize> {
        if buf.is_empty() {
            return Ok(0);
        }
        match self.bytes.split_first() {
            Some((first, others)) => {
                buf[0] = *first;
                self.bytes = others;
                Ok(1)
            }
            None if self.fails => Err(io::Error::from(ErrorKind::UnexpectedEof)),
            None => Ok(0),
        }
    }
}

/// Takes one byte at a time while there is room, and then fails.
#[derive(Drop)]
struct Room {
    held: Vec<u8>,
    room: usize,
}

impl Write for Room {
    fn write(&mut self, buf: &[u8]) -> io::Result<usize> {
        if buf.is_empty() {
            return Ok(0);
        }
        if self.held.len() >= self.room {
            return Err(io::Error::from(ErrorKind::WriteZero));
        }
        self.held.push(buf[0])?;
        Ok(1)
    }

    fn flush(&mut self) -> io::Result<()> {
        Ok(())
    }
}

/// Gives one byte at a time, and more once the writer holds so much.
#[derive(Drop)]
struct Waiting<'a> {
    bytes: &'a [u8],
    due: usize,
    more: &'a [u8],
}

impl ReadBeside<Vec<u8>> for Waiting<'_> {
    fn read_beside(&mut self, writer: &Vec<u8>, room: &mut [u8]) -> io::Result<usize> {
        if room.is_empty() {
            return Ok(0);
        }
        if self.bytes.is_empty() {
            if writer.len() < self.due {
                return Err(io::Error::from(ErrorKind::WouldBlock));
            }
            self.bytes = self.more;
            self.more = &[];
        }
        match self.bytes.split_first() {
            Some((first, others)) => {
                room[0] = *first;
                self.bytes = others;
                Ok(1)
            }
            None => Ok(0),
        }
    }
}

/// How many bytes of the sample are read before the reader fails, if it does; for how many the
/// writer has room; how the run ends, and how many bytes are written then.
type Row = (Option<usize>, usize, Result<(), RunFault>, usize);

const ROWS: &[Row] = &[
    (None, 1000, Ok(()), 347),
    // The Hello is answered.
    (Some(200), 1000, Err(RunFault::Input), 258),
    (None, 0, Err(RunFault::Output), 0),
    (None, 100, Err(RunFault::Output), 100),
    (None, 258, Err(RunFault::Output), 258),
    (None, 300, Err(RunFault::Output), 300),
];

fn is_so(alloc: Global, row: &Row) -> Result<bool, AllocError> {
    let (read, room, end, written) = *row;
    let input = joined(alloc, &[HELLO, GET_NAME_OWNER])?;
    let expected = joined(alloc, &[WELCOME, ACQUIRED, OWNER])?;
    let length = read.unwrap_or(input.len()).min(input.len());
    let mut reader = OneByOne {
        bytes: &input[..length],
        fails: read.is_some(),
    };
    let mut writer = Room {
        held: Vec::new(alloc),
        room,
    };
    let ended = run(alloc, &mut reader, &mut writer);
    Ok(ended == end && Some(writer.held.as_slice()) == expected.get(..written))
}

#[test]
fn devices_that_fail(rt: HostRuntime) {
    let alloc = rt.alloc();
    for (place, row) in ROWS.iter().enumerate() {
        let is_due = is_so(alloc, row) == Ok(true) || is_so(alloc, row) == Ok(true);
        assert!(rt; is_due, "row {place}");
    }
}

/// Whether the second message comes where the client waits for the replies to the first.
fn hears_first(alloc: Global) -> Result<bool, AllocError> {
    let mut reader = Waiting {
        bytes: HELLO,
        due: WELCOME.len() + ACQUIRED.len(),
        more: GET_NAME_OWNER,
    };
    let mut writer = Vec::new(alloc);
    let ended = run(alloc, &mut reader, &mut writer);
    let expected = joined(alloc, &[WELCOME, ACQUIRED, OWNER])?;
    Ok(ended == Ok(()) && writer.as_slice() == expected.as_slice())
}

#[test]
fn a_client_that_waits(rt: HostRuntime) {
    let alloc = rt.alloc();
    assert!(rt; hears_first(alloc) == Ok(true) || hears_first(alloc) == Ok(true));
}
