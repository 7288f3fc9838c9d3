//! The bytes that wait for a socket.

ghost use Rattle.std.specs.Prelude.{◌≡◌, ◌≢◌, ◌-◌, ◌<◌, ◌≤◌, [], ◌++◌, length, drop, IfOk, IfErr, OnOk, OnErr, ◌==◌};
ghost use Rattle.std.specs.Io.{WritesAtMost};
ghost use Rattle.std.specs.Io.KnownBytes.{WriteAppends};
ghost use Rattle.outgoing.specs.Flushing.{Flushes, flushed_of};

use crate::chunk::Chunk;
use crate::flushed::Flushed;
use crate::parts::{Part, end_last, part_at};
use crate::sink::Sink;
use std::alloc::{AllocError, AllocFailed, Global};
use std::collections::VecDeque;
use std::io;
use std::io::{ErrorKind, IoSlice};
use std::marker::Model;

/// A chunk below so many bytes is copied behind others.
const SMALL: usize = 2048;

/// The most bytes of a part of small chunks.
const ROOM: usize = 16384;

/// The bytes that wait for a socket.
///
/// Contracts see these bytes.
#[derive(Drop)]
pub struct Outgoing<C: Chunk + Drop> {
    alloc: Global,
    parts: VecDeque<Part<C>>,
    // The small chunks behind the other parts.
    last: Vec<u8>,
    // How many bytes of the first part were written.
    written: usize,
    // Room for the next last part.
    spare: Vec<u8>,
}

impl<C: Chunk + Drop> Model for Outgoing<C> {
    ghost use Rattle.std.specs.Prelude.{◌≡◌, List, [], ℕ, drop};
    ghost use Rattle.outgoing.specs.Parts.{bytes_of, IsWithin};

    ghost Value = { List ℕ };

    ghost view = { λ o. drop o.written (bytes_of C.bytes o.parts.items o.last.items) };

    ghost invariant = { λ o. IsWithin C.bytes o.written o.parts.items o.last.items
        × (o.spare.items ≡ []) };
}

impl<C: Chunk + Drop> Outgoing<C> {
    /// No bytes. It takes no memory.
    pub fn new(alloc: Global) -> Outgoing<C>
        ensures { result ≡ [] }
    {
        Outgoing {
            alloc,
            parts: VecDeque::new(alloc),
            last: Vec::new(alloc),
            written: 0,
            spare: Vec::new(alloc),
        }
    }

    /// Whether no bytes wait.
    pub fn is_empty(&self) -> bool
        ensures { result ≡ (length self.now == 0) }
    {
        self.parts.is_empty() && self.last.is_empty()
    }

    /// Puts the bytes of a chunk behind those that wait. A chunk of 2,048 bytes or more is not
    /// copied.
    ///
    /// Where there is no memory the chunk comes back, and what waits stays as it was.
    pub fn push(&mut self, chunk: C) -> Result<(), AllocFailed<C>>
        ensures pushed { OnOk result (self.new ≡ self.old ++ C.bytes chunk) }
        ensures refused { OnErr result (self.new ≡ self.old) }
        ensures back { IfErr result (λ failed. failed.value ≡ chunk) }
    {
        if chunk.as_slice().len() < SMALL {
            return match self.copy(chunk.as_slice()) {
                Ok(()) => Ok(()),
                Err(AllocError) => Err(AllocFailed { value: chunk }),
            };
        }
        self.push_whole(chunk)
    }

    // Puts a chunk behind those that wait, where it lies.
    fn push_whole(&mut self, chunk: C) -> Result<(), AllocFailed<C>>
        requires { 0 < length (C.bytes chunk) }
        ensures pushed { OnOk result (self.new ≡ self.old ++ C.bytes chunk) }
        ensures refused { OnErr result (self.new ≡ self.old) }
        ensures back { IfErr result (λ failed. failed.value ≡ chunk) }
    {
        let Ok(()) = end_last(self.alloc, &mut self.parts, &mut self.last, &mut self.spare) else {
            return Err(AllocFailed { value: chunk });
        };
        let Ok(()) = self.parts.reserve(1) else {
            return Err(AllocFailed { value: chunk });
        };
        self.parts.push_back_reserved(Part::Whole(chunk));
        Ok(())
    }

    // Puts small bytes behind those of the last part, or into a new one where that has no room for
    // them.
    fn copy(&mut self, bytes: &[u8]) -> Result<(), AllocError>
        ensures pushed { OnOk result (self.new ≡ self.old ++ bytes.now) }
        ensures refused { OnErr result (self.new ≡ self.old) }
    {
        if bytes.len() <= ROOM.saturating_sub(self.last.len()) {
            return self.last.extend_from_slice(bytes);
        }
        end_last(self.alloc, &mut self.parts, &mut self.last, &mut self.spare)?;
        self.last.extend_from_slice(bytes)
    }

    /// Gives the sink as much of what waits as it takes.
    ///
    /// An error is the sink's own, of a kind other than `WouldBlock`, or of the kind `WriteZero`
    /// where the sink takes nothing and gives no reason. What the sink took before is gone, and
    /// the rest waits: there is one.
    pub fn flush<S: Sink>(&mut self, sink: &mut S) -> io::Result<Flushed>
        ensures flushes { Flushes self.old self.new (S.taken sink.old) (S.taken sink.new) }
        ensures flushed { IfOk result (λ flushed. flushed ≡ flushed_of self.new) }
        ensures failed { OnErr result (self.new ≢ []) }
        ensures unread { S.remaining sink.new ≡ S.remaining sink.old }
    {
        for _ in 0..u64::MAX {
            if self.is_empty() {
                return Ok(Flushed::All);
            }
            match self.write_some(sink) {
                Ok(0) => return Err(io::Error::from(ErrorKind::WriteZero)),
                Ok(count) => self.forget(count),
                Err(error) => match error.kind() {
                    ErrorKind::WouldBlock => return Ok(Flushed::Waits),
                    ErrorKind::Interrupted => {}
                    _ => return Err(error),
                },
            }
        }
        if self.is_empty() {
            return Ok(Flushed::All);
        }
        Err(io::Error::from(ErrorKind::TimedOut))
    }

    // Lends the sink the first parts, once.
    fn write_some<S: Sink>(&self, sink: &mut S) -> io::Result<usize>
        ensures bound { WritesAtMost result self.now }
        ensures bytes { WriteAppends (S.taken sink.old) (S.taken sink.new) result self.now }
        ensures unread { S.remaining sink.new ≡ S.remaining sink.old }
    {
        let last = self.last.as_slice();
        let first = &part_at(&self.parts, last, 0)[self.written..];
        let second = part_at(&self.parts, last, 1);
        let third = part_at(&self.parts, last, 2);
        let fourth = part_at(&self.parts, last, 3);
        let slices = [
            IoSlice::new(first),
            IoSlice::new(second),
            IoSlice::new(third),
            IoSlice::new(fourth),
        ];
        sink.write_parts(&slices)
    }

    // Lets go of the first bytes, which were written.
    fn forget(&mut self, count: usize)
        requires { count ≤ length self.old }
        ensures { self.new ≡ drop count self.old }
    {
        let mut left = count;
        while left > 0 {
            left = self.forget_first(left);
        }
    }

    // Lets go of the first bytes as far as they lie in the first part, and tells how many are left.
    fn forget_first(&mut self, count: usize) -> usize
        requires { (0 < count) × (count ≤ length self.old) }
        ensures fewer { result < count }
        ensures rest { self.new ≡ drop (count - result) self.old }
    {
        let Some(first) = self.parts.front() else {
            let written = self.written + count;
            if written < self.last.len() {
                self.written = written;
                return 0;
            }
            self.written = 0;
            self.last.clear();
            return 0;
        };
        let unwritten = first.as_slice().len() - self.written;
        if count < unwritten {
            self.written += count;
            return 0;
        }
        self.written = 0;
        match self.parts.pop_front() {
            Some(Part::Copied(mut bytes)) => {
                bytes.clear();
                self.spare = bytes;
                count - unwritten
            }
            _other => count - unwritten,
        }
    }
}
