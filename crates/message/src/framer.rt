//! Whole messages out of a stream that comes in pieces.

ghost use Rattle.std.specs.Prelude.{◌≡◌, ◌≢◌, ◌≤◌, ◌++◌, ℕ, true, false, List, [], Ok, Some, None, length, take, drop, OnOk, OnErr, IfOk, IfErr, IfSome, IfNone};
ghost use Rattle.message_core.specs.declared.fault.FrameFault.TheVariants.{NoMemory};
ghost use Rattle.message_core.specs.Announcements.{announced};
ghost use Rattle.message_core.specs.Messages.{Message as Record, IsMessage};
ghost use Rattle.message_core.specs.Said.{said};
ghost use Rattle.message_core.specs.Streams.{IsStream, BeginsNoMessage};
ghost use Rattle.message.specs.Framing.{Unread, IsWaiting, IsFound, IsTaken, IsJudged, IsNoFront, FaultIs};

use message_core::{FIXED_LENGTH, FrameFault, MAXIMUM_LENGTH, Message, announced_length};
use std::alloc::{AllocError, Global};
use std::marker::Model;

/// Cuts a stream into messages, in whatever pieces it comes.
#[derive(Drop)]
pub struct Framer {
    alloc: Global,
    buffer: Vec<u8>,
    from: usize,
    fault: Option<FrameFault>,
}

impl Model for Framer {
    ghost use Rattle.std.specs.Prelude.{◌≤◌, drop, length};
    ghost use Rattle.message.specs.Framing.{Unread};

    ghost Value = { Unread };

    ghost view = { λ f. record { bytes = drop f.from f.buffer.items; fault = f.fault } };

    ghost invariant = { λ f. f.from ≤ length f.buffer.items };
}

/// The length of the message that the bytes begin with, if it is there as a whole.
fn whole_length(bytes: &[u8]) -> Result<Option<usize>, FrameFault>
    ensures some { IfOk result (λ found. IfSome found (λ n. IsFound MAXIMUM_LENGTH n bytes.now)) }
    ensures none { IfOk result (λ found. IfNone found (IsWaiting MAXIMUM_LENGTH bytes.now)) }
    ensures fault { IfErr result (λ f. (FIXED_LENGTH ≤ length bytes.now)
        × (announced MAXIMUM_LENGTH bytes.now ≡ Err f)) }
    ensures memory { IfErr result (λ f. f ≢ NoMemory) }
{
    if bytes.len() < FIXED_LENGTH {
        return Ok(None);
    }
    let length = announced_length(MAXIMUM_LENGTH, bytes)?;
    if bytes.len() < length {
        return Ok(None);
    }
    Ok(Some(length))
}

/// Whether the bytes don't announce a message yet, or fewer are there than they announce.
fn is_short(bytes: &[u8]) -> bool
    ensures short { result ≡ true → IsWaiting MAXIMUM_LENGTH bytes.now }
    ensures whole { result ≡ false → IsWaiting MAXIMUM_LENGTH bytes.now → ⊥ }
{
    matches!(whole_length(bytes), Ok(None))
}

impl Framer {
    /// A framer that holds nothing.
    pub fn new(alloc: Global) -> Framer
        ensures { result ≡ record { bytes = []; fault = None } }
    {
        Framer {
            alloc,
            buffer: Vec::new(alloc),
            from: 0,
            fault: None,
        }
    }

    /// Takes a piece of the stream. After a fault it takes nothing; without memory it stays as it
    /// was.
    pub fn feed(&mut self, piece: &[u8]) -> Result<(), AllocError>
        ensures good { IfNone self.old.fault
            (OnOk result (self.new ≡ record self.old { bytes = self.old.bytes ++ piece.now })) }
        ensures spent { IfSome self.old.fault (λ _. self.new ≡ self.old) }
        ensures err { OnErr result (self.new ≡ self.old) }
    {
        if self.fault.is_some() {
            return Ok(());
        }
        if self.from == 0 || self.from < self.buffer.len() / 2 {
            self.buffer.extend_from_slice(piece)?;
            return Ok(());
        }
        // What was given out is at least half: the rest is moved to the front.
        let mut fresh = Vec::from_slice(self.alloc, &self.buffer[self.from..])?;
        fresh.extend_from_slice(piece)?;
        self.buffer = fresh;
        self.from = 0;
        Ok(())
    }

    /// Takes a piece as [`feed`](Framer::feed) does, and leaves none of it. Where all that came
    /// before was given out, it keeps the piece itself and copies nothing. Without memory the piece
    /// stays where it was.
    pub fn feed_owned(&mut self, piece: &mut Vec<u8>) -> Result<(), AllocError>
        ensures good { IfNone self.old.fault
            (OnOk result (self.new ≡ record self.old {
              bytes = self.old.bytes
                  ++ piece.old.items;
            })) }
        ensures spent { IfSome self.old.fault (λ _. self.new ≡ self.old) }
        ensures taken { OnOk result (piece.new.items ≡ []) }
        ensures err { OnErr result (self.new ≡ self.old) }
        ensures kept { OnErr result (piece.new ≡ piece.old) }
    {
        if self.fault.is_some() || self.from < self.buffer.len() {
            self.feed(piece.as_slice())?;
            piece.clear();
            return Ok(());
        }
        self.buffer = std::mem::replace(piece, Vec::new(self.alloc));
        self.from = 0;
        Ok(())
    }

    /// Whether bytes are missing: then [`next`](Framer::next) answers `None`, and else a message or
    /// a fault.
    pub fn is_waiting(&self) -> bool
        ensures waiting { result ≡ true
            → (self.now.fault ≡ None) × IsWaiting MAXIMUM_LENGTH self.now.bytes }
        ensures ready { result ≡ false → self.now.fault ≡ None
            → IsWaiting MAXIMUM_LENGTH self.now.bytes → ⊥ }
    {
        self.fault.is_none() && is_short(&self.buffer[self.from..])
    }

    /// The next whole message; `None` where bytes are missing. The first fault is answered for
    /// good, want of memory changes nothing.
    pub fn next(&mut self) -> Result<Option<Message>, FrameFault>
        ensures some { IfOk result (λ found. IfSome found
            (λ message. IsTaken MAXIMUM_LENGTH message self.old self.new)) }
        ensures none { IfOk result (λ found. IfNone found ((self.old.fault ≡ None)
            × IsWaiting MAXIMUM_LENGTH self.old.bytes × (self.new ≡ self.old))) }
        ensures fault { IfErr result (λ f. FaultIs MAXIMUM_LENGTH f self.old self.new) }
        ensures no_message { IfErr result (λ f. f ≢ NoMemory → IsNoFront MAXIMUM_LENGTH self.old) }
    {
        if let Some(fault) = self.fault {
            return Err(fault);
        }
        let length = match whole_length(&self.buffer[self.from..]) {
            Ok(Some(length)) => length,
            Ok(None) => return Ok(None),
            Err(fault) => {
                self.fault = Some(fault);
                return Err(fault);
            }
        };
        match self.take_front(length) {
            Ok(message) => Ok(Some(message)),
            Err(fault) => match fault {
                FrameFault::NoMemory => Err(fault),
                _ => {
                    self.fault = Some(fault);
                    Err(fault)
                }
            },
        }
    }

    /// Forgets a fault that was answered. The bytes are there still, so [`next`](Framer::next)
    /// answers it again.
    pub fn forget_fault(&mut self)
        ensures { self.new ≡ record self.old { fault = None } }
    {
        self.fault = None;
    }

    /// Takes a message of `size` bytes off the front. Where it is all that is there, it gets the
    /// buffer, and nothing is copied.
    fn take_front(&mut self, size: usize) -> Result<Message, FrameFault>
        requires fine { self.old.fault ≡ None }
        requires found { IsFound MAXIMUM_LENGTH size self.old.bytes }
        ensures taken { IfOk result (λ message. IsTaken MAXIMUM_LENGTH message self.old self.new) }
        ensures refused { OnErr result (self.new ≡ self.old) }
        ensures fault { IfErr result (λ f. f ≢ NoMemory
            → IsJudged MAXIMUM_LENGTH f self.old.bytes) }
        ensures no_message { IfErr result (λ f. f ≢ NoMemory
            → BeginsNoMessage MAXIMUM_LENGTH self.old.bytes) }
    {
        if self.from == 0 && size == self.buffer.len() {
            return Message::take(self.alloc, &mut self.buffer);
        }
        let whole = Vec::from_slice(self.alloc, &self.buffer[self.from..self.from + size])?;
        let message = Message::read(self.alloc, whole)?;
        self.from += size;
        Ok(message)
    }
}

/// A stream is cut into messages in one way, whatever pieces it comes in.
pub fn one_stream()
    ensures { (limit : ℕ) (bytes : List ℕ) (messages others : List Record) (rest left : List ℕ)
        → IsStream limit bytes messages rest → IsStream limit bytes others left
        → (messages ≡ others) × (rest ≡ left) }
{}
