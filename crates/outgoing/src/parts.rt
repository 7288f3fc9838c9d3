//! The parts that the bytes lie in.

ghost use Rattle.std.specs.Prelude.{◌≡◌, ℕ, [], OnOk};
ghost use Rattle.outgoing.specs.Parts.{part_bytes, part_at, bytes_of, IsWithin};

use crate::chunk::Chunk;
use std::alloc::{AllocError, Global};
use std::collections::VecDeque;
use std::mem;

/// Bytes that lie in one piece.
#[derive(Drop)]
pub(crate) enum Part<C: Drop> {
    /// Small chunks, one behind the other.
    Copied(Vec<u8>),
    /// A large one, where it lay.
    Whole(C),
}

impl<C: Chunk + Drop> Part<C> {
    pub(crate) fn as_slice(&self) -> &[u8]
        ensures { result.now ≡ part_bytes C.bytes self.now }
    {
        match self {
            Part::Copied(bytes) => bytes.as_slice(),
            Part::Whole(chunk) => chunk.as_slice(),
        }
    }
}

/// The part of this place, the last one being behind the others. Behind that there are no bytes.
pub(crate) fn part_at<'a, C: Chunk + Drop>(
    parts: &'a VecDeque<Part<C>>,
    last: &'a [u8],
    place: usize,
) -> &'a [u8]
    ensures { result.now ≡ part_at C.bytes parts.now.items last.now place }
{
    match parts.get(place) {
        Some(part) => part.as_slice(),
        None if place == parts.len() => last,
        None => b"",
    }
}

/// Puts the last part behind the others and begins a new one, in spare room.
pub(crate) fn end_last<C: Chunk + Drop>(
    alloc: Global,
    parts: &mut VecDeque<Part<C>>,
    last: &mut Vec<u8>,
    spare: &mut Vec<u8>,
) -> Result<(), AllocError>
    requires { spare.old.items ≡ [] }
    ensures bytes { bytes_of C.bytes parts.new.items last.new.items
        ≡ bytes_of C.bytes parts.old.items last.old.items }
    ensures within { (written : ℕ) → IsWithin C.bytes written parts.old.items last.old.items
        → IsWithin C.bytes written parts.new.items last.new.items }
    ensures ended { OnOk result (last.new.items ≡ []) }
    ensures spare { spare.new.items ≡ [] }
{
    if last.is_empty() {
        return Ok(());
    }
    parts.reserve(1)?;
    mem::swap(last, spare);
    let ended = mem::replace(spare, Vec::new(alloc));
    parts.push_back_reserved(Part::Copied(ended));
    Ok(())
}
