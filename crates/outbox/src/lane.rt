//! What a thread puts with.

ghost use Rattle.std.specs.Prelude.{◌≡◌, ◌+◌, ◌<◌, ◌≤◌, length, IfOk, OnOk, MatchResult, map, slice_get, slice_set, All};
ghost use Rattle.outbox.specs.Lanes.{sent, with, gives, keeps_rest, MayPut, Begins, HadItems, of, IsCompared, End as Known, WasFull};

use crate::ends::{End, Full, Tap};
use std::alloc::{AllocError, Global};
use std::marker::Model;
use std::sync::Wait;

/// What one thread puts with, into the queue of each slot.
///
/// Contracts see its end of each queue.
pub struct Lane<E> {
    ends: Vec<End<E>>,
}

impl<E> Model for Lane<E> {
    ghost use Rattle.std.specs.Prelude.{List, All};
    ghost use Rattle.outbox.specs.Lanes.{End as Known, MayPut};

    ghost Value = { List (Known E) };

    ghost view = { λ l. l.ends.items };

    ghost invariant = { λ l. All MayPut l.ends.items };
}

impl<E: Drop> Drop for Lane<E> {
    fn drop(self) {
        let Lane { ends } = self;
        drop(ends);
    }
}

/// The next lane of all queues.
pub(crate) fn next_lane<E: Drop>(
    alloc: Global,
    taps: &mut Vec<Tap<E>>,
) -> Result<Lane<E>, AllocError>
    requires { All MayPut taps.old.items }
    ensures lane { IfOk result (λ l. l ≡ map gives taps.old.items) }
    ensures rest { OnOk result (taps.new.items ≡ map keeps_rest taps.old.items) }
{
    let mut ends = Vec::with_capacity(alloc, taps.len())?;
    for i in 0..taps.len() {
        let end = taps[i].give_lane()?;
        ends.push(end)?;
    }
    Ok(Lane { ends })
}

impl<E: Drop> Lane<E> {
    /// How many slots there are.
    pub fn slots(&self) -> usize
        ensures { result ≡ length self.now }
    {
        self.ends.len()
    }

    /// Puts an item behind those that the queue of a slot holds. It takes no memory.
    ///
    /// # Errors
    ///
    /// The item comes back, only where the queue was full at some moment of the call.
    pub fn put<R: Wait>(&mut self, rt: &R, slot: usize, item: E) -> Result<(), Full<E>>
        requires { slot < length self.old }
        ensures slots { length self.new ≡ length self.old }
        ensures rule { (e : Known E) → slice_get self.old slot ≡ Some e → MatchResult result
            (λ _. self.new ≡ slice_set self.old slot (with e (sent e.hand item)))
            (λ full. (full.0 ≡ item) × (self.new ≡ self.old) × WasFull e) }
    {
        self.ends[slot].put(rt, item)
    }

    /// How many items the queue of a slot held at some moment of the call.
    pub fn len<R: Wait>(&mut self, rt: &R, slot: usize) -> usize
        requires { slot < length self.old }
        ensures same { self.new ≡ self.old }
        ensures count { (e : Known E) → slice_get self.old slot ≡ Some e → HadItems result e }
    {
        self.ends[slot].len(rt)
    }

    /// Shows that what was taken of this lane from the queue of a slot is a beginning of what the
    /// lane put into it, once the lane and the tap are in one hand.
    ///
    /// Both may go on afterwards.
    pub fn compare(&mut self, slot: usize, tap: &mut Tap<E>)
        requires slot { slot < length self.old }
        requires end { (e : Known E) → slice_get self.old slot ≡ Some e
            → (tap.old.queue ≡ e.queue) × (e.hand.to ≡ e.hand.from + 1) }
        requires tap { tap.old.hand.to ≤ tap.old.hand.from }
        ensures begins { (e : Known E) → slice_get self.old slot ≡ Some e
            → Begins e.hand.from tap.old.hand.taken e.hand.put }
        ensures tap { (tap.new.queue ≡ tap.old.queue)
            × (tap.new.hand.taken ≡ tap.old.hand.taken)
            × (tap.new.hand.to ≤ tap.new.hand.from) }
        ensures end { (e : Known E) → slice_get self.old slot ≡ Some e
            → IsCompared self.old slot e self.new }
    {
        tap.compare(&mut self.ends[slot]);
    }
}
