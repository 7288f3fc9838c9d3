//! The ends of one queue.

ghost use Rattle.std.specs.Prelude.{◌≡◌, ◌+◌, ◌<◌, ◌≤◌, IfOk, OnErr, OnOk, MatchResult, MatchOption};
ghost use Rattle.outbox.specs.Lanes.{whole, sent, Took, gives, keeps_rest, Begins, HadItems, of, WasEmpty, WasFull};

use crate::hand::{Adopt, FirstLane, Hand, InOrder, Puts, Takes};
use crossbeam_queue::{Pass, RuledArrayQueue};
use std::alloc::{AllocError, Global};
use std::marker::Model;
use std::sync::{Arc, Wait};

/// How many items a queue holds.
pub const ROOM: usize = 256;

type Queue<E> = RuledArrayQueue<E, Hand<E>, InOrder>;

/// There was no room for this item.
#[derive(Debug, Drop)]
pub struct Full<E>(pub E);

/// The end that puts for a lane. Contracts see which queue it is of, and what its hand knows.
#[derive(Drop)]
pub(crate) struct End<E> {
    queue: Arc<Queue<E>, Global>,
    pass: Pass<E, Hand<E>>,
}

impl<E> Model for End<E> {
    ghost use Rattle.std.specs.Prelude.{◌≡◌};
    ghost use Rattle.std.specs.Arc.{arc_value};
    ghost use Rattle.crossbeam_queue.specs.Passes.{IsPassOf, ruled_capacity};
    ghost use Rattle.outbox.specs.Lanes.{End as Known, end_of};
    ghost use Rattle.outbox.specs.declared.ends.TheConstants.{ROOM};

    ghost Value = { Known E };

    ghost view = { λ s. end_of s.pass };

    ghost invariant = { λ s. IsPassOf (arc_value s.queue) s.pass
        × (ruled_capacity (arc_value s.queue) ≡ ROOM) };
}

impl<E: Drop> End<E> {
    /// Puts an item for the first lane of this end.
    pub(crate) fn put<R: Wait>(&mut self, rt: &R, item: E) -> Result<(), Full<E>>
        requires { self.old.hand.from < self.old.hand.to }
        ensures queue { self.new.queue ≡ self.old.queue }
        ensures rule { MatchResult result
            (λ _. self.new.hand ≡ sent self.old.hand item)
            (λ full. (full.0 ≡ item) × (self.new.hand ≡ self.old.hand)
            × WasFull self.old) }
    {
        self.queue
            .push_as::<Puts, R>(rt, &mut self.pass, item)
            .map_err(Full)
    }

    /// How many items the queue held at some moment of the call.
    pub(crate) fn len<R: Wait>(&mut self, rt: &R) -> usize
        ensures same { self.new ≡ self.old }
        ensures count { HadItems result self.old }
    {
        self.queue.len_as::<Puts, R>(rt, &mut self.pass)
    }
}

/// The end of a queue that takes.
///
/// Contracts see which queue it is of, and what its hand knows: what was taken from the queue, and
/// what was put by lanes that were not given away.
pub struct Tap<E> {
    queue: Arc<Queue<E>, Global>,
    pass: Pass<E, Hand<E>>,
}

impl<E> Model for Tap<E> {
    ghost use Rattle.std.specs.Prelude.{◌≡◌, true};
    ghost use Rattle.std.specs.Arc.{arc_value};
    ghost use Rattle.crossbeam_queue.specs.Passes.{IsPassOf, ruled_capacity};
    ghost use Rattle.outbox.specs.Lanes.{End as Known, end_of};
    ghost use Rattle.outbox.specs.declared.ends.TheConstants.{ROOM};

    ghost Value = { Known E };

    ghost view = { λ s. end_of s.pass };

    ghost invariant = { λ s. IsPassOf (arc_value s.queue) s.pass
        × (ruled_capacity (arc_value s.queue) ≡ ROOM) × ((end_of s.pass).hand.takes ≡ true) };
}

impl<E: Drop> Drop for Tap<E> {
    fn drop(self) {
        let Tap { queue, pass } = self;
        drop(queue);
        drop(pass);
    }
}

/// A new queue, with all in one hand.
pub(crate) fn open<E: Drop>(alloc: Global) -> Result<Tap<E>, AllocError>
    ensures { IfOk result (λ s. s.hand ≡ whole) }
{
    let (queue, pass) = Queue::ruled(alloc, ROOM)?;
    let queue = Arc::new(alloc, queue)?;
    Ok(Tap { queue, pass })
}

impl<E: Drop> Tap<E> {
    /// The item that was put first of those that are held. `None` only where the queue was empty at
    /// some moment of the call.
    ///
    /// It takes no memory.
    pub fn take<R: Wait>(&mut self, rt: &R) -> Option<E>
        ensures queue { self.new.queue ≡ self.old.queue }
        ensures rule { MatchOption result
            ((self.new.hand ≡ self.old.hand) × WasEmpty self.old)
            (λ e. Took self.old.hand e self.new.hand) }
    {
        self.queue.pop_as::<Takes, R>(rt, &mut self.pass)
    }

    /// Another end, which puts for the first lane of this one.
    pub(crate) fn give_lane(&mut self) -> Result<End<E>, AllocError>
        requires { self.old.hand.from < self.old.hand.to }
        ensures gives { IfOk result (λ r. r ≡ gives self.old) }
        ensures rest { OnOk result (self.new ≡ keeps_rest self.old) }
        ensures refused { OnErr result (self.new ≡ self.old) }
    {
        let queue = Arc::try_clone(&self.queue)?;
        let pass = self.queue.another::<FirstLane>(&mut self.pass);
        Ok(End { queue, pass })
    }

    /// Shows that what was taken of a lane is a beginning of what that lane put, once both ends are
    /// in one hand.
    pub(crate) fn compare(&mut self, lane: &mut End<E>)
        requires same { self.old.queue ≡ lane.old.queue }
        requires tap { self.old.hand.to ≤ self.old.hand.from }
        requires lane { lane.old.hand.to ≡ lane.old.hand.from + 1 }
        ensures begins { Begins lane.old.hand.from self.old.hand.taken lane.old.hand.put }
        ensures tap { (self.new.queue ≡ self.old.queue)
            × (self.new.hand.taken ≡ self.old.hand.taken)
            × (self.new.hand.to ≤ self.new.hand.from) }
        ensures lane { (lane.new.queue ≡ lane.old.queue)
            × (lane.new.hand.from ≡ lane.old.hand.from)
            × (lane.new.hand.to ≡ lane.old.hand.to)
            × (of lane.old.hand.from lane.new.hand.put
            ≡ of lane.old.hand.from lane.old.hand.put) }
    {
        let moved = lane.queue.another::<FirstLane>(&mut lane.pass);
        self.queue.absorb::<Adopt>(&mut self.pass, moved);
        self.queue.learn_as::<Takes>(&mut self.pass);
        lane.pass = self.queue.another::<FirstLane>(&mut self.pass);
    }
}
