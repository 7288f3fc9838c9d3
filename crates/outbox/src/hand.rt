//! What the holder of one end of a queue knows of it, and the rule of the queue.
use crossbeam_queue::protocol::{Join, Lesson, Outcome, Protocol, Split};
use std::collections::LinkedList;

/// What was put, with the lane that put it, and its number among that lane's. No value of it is
/// made.
pub struct Entry<E> {
    pub lane: u64,
    pub number: u64,
    pub item: E,
}

/// The lanes that a hand puts for, `from` up to `to`, whether it takes, what it put and what it
/// took. No value of it is made.
pub struct Hand<E> {
    pub from: u64,
    pub to: u64,
    pub takes: bool,
    pub put: LinkedList<Entry<E>>,
    pub taken: LinkedList<Entry<E>>,
}

/// The rule of a queue: what comes out of it is a beginning of what was put into it.
pub struct InOrder;

impl<E> Protocol<E, Hand<E>> for InOrder {
    ghost use Rattle.outbox.specs.Lanes.{Kept, whole};

    ghost holds = { Kept };

    ghost first = { whole };
}

/// Gives the first lane away.
pub(crate) struct FirstLane;

impl<E> Split<Hand<E>> for FirstLane {
    ghost use Rattle.outbox.specs.Lanes.{without_first, only_first};

    ghost left = { without_first };

    ghost right = { only_first };
}

/// A hand without lanes takes in the lane of another.
pub(crate) struct Adopt;

impl<E> Join<Hand<E>> for Adopt {
    ghost use Rattle.outbox.specs.Lanes.{adopted, spent};

    ghost both = { adopted };

    ghost spent = { spent };
}

/// An item was put, for the first lane of the hand.
pub(crate) struct Puts;

impl<E> Outcome<E, Hand<E>> for Puts {
    ghost use Rattle.std.specs.Prelude.{◌≡◌};
    ghost use Rattle.outbox.specs.Lanes.{sent};

    ghost then = { λ v x w. w ≡ sent v x };
}

impl<E> Lesson<E, Hand<E>> for Puts {
    ghost use Rattle.outbox.specs.Lanes.{Shows};

    ghost fact = { Shows };
}

/// An item was taken.
pub(crate) struct Takes;

impl<E> Outcome<E, Hand<E>> for Takes {
    ghost use Rattle.outbox.specs.Lanes.{Took};

    ghost then = { Took };
}

impl<E> Lesson<E, Hand<E>> for Takes {
    ghost use Rattle.outbox.specs.Lanes.{Shows};

    ghost fact = { Shows };
}
