//! The mail for the slots of a router.

ghost use Rattle.std.specs.Prelude.{◌≡◌, ◌<◌, ◌≤◌, ◌∷◌, ◌++◌, [], false, length, true, IfOk, MatchOption, MatchResult};
ghost use Rattle.outbox.specs.Lanes.{WasEmpty};
ghost use Rattle.routers_core.specs.Posts.{HasNone, HasRoom, IsFirst, IsFull, Takes, TakesOfOthers, is_due, kept, kept_behind, new_slot_mail, own_hard_limit, own_soft_limit};

use outbox::{Full, ROOM, Tap};
use router_core::limits::MAX_EFFECTS;
use std::alloc::{AllocError, AllocFailed, Global};
use std::collections::VecDeque;
use std::marker::Model;
use std::mem;
use std::sync::Wait;

/// Where so many envelopes that a router put for a place of its own wait as an event begins, that
/// event puts none more there: as many as an outbox holds.
const OWN_SOFT_LIMIT: usize = ROOM;

/// How many may wait there at most: an event that begins below the soft limit may bring many at
/// once, while there is memory.
const OWN_HARD_LIMIT: usize = OWN_SOFT_LIMIT + MAX_EFFECTS;

/// An item, and how many of what others put come before it, counted from the first that was ever
/// taken.
#[derive(Drop)]
struct Kept<E: Drop> {
    item: E,
    others: u64,
}

/// What a router put for a place of its own, the oldest first. Only its own thread sees it.
#[derive(Drop)]
struct OwnQueue<E: Drop> {
    kept: VecDeque<Kept<E>>,
    /// The event of which something was put last.
    event: u64,
    /// How many waited when that event began.
    waited: usize,
}

impl<E: Drop> Model for OwnQueue<E> {
    ghost use Rattle.std.specs.Prelude.{◌≤◌, List};
    ghost use Rattle.std.specs.VecDeque.{deque_capacity};
    ghost use Rattle.routers_core.specs.Posts.{own_soft_limit};
    ghost use Rattle.routers_core.specs.declared.slot_mail.Kept.{Kept as Known};

    ghost Value = { List (Known E) };

    ghost view = { λ q. q.kept.items };

    ghost invariant = { λ q. own_soft_limit ≤ deque_capacity q.kept };
}

impl<E: Drop> OwnQueue<E> {
    fn new(alloc: Global) -> Result<OwnQueue<E>, AllocError>
        ensures { IfOk result (λ q. q ≡ []) }
    {
        let kept = VecDeque::with_capacity(alloc, OWN_SOFT_LIMIT)?;
        Ok(OwnQueue {
            kept,
            event: 0,
            waited: 0,
        })
    }

    /// How many may wait while this event puts.
    fn limit(&mut self, event: u64) -> usize
        ensures same { self.new ≡ self.old }
        ensures least { own_soft_limit ≤ result }
        ensures most { result ≤ own_hard_limit }
    {
        if event != self.event {
            self.event = event;
            self.waited = self.kept.len();
        }
        if self.waited < OWN_SOFT_LIMIT {
            OWN_HARD_LIMIT
        } else {
            OWN_SOFT_LIMIT
        }
    }

    /// Puts an item of this event behind so many that others put.
    fn put(&mut self, item: E, others: u64, event: u64) -> Result<(), Full<E>>
        ensures { MatchResult result
            (λ _. (length self.old < own_hard_limit)
            × (self.new ≡ kept_behind self.old item others))
            (λ back. (back.0 ≡ item) × (self.new ≡ self.old) × (own_soft_limit ≤ length self.old)) }
    {
        if self.kept.len() >= self.limit(event) {
            return Err(Full(item));
        }
        match self.kept.push_back(Kept { item, others }) {
            Ok(()) => Ok(()),
            Err(AllocFailed { value }) => Err(Full(value.item)),
        }
    }

    /// Whether the oldest item comes next, where so many that others put were taken.
    fn is_next(&self, taken: u64) -> bool
        ensures { result ≡ is_due taken self.now }
    {
        match self.kept.front() {
            Some(kept) => kept.others <= taken,
            None => false,
        }
    }

    fn take(&mut self) -> Option<E>
        ensures { MatchOption result
            ((self.new ≡ self.old) × (self.old ≡ []))
            (λ item. IsFirst item self.old self.new) }
    {
        let kept = self.kept.pop_front()?;
        if self.kept.is_empty() {
            self.begin_anew();
        }
        Some(kept.item)
    }

    /// The oldest item, where so many that others put were taken and it comes next.
    fn take_next(&mut self, taken: u64) -> Option<E>
        ensures { MatchOption result
            ((self.new ≡ self.old) × (is_due taken self.old ≡ false))
            (λ item. (is_due taken self.old ≡ true) × IsFirst item self.old self.new) }
    {
        if self.is_next(taken) {
            self.take()
        } else {
            None
        }
    }

    /// Empty, it begins at its first place once more: that was used last, so it is near.
    fn begin_anew(&mut self)
        requires { self.old ≡ [] }
        ensures { self.new ≡ [] }
    {
        let alloc = *self.kept.allocator();
        let kept = mem::replace(&mut self.kept, VecDeque::new(alloc));
        self.kept = VecDeque::from_vec(kept.into_vec());
    }
}

/// The mail for a slot of a router: the end that takes what others put into its outbox, and what
/// its own router put for it. They are taken in the order in which they were put.
///
/// Contracts see both, and how many were taken that others put.
#[derive(Drop)]
pub(crate) struct SlotMail<E: Drop> {
    tap: Tap<E>,
    own: OwnQueue<E>,
    /// How many were taken that others put.
    taken: u64,
}

impl<E: Drop> Model for SlotMail<E> {
    ghost use Rattle.routers_core.specs.Posts.{SlotMail as Known};

    ghost Value = { Known E };

    ghost view = { λ p. record { tap = p.tap; own = p.own; taken = p.taken } };
}

impl<E: Drop> SlotMail<E> {
    pub(crate) fn new(alloc: Global, tap: Tap<E>) -> Result<SlotMail<E>, AllocError>
        ensures { IfOk result (λ p. p ≡ new_slot_mail tap) }
    {
        let own = OwnQueue::new(alloc)?;
        Ok(SlotMail { tap, own, taken: 0 })
    }

    /// Puts an item of its own router, which this event brought, where so many wait that others
    /// put.
    pub(crate) fn put(&mut self, item: E, waiting: usize, event: u64) -> Result<(), Full<E>>
        ensures { MatchResult result
            (λ _. HasRoom self.old × (self.new ≡ kept self.old item waiting))
            (λ back. (back.0 ≡ item) × (self.new ≡ self.old) × IsFull self.old) }
    {
        self.own
            .put(item, self.taken.saturating_add(waiting as u64), event)
    }

    /// Takes of what others put.
    fn take_of_others<R: Wait>(&mut self, rt: &R) -> Option<E>
        ensures { MatchOption result
            ((self.new ≡ self.old) × WasEmpty self.old.tap)
            (λ item. TakesOfOthers self.old item self.new) }
    {
        let item = self.tap.take(rt)?;
        self.taken = self.taken.saturating_add(1);
        Some(item)
    }

    /// The item that was put first, by its own router or by others.
    pub(crate) fn take<R: Wait>(&mut self, rt: &R) -> Option<E>
        ensures { MatchOption result
            ((self.new ≡ self.old) × HasNone self.old)
            (λ item. Takes self.old item self.new) }
    {
        if let Some(item) = self.own.take_next(self.taken) {
            return Some(item);
        }
        match self.take_of_others(rt) {
            Some(item) => Some(item),
            None => self.own.take(),
        }
    }
}
