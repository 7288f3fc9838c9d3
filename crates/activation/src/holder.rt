//! What waits for names.

ghost use Rattle.std.specs.Prelude.{◌≡◌, ◌<◌, ◌+◌, ◌↔◌, [], ◌∷◌, ◌++◌, length, drop, slice_get, IfOk, IsTrue};
ghost use Rattle.activation.specs.Holding.{given_as, waiting_for, waiting_for_others};
ghost use Rattle.seq_bus_core.specs.declared.ticket.Fate.TheVariants.{Failed, Served};

use crate::given::Given;
use names::BusName;
use seq_bus_core::Fate;
use seq_bus_core::limits::MAX_TICKETS;
use std::alloc::{AllocError, Global};
use std::collections::VecDeque;
use std::marker::Model;

/// Something that waits for a name.
#[derive(Drop)]
struct Held<T: Drop> {
    name: BusName,
    what: T,
}

/// What waits for names, in order of arrival, and what was let go and is not handed out yet.
///
/// There is room for [`MAX_TICKETS`] of both together, made when the holder is. No call but
/// [`Holder::new`] takes memory.
#[derive(Drop)]
pub struct Holder<T: Drop> {
    held: VecDeque<Held<T>>,
    given: VecDeque<Given<T>>,
}

impl<T: Drop> Model for Holder<T> {
    ghost use Rattle.std.specs.Prelude.{◌≤◌, ◌+◌, map, length};
    ghost use Rattle.std.specs.VecDeque.{deque_capacity};
    ghost use Rattle.activation.specs.Holding.{Holding};
    ghost use Rattle.seq_bus_core.specs.declared.limits.TheConstants.{MAX_TICKETS};

    ghost Value = { Holding T };

    ghost view = { λ h. record {
      held = map (λ w. record { name = w.name; what = w.what }) h.held.items;
      given = h.given.items;
    } };

    ghost invariant = { λ h. (MAX_TICKETS ≤ deque_capacity h.held)
        × (MAX_TICKETS ≤ deque_capacity h.given)
        × (length h.held.items + length h.given.items ≤ MAX_TICKETS) };
}

impl<T: Drop> Holder<T> {
    /// A holder in which nothing waits. It takes memory for all that it can ever hold.
    pub fn new(alloc: Global) -> Result<Holder<T>, AllocError>
        ensures { IfOk result (λ holder. holder ≡ record { held = []; given = [] }) }
    {
        Ok(Holder {
            held: VecDeque::with_capacity(alloc, MAX_TICKETS)?,
            given: VecDeque::with_capacity(alloc, MAX_TICKETS)?,
        })
    }

    /// Whether one more fits. What was let go counts until it is handed out.
    pub fn has_room(&self) -> bool
        ensures { IsTrue result ↔ (length self.now.held + length self.now.given < MAX_TICKETS) }
    {
        self.held.len() + self.given.len() < MAX_TICKETS
    }

    /// From now on something waits for a name, behind all else that waits.
    pub fn hold(&mut self, name: BusName, what: T)
        requires { length self.old.held + length self.old.given < MAX_TICKETS }
        ensures { self.new ≡ record self.old {
          held = self.old.held ++ record { name = name; what = what } ∷ [];
        } }
    {
        self.held.push_back_reserved(Held { name, what });
    }

    /// The name got an owner: lets go all that waits for it, in order of arrival.
    pub fn release_all(&mut self, name: &BusName)
        ensures { self.new ≡ record {
          held = waiting_for_others name.now self.old.held;
          given = self.old.given ++ given_as Served (waiting_for name.now self.old.held);
        } }
    {
        self.let_go(name, Fate::Served);
    }

    /// The name will not get an owner: lets go all that waits for it, in order of arrival.
    pub fn fail_all(&mut self, name: &BusName)
        ensures { self.new ≡ record {
          held = waiting_for_others name.now self.old.held;
          given = self.old.given ++ given_as Failed (waiting_for name.now self.old.held);
        } }
    {
        self.let_go(name, Fate::Failed);
    }

    // Goes once round all that waits: what waits for another name goes behind again.
    fn let_go(&mut self, name: &BusName, fate: Fate)
        ensures { self.new ≡ record {
          held = waiting_for_others name.now self.old.held;
          given = self.old.given ++ given_as fate (waiting_for name.now self.old.held);
        } }
    {
        for _place in 0..self.held.len() {
            let Some(held) = self.held.pop_front() else {
                return;
            };
            if held.name == *name {
                self.given.push_back_reserved(Given {
                    fate,
                    what: held.what,
                });
            } else {
                self.held.push_back_reserved(held);
            }
        }
    }

    /// Hands out the first of what was let go; none where nothing is left of it.
    pub fn next_given(&mut self) -> Option<Given<T>>
        ensures first { result ≡ slice_get self.old.given 0 }
        ensures rest { self.new ≡ record self.old { given = drop 1 self.old.given } }
    {
        self.given.pop_front()
    }
}
