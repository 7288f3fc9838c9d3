//! The plain bus.

ghost use Rattle.std.specs.List.{AllByRecursion};
ghost use Rattle.std.specs.Prelude.{◌≡◌, ◌≤◌, ◌+◌, ◌++◌, [], length, is_some, vec_capacity, IfOk, OnOk, OnErr, IfErr};
ghost use Rattle.seq_bus_core.specs.Batches.{IsBatch, entries_of};
ghost use Rattle.seq_bus_core.specs.Bounds.{IsBounded};
ghost use Rattle.seq_bus_core.specs.BusState.{connection_of};
ghost use Rattle.seq_bus_core.specs.Answers.{answer};
ghost use Rattle.seq_bus_core.specs.Recipients.{recipients};
ghost use Rattle.seq_bus_core.specs.Histories.{CanOpen, IsLegal};
ghost use Rattle.seq_bus_core.specs.Tickets.{opening_bus};
ghost use Rattle.seq_bus_core.specs.declared.limits.TheConstants.{MAX_BATCH};
ghost use Rattle.bus_view.specs.Bodies.{Answers};
ghost use Rattle.bus_view.specs.declared.refusal.Cause.TheVariants.{NoMemory};
ghost use Rattle.bus_view.specs.declared.answer.AskFault.TheVariants.{NoMemory as AskNoMemory};
ghost use Rattle.seq_bus.specs.PlainBus.{bus_now, AreMade, IsMade};

use crate::SEAT;
use activation::HeldCalls;
use bus_view::{AskFault, Asked, BatchCause, Cause, Refused, RefusedAll};
use match_rules::Facts;
use names::WellKnown;
use owner_queues::Profile;
use registry::Registry;
use seq_bus_core::limits::MAX_BATCH;
use seq_bus_core::{Change, Entry, Outcome, Query, Verdict};
use settling::{prepare_all, prepare_only};
use std::alloc::{AllocError, Global};
use std::marker::Model;

/// A bus for one thread. It keeps the whole list of its changes, and what the calls carry that wait
/// for a service.
///
/// Contracts see how it was opened and what it has `seen`: every change that it made, each by its
/// one seat, numbered 1, 2, 3 and so on. What it answers is what the definitions say of the bus
/// after these changes.
#[derive(Drop)]
pub struct SeqBus {
    alloc: Global,
    registry: Registry,
    /// The registry before a batch, while the batch is made. Else it is any.
    before: Registry,
    calls: HeldCalls,
    seen: Vec<Entry>,
}

impl Model for SeqBus {
    ghost use Rattle.seq_bus.specs.PlainBus.{PlainBus, opened_as, IsKept};

    ghost Value = { PlainBus };

    ghost view = { λ b. record { opening = opened_as b.registry; seen = b.seen.items } };

    ghost invariant = { λ b. IsKept b.registry b.calls b.seen.items };
}

impl SeqBus {
    /// A bus with these services and so many routers, on which nothing has happened.
    ///
    /// The services are names that programs can be started for. Whether the bus can be opened with
    /// them is said by [`can_open`](bus_view::can_open).
    pub fn new(
        alloc: Global,
        services: &[WellKnown],
        routers: u8,
        profile: Profile,
    ) -> Result<SeqBus, AllocError>
        requires { CanOpen routers services.now }
        ensures { IfOk result (λ bus.
            bus ≡ record { opening = opening_bus profile routers services.now; seen = [] }) }
    {
        let registry = Registry::new(alloc, services, routers, profile)?;
        let before = Registry::new(alloc, services, routers, profile)?;
        Ok(SeqBus {
            alloc,
            registry,
            before,
            calls: HeldCalls::new(alloc)?,
            seen: Vec::new(alloc),
        })
    }

    /// Makes a change, and says what it is told.
    ///
    /// A change that is refused is handed back, and the bus is as it was. It is refused for want of
    /// memory alone, or where too many share the bytes of a call that is to wait: the bus shares
    /// them, and does not copy them.
    pub fn change(&mut self, change: Change) -> Result<Outcome, Refused>
        ensures made { IfOk result (λ outcome. IsMade self.old self.new change outcome) }
        ensures few { IfOk result IsBounded }
        ensures handed_back { IfErr result (λ refused.
            refused ≡ record { change = change; cause = NoMemory }) }
        ensures unchanged { OnErr result (self.new ≡ self.old) }
    {
        if self.seen.reserve(1).is_err() {
            return Err(without_memory(change));
        }
        let prepared = prepare_only(self.alloc, &self.registry, SEAT, &change);
        let Ok((prepared, settling)) = prepared else {
            return Err(without_memory(change));
        };
        self.registry.absorb(&prepared);
        let outcome = settling.settle(&mut self.calls, &change);
        let number = self.seen.len() as u64 + 1;
        self.seen
            .push(Entry {
                seat: SEAT,
                number,
                change,
                left: 0,
            })
            .unwrap();
        Ok(outcome)
    }

    /// Makes a batch of 1 to 64 changes, and says what each is told. They stand together in the
    /// history.
    ///
    /// Where one of them is refused, as `change` refuses it, or there are too many or none, all are
    /// handed back, and the bus is as it was.
    pub fn change_all(&mut self, changes: Vec<Change>) -> Result<Vec<Outcome>, RefusedAll>
        ensures made { IfOk result (λ outcomes.
            AreMade self.old self.new changes.items outcomes.items) }
        ensures few { IfOk result (λ outcomes. AllByRecursion IsBounded outcomes.items) }
        ensures batch { OnOk result (IsBatch changes.items) }
        ensures handed_back { IfErr result (λ refused. refused.changes ≡ changes) }
        ensures memory { IfErr result (λ refused. IsBatch changes.items →
            refused.cause ≡ BatchCause.Refused NoMemory) }
        ensures no_batch { IfErr result (λ refused. ¬ IsBatch changes.items →
            refused.cause ≡ BatchCause.Batch) }
        ensures unchanged { OnErr result (self.new ≡ self.old) }
    {
        if changes.is_empty() || changes.len() > MAX_BATCH {
            return Err(RefusedAll {
                changes,
                cause: BatchCause::Batch,
            });
        }
        if self.seen.reserve(changes.len()).is_err() {
            return Err(all_without_memory(changes));
        }
        self.before.copy_from(&self.registry);
        let Ok((_, settlings)) = prepare_all(self.alloc, &mut self.registry, SEAT, &changes) else {
            self.registry.copy_from(&self.before);
            return Err(all_without_memory(changes));
        };
        let outcomes = settlings.settle(&mut self.calls, &changes);
        add_entries(&mut self.seen, changes);
        Ok(outcomes)
    }

    /// Answers a query: appends the body of the reply, in little-endian order as from offset 0 on,
    /// or says that the name has no owner. After a fault nothing is appended.
    pub fn ask(&mut self, query: &Query, body: &mut Vec<u8>) -> Result<Asked, AskFault>
        ensures answered { IfOk result (λ asked.
            Answers asked (answer (bus_now self.old).state query.now)
            body.old.items body.new.items) }
        ensures fault { IfErr result (λ fault. fault ≡ AskNoMemory) }
        ensures unanswered { OnErr result (body.new.items ≡ body.old.items) }
        ensures unchanged { self.new ≡ self.old }
    {
        self.registry.answer(query, body)
    }

    /// Where a message from a connection goes, and which monitors are shown it. 0 is the bus.
    ///
    /// The sender that the facts name is not looked at. No memory is taken.
    pub fn route(&self, from: u64, facts: &Facts<'_>) -> Verdict
        ensures { result ≡ recipients (bus_now self.now).state from facts.now }
    {
        self.registry.route(from, facts)
    }

    /// The same as `route`, put where there is room for it: a verdict is large, and is not moved.
    pub fn route_into(&self, from: u64, facts: &Facts<'_>, found: &mut Verdict)
        ensures { found.new ≡ recipients (bus_now self.now).state from facts.now }
    {
        self.registry.tell_route(from, facts, found);
    }

    /// The changes that were made, in order. They are a legal history, and all of its one seat.
    pub fn history(&self) -> &[Entry]
        ensures value { result.now ≡ self.now.seen }
        ensures legal { IsLegal self.now.seen }
        ensures own { AllByRecursion (λ e. e.seat ≡ SEAT) self.now.seen }
    {
        self.seen.as_slice()
    }

    /// Whether there is a connection of this number.
    pub fn present(&self, number: u64) -> bool
        ensures { result ≡ is_some (connection_of (bus_now self.now).state number) }
    {
        self.registry.present(number)
    }

    /// The number of the bus's one seat.
    pub fn seat(&self) -> u8
        ensures { result ≡ SEAT }
    {
        SEAT
    }
}

/// A change that is handed back for want of memory.
fn without_memory(change: Change) -> Refused
    ensures { result ≡ record { change = change; cause = NoMemory } }
{
    Refused {
        change,
        cause: Cause::NoMemory,
    }
}

/// Changes that are handed back for want of memory.
fn all_without_memory(changes: Vec<Change>) -> RefusedAll
    ensures { result ≡ record { changes = changes; cause = BatchCause.Refused NoMemory } }
{
    RefusedAll {
        changes,
        cause: BatchCause::Refused(Cause::NoMemory),
    }
}

/// Adds the entries of a batch, where there is room for them.
fn add_entries(seen: &mut Vec<Entry>, changes: Vec<Change>)
    requires has_room { length seen.old.items + length changes.items ≤ vec_capacity seen.old }
    requires few { length changes.items ≤ MAX_BATCH }
    ensures { seen.new.items ≡ seen.old.items
        ++ entries_of SEAT (length seen.old.items + 1) changes.items }
{
    let mut left = changes.len() as u8;
    for change in changes {
        left -= 1;
        let number = seen.len() as u64 + 1;
        seen.push_reserved(Entry {
            seat: SEAT,
            number,
            change,
            left,
        });
    }
}
