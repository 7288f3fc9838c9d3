//! The Leaves of the numbers of connections that are gone.

ghost use Rattle.std.specs.Prelude.{◌≡◌, ◌<◌, ◌≤◌, ◌+◌, ◌*◌, length, drop, map, vec_len, vec_capacity, true, IfOk};
ghost use Rattle.std.specs.List.{AllByRecursion};
ghost use Rattle.seq_bus_core.specs.Batches.{IsBatch, max_batch};
ghost use Rattle.seq_bus_core.specs.Bounds.{IsBounded};
ghost use Rattle.seq_bus_core.specs.declared.limits.TheConstants.{MAX_SIGNALS};
ghost use Rattle.seq_bus_core.specs.declared.change.Change.TheVariants.{Leave};
ghost use Rattle.router_core.specs.Events.{leaving, leaving_of, leaving_each, leaving_if, leaving_together, leaving_by, leaving_all, announcing_all};
ghost use Rattle.router_core.specs.Scripts.{World, RunsTo};
ghost use Rattle.router_core.specs.Standing.{Standing};
ghost use Rattle.router_steps.specs.Parts.{part};

use crate::context::Context;
use crate::room::push_reserved;
use bus_view::BusView;
use router_core::Gate;
use seq_bus_core::limits::MAX_BATCH;
use seq_bus_core::{Change, Conn, Outcome};
use std::alloc::{AllocError, Global};

/// The Leaves of these numbers, in order.
fn leaves_of(alloc: Global, numbers: &[u64]) -> Result<Vec<Change>, AllocError>
    ensures { IfOk result (λ changes. changes.items ≡ map Leave numbers.now) }
{
    let mut changes = Vec::with_capacity(alloc, numbers.len())?;
    for number in numbers {
        changes.push(Change::Leave {
            connection: *number,
        })?;
    }
    Ok(changes)
}

impl<V: BusView, G: Gate> Context<V, G> {
    /// Makes the Leave of a number and announces it. A Leave that is refused is kept.
    pub fn leave(&mut self, right: &V::Right, number: u64, due_leaves: &mut Vec<u64>)
        requires room { MAX_SIGNALS ≤ self.old.room }
        requires spare { vec_len due_leaves.old < vec_capacity due_leaves.old }
        ensures comes { (s : Standing) →
            RunsTo V.BusView G.Gate
            (leaving (record s { due_leaves = due_leaves.old.items }) number)
            self.old.world (record s { due_leaves = due_leaves.new.items }) self.new.world }
        ensures room { self.old.room ≤ self.new.room + MAX_SIGNALS }
        ensures len { vec_len due_leaves.new ≤ vec_len due_leaves.old + 1 }
        ensures capacity { vec_capacity due_leaves.old ≤ vec_capacity due_leaves.new }
    {
        match self.change(right, Change::Leave { connection: number }) {
            Ok(outcome) => self.announce(outcome.signals),
            Err(_) => push_reserved(due_leaves, number),
        }
    }

    /// Makes the Leave of a connection that has a number.
    pub fn leave_of(&mut self, right: &V::Right, conn: Option<Conn>, due_leaves: &mut Vec<u64>)
        requires room { MAX_SIGNALS ≤ self.old.room }
        requires spare { vec_len due_leaves.old < vec_capacity due_leaves.old }
        ensures comes { (s : Standing) →
            RunsTo V.BusView G.Gate
            (leaving_of (record s { due_leaves = due_leaves.old.items }) conn)
            self.old.world (record s { due_leaves = due_leaves.new.items }) self.new.world }
    {
        match conn {
            None => {}
            Some(conn) => self.leave(right, conn.number, due_leaves),
        }
    }

    /// Makes the Leaves of these numbers, in order, each by itself. Those that are refused are
    /// kept.
    fn leave_each(&mut self, right: &V::Right, numbers: &[u64], due_leaves: &mut Vec<u64>)
        requires room { MAX_SIGNALS * length numbers.now ≤ self.old.room }
        requires spare { vec_len due_leaves.old + length numbers.now ≤ vec_capacity due_leaves.old }
        ensures comes { (s : Standing) →
            RunsTo V.BusView G.Gate
            (leaving_each numbers.now (record s { due_leaves = due_leaves.old.items }))
            self.old.world (record s { due_leaves = due_leaves.new.items }) self.new.world }
        ensures room { self.old.room ≤ self.new.room + MAX_SIGNALS * length numbers.now }
        ensures len { vec_len due_leaves.new ≤ vec_len due_leaves.old + length numbers.now }
        ensures capacity { vec_capacity due_leaves.old ≤ vec_capacity due_leaves.new }
    {
        for number in numbers {
            self.leave(right, *number, due_leaves);
        }
    }

    /// Announces several changes, in order.
    fn announce_all(&mut self, outcomes: Vec<Outcome>)
        requires few { AllByRecursion IsBounded outcomes.items }
        requires room { MAX_SIGNALS * length outcomes.items ≤ self.old.room }
        ensures comes { RunsTo V.BusView G.Gate (announcing_all outcomes.items)
            self.old.world tt self.new.world }
        ensures room { self.old.room ≤ self.new.room + MAX_SIGNALS * length outcomes.items }
    {
        for outcome in outcomes {
            self.announce(outcome.signals);
        }
    }

    /// Makes the Leaves of these numbers together, and announces them in order. Where there is no
    /// memory for that each is made by itself. Those that are refused are kept.
    fn leave_batch(
        &mut self,
        right: &V::Right,
        numbers: &[u64],
        changes: Vec<Change>,
        due_leaves: &mut Vec<u64>,
    )
        requires leaves { changes.items ≡ map Leave numbers.now }
        requires batch { IsBatch changes.items }
        requires room { MAX_SIGNALS * length numbers.now ≤ self.old.room }
        requires spare { vec_len due_leaves.old + length numbers.now ≤ vec_capacity due_leaves.old }
        ensures comes { (s : Standing) →
            RunsTo V.BusView G.Gate
            (leaving_if (record s { due_leaves = due_leaves.old.items }) numbers.now true)
            self.old.world (record s { due_leaves = due_leaves.new.items }) self.new.world }
        ensures room { self.old.room ≤ self.new.room + MAX_SIGNALS * length numbers.now }
        ensures len { vec_len due_leaves.new ≤ vec_len due_leaves.old + length numbers.now }
        ensures capacity { vec_capacity due_leaves.old ≤ vec_capacity due_leaves.new }
    {
        match self.change_all(right, changes) {
            Ok(outcomes) => self.announce_all(outcomes),
            Err(_) => self.leave_each(right, numbers, due_leaves),
        }
    }

    /// Makes the Leaves of 64 numbers at most together, if there are any. Those that are refused
    /// are kept.
    fn leave_together(&mut self, right: &V::Right, numbers: &[u64], due_leaves: &mut Vec<u64>)
        requires few { length numbers.now ≤ max_batch }
        requires room { MAX_SIGNALS * length numbers.now ≤ self.old.room }
        requires spare { vec_len due_leaves.old + length numbers.now ≤ vec_capacity due_leaves.old }
        ensures comes { (s : Standing) →
            RunsTo V.BusView G.Gate
            (leaving_together (record s { due_leaves = due_leaves.old.items }) numbers.now)
            self.old.world (record s { due_leaves = due_leaves.new.items }) self.new.world }
        ensures room { self.old.room ≤ self.new.room + MAX_SIGNALS * length numbers.now }
        ensures len { vec_len due_leaves.new ≤ vec_len due_leaves.old + length numbers.now }
        ensures capacity { vec_capacity due_leaves.old ≤ vec_capacity due_leaves.new }
    {
        if numbers.is_empty() {
            return;
        }
        match leaves_of(self.alloc, numbers) {
            Ok(changes) => self.leave_batch(right, numbers, changes, due_leaves),
            Err(_) => self.leave_each(right, numbers, due_leaves),
        }
    }

    /// Makes the Leaves of the numbers from `start` up to `place` together, once they are 64. Where
    /// those begin that are not made yet.
    fn leave_full(
        &mut self,
        right: &V::Right,
        numbers: &[u64],
        start: usize,
        place: usize,
        due_leaves: &mut Vec<u64>,
    ) -> usize
        requires there { place < length numbers.now }
        requires within { start ≤ place }
        requires few { place ≤ start + max_batch }
        requires room { MAX_SIGNALS * length numbers.now ≤ self.old.room + MAX_SIGNALS * start }
        requires spare { vec_len due_leaves.old + length numbers.now
            ≤ vec_capacity due_leaves.old + start }
        ensures comes { (s end : Standing) (v : World V.Note G) →
            RunsTo V.BusView G.Gate
            (leaving_by (part numbers.now result (place + 1)) (drop (place + 1) numbers.now)
            (record s { due_leaves = due_leaves.new.items }))
            self.new.world end v →
            RunsTo V.BusView G.Gate
            (leaving_by (part numbers.now start place) (drop place numbers.now)
            (record s { due_leaves = due_leaves.old.items }))
            self.old.world end v }
        ensures start { start ≤ result }
        ensures within { result ≤ place }
        ensures few { place + 1 ≤ result + max_batch }
        ensures room { self.old.room + MAX_SIGNALS * start ≤ self.new.room + MAX_SIGNALS * result }
        ensures len { vec_len due_leaves.new + start ≤ vec_len due_leaves.old + result }
        ensures capacity { vec_capacity due_leaves.old ≤ vec_capacity due_leaves.new }
    {
        if place - start < MAX_BATCH {
            return start;
        }
        self.leave_together(right, &numbers[start..place], due_leaves);
        place
    }

    /// Makes the Leaves of these numbers, in order, 64 at most together. Those that are refused are
    /// kept.
    pub fn leave_all(&mut self, right: &V::Right, numbers: &[u64], due_leaves: &mut Vec<u64>)
        requires room { MAX_SIGNALS * length numbers.now ≤ self.old.room }
        requires spare { vec_len due_leaves.old + length numbers.now ≤ vec_capacity due_leaves.old }
        ensures comes { (s : Standing) →
            RunsTo V.BusView G.Gate
            (leaving_all numbers.now (record s { due_leaves = due_leaves.old.items }))
            self.old.world (record s { due_leaves = due_leaves.new.items }) self.new.world }
        ensures room { self.old.room ≤ self.new.room + MAX_SIGNALS * length numbers.now }
    {
        let mut start = 0;
        for place in 0..numbers.len() {
            start = self.leave_full(right, numbers, start, place, due_leaves);
        }
        self.leave_together(right, &numbers[start..], due_leaves);
    }
}
