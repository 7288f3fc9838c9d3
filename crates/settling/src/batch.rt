//! What settles a batch once it is made.

ghost use Rattle.std.specs.Prelude.{◌≡◌, ◌<◌, ◌≤◌, ◌+◌, ◌++◌, ◌∷◌, [], length, vec_capacity, IfOk, OnOk};
ghost use Rattle.registry.specs.PreparedChanges.{ArePreparedFor, state_along};
ghost use Rattle.settling.specs.Batches.{AreSettled, AreTaken, IsSomeBusAlong, SettleAlong};

use crate::settling::Settling;
use activation::HeldCalls;
use registry::{Prepared, Registry};
use seq_bus_core::{Change, Outcome};
use std::alloc::{AllocError, Global};
use std::collections::VecDeque;
use std::marker::Model;

/// What settles the changes of a batch once they are made: what settles each, in order, and room
/// for what they are told.
#[derive(Drop)]
pub struct Settlings {
    each: VecDeque<Settling>,
    outcomes: Vec<Outcome>,
}

impl Model for Settlings {
    ghost use Rattle.std.specs.Prelude.{◌≡◌, ◌≤◌, List, [], length, vec_capacity};
    ghost use Rattle.settling.specs.Settlings.{Settling as Made};

    ghost Value = { List Made };

    ghost view = { λ s. s.each.items };

    ghost invariant = { λ s. (s.outcomes.items ≡ [])
        × (length s.each.items ≤ vec_capacity s.outcomes) };
}

/// Makes all that the changes of a seat need of memory, each on the state that those before it
/// leave: what the copies absorb, and what settles them then. The changes are made on this
/// registry.
///
/// Where memory is refused, some of them may have been made on it.
pub fn prepare_all(
    alloc: Global,
    registry: &mut Registry,
    seat: u8,
    changes: &[Change],
) -> Result<(Vec<Prepared>, Settlings), AllocError>
    ensures prepared { IfOk result (λ r. ArePreparedFor seat changes.now r.0.items) }
    ensures settles { IfOk result (λ r. SettleAlong registry.old seat changes.now r.1) }
    ensures made { OnOk result (registry.new ≡ state_along registry.old seat changes.now) }
{
    let mut prepared = registry.prepare_all(alloc, seat, changes)?;
    let settlings = Settlings::take(alloc, changes, &mut prepared)?;
    Ok((prepared, settlings))
}

impl Settlings {
    /// Takes out of the prepared changes of a batch what settles them once they are made, and makes
    /// what that needs of memory.
    fn take(
        alloc: Global,
        changes: &[Change],
        prepared: &mut [Prepared],
    ) -> Result<Settlings, AllocError>
        requires { length prepared.old ≡ length changes.now }
        ensures { IfOk result (λ settlings.
            AreTaken changes.now prepared.old prepared.new settlings) }
    {
        let mut each = VecDeque::with_capacity(alloc, changes.len())?;
        let outcomes = Vec::with_capacity(alloc, changes.len())?;
        for (i, next) in prepared.iter_mut().enumerate() {
            each.push_back_reserved(Settling::take(alloc, &changes[i], next)?);
        }
        Ok(Settlings { each, outcomes })
    }

    /// Settles the changes, in order: the calls that they let go wait no longer, those that they
    /// make wait do, and each is told what its tickets carry. It takes no memory, and can't be
    /// refused.
    pub fn settle(self, calls: &mut HeldCalls, changes: &[Change]) -> Vec<Outcome>
        requires { IsSomeBusAlong changes.now self calls.old }
        ensures { AreSettled changes.now self calls.old calls.new result.items }
    {
        let Settlings {
            mut each,
            mut outcomes,
        } = self;
        for change in changes {
            match each.pop_front() {
                Some(settling) => outcomes.push_reserved(settling.settle(calls, change)),
                None => return outcomes,
            }
        }
        outcomes
    }
}
