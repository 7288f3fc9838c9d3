//! What settles a change once it is made.

ghost use Rattle.std.specs.Prelude.{◌≡◌, ◌⊎◌, IfOk, OnErr};
ghost use Rattle.seq_bus_core.specs.Steps.{step};
ghost use Rattle.registry.specs.PreparedChanges.{IsPreparedFor};
ghost use Rattle.settling.specs.Settlings.{IsSettled, IsSomeBus, Settles, SettlesAt};

use activation::{CallRoom, HeldCalls};
use owner_queues::Queue;
use registry::{Prepared, Registry};
use seq_bus_core::{Change, Conn, NumberedOutcome, Outcome};
use std::alloc::{AllocError, Global};
use std::marker::Model;

/// What settles a change once it is made: what it is told, the connection whose call it is, and the
/// memory that it takes.
#[derive(Drop)]
pub struct Settling {
    outcome: NumberedOutcome,
    caller: Option<Conn>,
    room: CallRoom,
}

impl Model for Settling {
    ghost use Rattle.settling.specs.Settlings.{Settling as Made};

    ghost Value = { Made };

    ghost view = { λ s. record { outcome = s.outcome; caller = s.caller; room = s.room } };
}

/// Makes all that the change of a seat needs of memory: what the copies absorb, and what settles it
/// then. The change is made on this registry, with a queue lent to work in.
///
/// Where memory is refused, the registry is as it was, or the change is made on it.
pub fn prepare(
    alloc: Global,
    registry: &mut Registry,
    queue: &mut Queue,
    seat: u8,
    change: &Change,
) -> Result<(Prepared, Settling), AllocError>
    ensures prepared { IfOk result (λ r. IsPreparedFor seat change.now r.0) }
    ensures settles { IfOk result (λ r. SettlesAt registry.old seat change.now r.1) }
    ensures made { IfOk result (λ r.
        registry.new ≡ (step registry.old r.0.seat r.0.change).0) }
    ensures refused { OnErr result ((registry.new ≡ registry.old)
        ⊎ (registry.new ≡ (step registry.old seat change.now).0)) }
{
    let mut prepared = registry.make(queue, alloc, seat, change)?;
    let settling = Settling::take(alloc, change, &mut prepared)?;
    Ok((prepared, settling))
}

/// The same, where the change is not made on the registry yet.
pub fn prepare_only(
    alloc: Global,
    registry: &Registry,
    seat: u8,
    change: &Change,
) -> Result<(Prepared, Settling), AllocError>
    ensures prepared { IfOk result (λ r. IsPreparedFor seat change.now r.0) }
    ensures settles { IfOk result (λ r. SettlesAt registry.now seat change.now r.1) }
{
    let mut prepared = registry.prepare(alloc, seat, change)?;
    let settling = Settling::take(alloc, change, &mut prepared)?;
    Ok((prepared, settling))
}

impl Settling {
    /// Takes out of a prepared change what settles it once it is made, and makes what that needs of
    /// memory. What is left of it is made on a registry as before.
    pub(crate) fn take(
        alloc: Global,
        change: &Change,
        prepared: &mut Prepared,
    ) -> Result<Settling, AllocError>
        ensures settles { IfOk result (λ settling. Settles prepared.old change.now settling) }
        ensures same_seat { prepared.new.seat ≡ prepared.old.seat }
        ensures same_change { prepared.new.change ≡ prepared.old.change }
    {
        let room = HeldCalls::room_for(alloc, change, prepared.outcome())?;
        let caller = prepared.caller();
        let outcome = prepared.take_outcome(alloc);
        Ok(Settling {
            outcome,
            caller,
            room,
        })
    }

    /// Settles the change: the calls that it lets go wait no longer, one that it makes wait does,
    /// and it is told what its tickets carry. It takes no memory, and can't be refused.
    pub fn settle(self, calls: &mut HeldCalls, change: &Change) -> Outcome
        requires { IsSomeBus change.now self calls.old }
        ensures { IsSettled change.now self calls.old calls.new result }
    {
        let Settling {
            outcome,
            caller,
            room,
        } = self;
        calls.settle(change, caller, outcome, room)
    }
}
