//! Changes that are made in threads of their own.

ghost use Rattle.std.specs.Prelude.{◌≡◌, false, IfOk, IfErr, OnOk, OnErr};
ghost use Rattle.seq_bus_core.specs.Histories.{Begins};
ghost use Rattle.bus_view.specs.Views.{IsChanged};
ghost use Rattle.registry_snapshots.specs.Seats.{knowledge_of};

use bus_view::Refused;
use registry_snapshots::{Naming, Note, Seat, Shared};
use seq_bus_core::{Change, Outcome};
use std::sync::Wait;
use std::thread::{Threads, join};

/// The seat that makes a change, and what it was told.
type Made<J> = (Seat<J>, Result<(Outcome, Note<J>), Refused>);

fn make<J: Naming, R: Wait>(
    rt: &R,
    shared: &Shared<J>,
    mut seat: Seat<J>,
    change: Change,
) -> Made<J>
    ensures changed { IfOk result.1 (λ r. IsChanged false (knowledge_of J.book J.opening seat)
        change r.0 (knowledge_of J.book J.opening result.0)) }
    ensures told { IfOk result.1 (λ r. r.1 ≡ result.0.seen) }
    ensures refused { IfErr result.1 (λ e. e.change ≡ change) }
    ensures unchanged { OnErr result.1 (result.0 ≡ seat) }
{
    let made = seat.change(rt, shared, change);
    (seat, made)
}

/// Makes a change with this seat in a thread of its own, under the lock of the registry. The thread
/// ends with the seat, the outcome and a note that tells of the change, or with the change that was
/// refused, and the seat as it was.
pub(crate) fn publish<J: Naming + Send + Sync, R: Threads + Wait + Sync>(
    rt: &R,
    shared: &Shared<J>,
    seat: Seat<J>,
    change: Change,
) -> (Seat<J>, Result<(Outcome, Note<J>), Refused>)
    ensures changed { IfOk result.1 (λ r. IsChanged false (knowledge_of J.book J.opening seat)
        change r.0 (knowledge_of J.book J.opening result.0)) }
    ensures told { IfOk result.1 (λ r. r.1 ≡ result.0.seen) }
    ensures refused { IfErr result.1 (λ e. e.change ≡ change) }
    ensures unchanged { OnErr result.1 (result.0 ≡ seat) }
{
    join(rt, move || make(rt, shared, seat, change), || ()).0
}

/// Makes a change with a seat in a thread of its own, and tells another seat of it: from then on
/// that one sees the change, and all that the first had seen. Refused, the change is handed back
/// and neither has seen more.
pub(crate) fn publish_to<J: Naming + Send + Sync, R: Threads + Wait + Sync>(
    rt: &R,
    shared: &Shared<J>,
    seat: Seat<J>,
    reader: &mut Seat<J>,
    change: Change,
) -> (Seat<J>, Result<Outcome, Refused>)
    ensures changed { IfOk result.1 (λ outcome.
        IsChanged false (knowledge_of J.book J.opening seat) change outcome
        (knowledge_of J.book J.opening result.0)) }
    ensures told { OnOk result.1 (Begins result.0.seen reader.new.seen
        × Begins reader.old.seen reader.new.seen) }
    ensures kept { (reader.new.number ≡ reader.old.number) × (reader.new.made ≡ reader.old.made) }
    ensures refused { IfErr result.1 (λ e. e.change ≡ change) }
    ensures unchanged { OnErr result.1 ((result.0 ≡ seat) × (reader.new ≡ reader.old)) }
{
    let (seat, made) = publish(rt, shared, seat, change);
    match made {
        Ok((outcome, note)) => {
            reader.take_note(&note);
            (seat, Ok(outcome))
        }
        Err(refused) => (seat, Err(refused)),
    }
}
