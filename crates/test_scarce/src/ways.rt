//! The outboxes of a registry of two routers.

use outbox::{EnvelopeOf, Lane, Outboxes, Tap};
use outbox_core::{Content, Envelope};
use registry_snapshots::{Naming, Note, Seat, Serve, Shared, StartFault, start};
use seq_bus_core::SharedBytes;
use std::alloc::{AllocError, Global};
use std::sync::{Arc, Wait};

/// The last place of the second router.
const LAST: usize = 255;

/// Whether outboxes are opened, and bring an envelope from a seat to a place, as they should.
pub fn are_opened<R: Wait>(rt: &R, alloc: Global) -> Option<bool> {
    let served = start(rt, alloc, &[], 2, Ways { rt, alloc });
    if let Err(StartFault::NoMemory) = served {
        start(rt, alloc, &[], 2, Ways { rt, alloc }).ok()?
    } else {
        served.ok()?
    }
}

/// Opens outboxes, once more where there was no memory.
#[derive(Drop)]
struct Ways<'a, R> {
    rt: &'a R,
    alloc: Global,
}

impl<'a, R: Wait> Serve for Ways<'a, R> {
    ghost use Rattle.std.specs.Prelude.{[]};
    ghost use Rattle.owner_queues.specs.declared.request.Profile.TheVariants.{Two};
    ghost use Rattle.seq_bus_core.specs.Tickets.{opening_bus};

    type Out = Option<bool>;

    ghost bus = { λ s. opening_bus Two 2 [] };

    fn serve<J: Naming + Send + Sync>(
        self,
        shared: Shared<J>,
        seats: Vec<Seat<J>>,
    ) -> Option<bool> {
        let made = match Outboxes::new(self.alloc, &shared) {
            Ok(made) => Ok(made),
            Err(AllocError) => Outboxes::new(self.alloc, &shared),
        };
        shared.end(self.rt);
        let (mut lanes, mut taps) = made.ok()?;
        let counts = (seats.len(), lanes.len(), taps.len());
        let brings = last_brings(self.rt, self.alloc, &mut lanes, &mut taps);
        drop(lanes);
        drop(taps);
        Some(counts == (3, 3, 2) && brings?)
    }
}

/// An envelope of a relayed message without bytes.
fn letter<J: Naming>(alloc: Global, number: u64) -> Result<Envelope<Note<J>>, AllocError> {
    Ok(Envelope {
        number,
        note: None,
        content: Content::Relayed(SharedBytes::new(Arc::new(alloc, Vec::new(alloc))?)),
    })
}

/// Whether what a lane puts for the last place is what its tap takes.
fn brings<J: Naming, R: Wait>(
    rt: &R,
    alloc: Global,
    lane: &mut Lane<EnvelopeOf<J>>,
    tap: &mut Tap<EnvelopeOf<J>>,
) -> Option<bool> {
    let letter = match letter::<J>(alloc, 7) {
        Ok(letter) => letter,
        Err(AllocError) => letter::<J>(alloc, 7).ok()?,
    };
    if LAST >= lane.slots() || lane.put(rt, LAST, letter).is_err() {
        return None;
    }
    let first = tap.take(rt)?.number;
    Some(first == 7 && tap.take(rt).is_none())
}

/// The same of the last lane and its tap.
fn last_brings<J: Naming, R: Wait>(
    rt: &R,
    alloc: Global,
    lanes: &mut [Lane<EnvelopeOf<J>>],
    taps: &mut [Vec<Tap<EnvelopeOf<J>>>],
) -> Option<bool> {
    let lane = lanes.last_mut()?;
    let tap = taps.last_mut()?.last_mut()?;
    brings(rt, alloc, lane, tap)
}
