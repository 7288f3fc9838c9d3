//! The outboxes of a registry.

ghost use Rattle.std.specs.Prelude.{◌≡◌, ◌+◌, ◌/◌, IfOk, All};
ghost use Rattle.outbox.specs.Lanes.{HasGiven, lane_count, lanes_of, all_of, AreGrouped};

use crate::{Lane, Tap, open_lanes};
use outbox_core::Envelope;
use registry_snapshots::{Naming, Note, Shared};
use seq_bus_core::limits::MAX_CONNECTIONS;
use std::alloc::{AllocError, Global};

/// How many connections a bus has places for.
const PLACES: usize = MAX_CONNECTIONS;

/// What lies in the outboxes of a registry: messages on their way, each with a note of that
/// registry.
pub type EnvelopeOf<J> = Envelope<Note<J>>;

/// The outboxes of a registry.
pub struct Outboxes;

impl Outboxes {
    /// The outboxes of a registry: a lane for each seat, seat 0 first, and for each router the taps
    /// of its places, as many for each.
    ///
    /// A lane reaches an outbox by its slot, the place among those of all routers.
    ///
    /// # Errors
    ///
    /// There may not be memory for all.
    pub fn new<J: Naming>(
        alloc: Global,
        shared: &Shared<J>,
    ) -> Result<(Vec<Lane<EnvelopeOf<J>>>, Vec<Vec<Tap<EnvelopeOf<J>>>>), AllocError>
        ensures routers { IfOk result (λ r. AreGrouped J.opening.state.routers
            (MAX_CONNECTIONS / J.opening.state.routers) r.1.items) }
        ensures taps { IfOk result (λ r. All (HasGiven lane_count) (all_of r.1.items)) }
        ensures lanes { IfOk result (λ r. r.0.items
            ≡ lanes_of (J.opening.state.routers + 1) (all_of r.1.items)) }
    {
        let routers = usize::from(shared.routers());
        open_lanes(alloc, routers + 1, routers, PLACES / routers)
    }
}
