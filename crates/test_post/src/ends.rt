//! What routers of one registry serve with.
//!
//! Neither store knows what it holds: what fails between two of its values drops them without
//! looking into them.

use outbox::{EnvelopeOf, Lane, Tap};
use registry_snapshots::Seat;
use router_host_core::StartRequest;
use std::alloc::AllocError;

/// What a router serves with: a seat, a lane, the taps of its places, and a lane for starts.
#[derive(Drop)]
pub struct Ends<S, L, T, Q> {
    pub seat: S,
    pub lane: L,
    pub taps: T,
    pub starts: Q,
}

/// The ends of a router of a registry.
pub type EndsOf<J> = Ends<
    Seat<J>,
    Lane<EnvelopeOf<J>>,
    Vec<Tap<EnvelopeOf<J>>>,
    Lane<StartRequest>,
>;

/// What all routers serve with, the last one's last. The first seat and the first lane are those of
/// the thread that accepts connections.
#[derive(Drop)]
pub struct Ways<S, L, T, Q> {
    pub seats: Vec<S>,
    pub lanes: Vec<L>,
    taps: Vec<T>,
    starts: Vec<Q>,
}

/// What all routers of a registry serve with.
pub type WaysOf<J> = Ways<
    Seat<J>,
    Lane<EnvelopeOf<J>>,
    Vec<Tap<EnvelopeOf<J>>>,
    Lane<StartRequest>,
>;

impl<S: Drop, L: Drop, T: Drop, Q: Drop> Ways<S, L, T, Q> {
    /// What all serve with, if there is memory for it. Nobody takes from the queue of starts.
    pub fn new<N: Drop>(
        seats: Vec<S>,
        outboxes: Result<(Vec<L>, Vec<T>), AllocError>,
        queue: Result<(Vec<Q>, N), AllocError>,
    ) -> Result<Ways<S, L, T, Q>, AllocError> {
        let (lanes, taps) = outboxes?;
        let (starts, _requests) = queue?;
        Ok(Ways {
            seats,
            lanes,
            taps,
            starts,
        })
    }

    /// What the last router serves with, of those that were not asked for.
    pub fn pop(&mut self) -> Option<Ends<S, L, T, Q>> {
        Some(Ends {
            seat: self.seats.pop()?,
            lane: self.lanes.pop()?,
            taps: self.taps.pop()?,
            starts: self.starts.pop()?,
        })
    }
}
