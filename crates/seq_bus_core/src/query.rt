//! Queries.

use names::BusName;

/// A question that changes nothing.
#[derive(Clone, Copy, Debug, PartialEq, Eq)]
pub enum Query {
    GetNameOwner(BusName),
    NameHasOwner(BusName),
    ListNames,
    ListActivatableNames,
    ListQueuedOwners(BusName),
}
