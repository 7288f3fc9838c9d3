//! Making the queues.

ghost use Rattle.std.specs.Prelude.{◌≡◌, ◌∷◌, [], ◌*◌, ◌^◌, ◌<◌, ◌≤◌, length, IfOk, All, vec_len};
ghost use Rattle.outbox.specs.Lanes.{HasGiven, lane_count, lanes_of, all_of, AreGrouped};

use crate::ends::{Tap, open};
use crate::lane::{Lane, next_lane};
use seq_bus_core::limits::MAX_ROUTERS;
use std::alloc::{AllocError, Global};

/// The lanes of each queue: one for each router, and one for the main thread.
const LANES: u64 = MAX_ROUTERS as u64 + 1;

/// New queues for groups of slots, as many slots in each: so many lanes, at most 9, each with an
/// end of every queue, and the taps of each group.
///
/// # Errors
///
/// There may not be memory for all.
pub fn open_lanes<E: Drop>(
    alloc: Global,
    lanes: usize,
    groups: usize,
    places: usize,
) -> Result<(Vec<Lane<E>>, Vec<Vec<Tap<E>>>), AllocError>
    requires lanes { lanes ≤ lane_count }
    requires slots { groups * places < 2 ^ 64 }
    ensures groups { IfOk result (λ r. AreGrouped groups places r.1.items) }
    ensures taps { IfOk result (λ r. All (HasGiven lane_count) (all_of r.1.items)) }
    ensures lanes { IfOk result (λ r. r.0.items ≡ lanes_of lanes (all_of r.1.items)) }
{
    let (mut opened, taps) = open_all(alloc, groups * places)?;
    opened.truncate(lanes);
    let taps = grouped(alloc, taps, groups, places)?;
    Ok((opened, taps))
}

/// A new queue: so many lanes into it, at most 9, of which it is the only slot, and its tap.
///
/// # Errors
///
/// There may not be memory for it.
pub fn open_queue<E: Drop>(
    alloc: Global,
    lanes: usize,
) -> Result<(Vec<Lane<E>>, Tap<E>), AllocError>
    requires { lanes ≤ lane_count }
    ensures tap { IfOk result (λ r. HasGiven lane_count r.1) }
    ensures lanes { IfOk result (λ r. r.0.items ≡ lanes_of lanes (r.1 ∷ [])) }
{
    let (mut opened, mut taps) = open_all(alloc, 1)?;
    opened.truncate(lanes);
    match taps.pop() {
        Some(tap) => Ok((opened, tap)),
        None => unreachable!(),
    }
}

// New queues, one a slot, with all lanes.
fn open_all<E: Drop>(alloc: Global, slots: usize) -> Result<(Vec<Lane<E>>, Vec<Tap<E>>), AllocError>
    ensures slots { IfOk result (λ r. length r.1.items ≡ slots) }
    ensures taps { IfOk result (λ r. All (HasGiven lane_count) r.1.items) }
    ensures lanes { IfOk result (λ r. r.0.items ≡ lanes_of lane_count r.1.items) }
{
    let mut taps = Vec::with_capacity(alloc, slots)?;
    for slot in 0..slots {
        let _ = slot;
        taps.push(open(alloc)?)?;
    }
    let mut row = Vec::new(alloc);
    for lane in 0..LANES {
        let _ = lane;
        let next = next_lane(alloc, &mut taps)?;
        row.push(next)?;
    }
    Ok((row, taps))
}

// The taps by groups, in their order.
fn grouped<E: Drop>(
    alloc: Global,
    mut taps: Vec<Tap<E>>,
    groups: usize,
    places: usize,
) -> Result<Vec<Vec<Tap<E>>>, AllocError>
    requires { length taps.items ≡ groups * places }
    ensures groups { IfOk result (λ rows. AreGrouped groups places rows.items) }
    ensures taps { IfOk result (λ rows. all_of rows.items ≡ taps.items) }
{
    let mut rows = Vec::with_capacity(alloc, groups)?;
    for group in 0..groups {
        let _ = group;
        let rest = taps.split_off(places)?;
        rows.push(taps)?;
        taps = rest;
    }
    Ok(rows)
}
