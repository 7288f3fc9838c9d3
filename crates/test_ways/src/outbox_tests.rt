//! Outboxes of a registry.

ghost use Rattle.std.specs.Prelude.{◌≡◌, []};
ghost use Rattle.owner_queues.specs.declared.request.Profile.TheVariants.{Two};
ghost use Rattle.seq_bus_core.specs.Tickets.{opening_bus};
ghost use Rattle.registry_snapshots.specs.Openings.{identity};

use crate::examples::comes_to_the_second;
use outbox::{Full, Lane, Outboxes, Tap};
use outbox_core::{Content, Envelope};
use registry_snapshots::{Naming, NewHistory, Note, Shared};
use seq_bus_core::SharedBytes;
use std::alloc::{AllocError, Global};
use std::marker::Brand;
use std::process::Abort;
use std::sync::{Arc, Wait};
use std::test::*;
use std::thread::{Threads, join};

type Letter<J> = Envelope<Note<J>>;

fn letter<J: Naming>(bytes: &SharedBytes, number: u64) -> Result<Letter<J>, AllocError> {
    Ok(Envelope {
        number,
        note: None,
        content: Content::Relayed(bytes.try_clone()?),
    })
}

// Puts envelopes until one comes back, and tells its number.
fn fill<J: Naming, R: Wait>(
    rt: &R,
    mut lane: Lane<Letter<J>>,
    slot: usize,
    bytes: &SharedBytes,
) -> Option<u64> {
    for number in 0..1000 {
        if slot >= lane.slots() {
            return None;
        }
        if let Err(Full(back)) = lane.put(rt, slot, letter(bytes, number).ok()?) {
            return Some(back.number);
        }
    }
    None
}

fn first_of<J: Naming, R: Wait>(rt: &R, mut tap: Tap<Letter<J>>) -> Option<u64> {
    tap.take(rt).map(|envelope| envelope.number)
}

fn two_routers<J: Naming + Send + Sync, R: Threads + Wait + Abort + Sync>(
    rt: &R,
    alloc: Global,
    opened: NewHistory,
)
    requires { (opened ≡ identity J.book J.name J.parts) × (J.opening ≡ opening_bus Two 2 []) }
{
    let (shared, _seats) = Shared::<J>::new(rt, alloc, opened, &[], 2)
        .ok()
        .expect(rt, "there is memory");
    let made = Outboxes::new(alloc, &shared);
    let (mut lanes, mut routers) = made.ok().expect(rt, "there is memory");
    assert_eq!(rt; (lanes.len(), routers.len()), (3, 2));
    let lane = lanes.pop().expect(rt, "there are three lanes");
    let mut taps = routers.pop().expect(rt, "there are two routers");
    let other = lanes.pop().expect(rt, "there are three lanes");
    let tap = taps.pop().expect(rt, "a router has 128 taps");
    let bytes = Arc::new(alloc, Vec::new(alloc))
        .ok()
        .expect(rt, "there is memory");
    let bytes = SharedBytes::new(bytes);
    let lent = &bytes;
    let (back, none) = join(
        rt,
        move || fill(rt, lane, 255, lent),
        move || fill(rt, other, 256, lent),
    );
    assert_eq!(rt; (back, none, first_of(rt, tap)), (Some(256), None, Some(0)));
    let envelope = letter(lent, 7).ok().expect(rt, "few share the bytes");
    let came = comes_to_the_second(rt, alloc, &shared, envelope);
    assert!(rt; came.unwrap_or(false));
    shared.end(rt);
}

#[test]
fn the_257th_envelope_comes_back(rt: HostRuntime) {
    two_routers::<Brand, _>(&rt, rt.alloc(), NewHistory::new());
}
