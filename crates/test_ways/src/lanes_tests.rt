//! What comes out of a queue is what was put into it.

ghost use Rattle.std.specs.Prelude.{◌≡◌, ◌∷◌, ◌≤◌, [], IfOk, IfSome};
ghost use Rattle.outbox.specs.Lanes.{lane_end};

use outbox::{Full, Lane, Tap, open_lanes, open_queue};
use std::alloc::{AllocError, Global};
use std::sync::Wait;
use std::test::*;
use std::thread;

fn put<R: Wait>(rt: &R, lane: &mut Lane<u64>, slot: usize, item: u64) -> Result<(), Full<u64>> {
    if slot >= lane.slots() {
        return Err(Full(item));
    }
    lane.put(rt, slot, item)
}

// Puts 0, 1, 2 and so on until there is no room, and tells what came back.
fn fill<R: Wait>(rt: &R, mut lane: Lane<u64>, slot: usize) -> (Lane<u64>, Option<u64>) {
    for item in 0..100_000 {
        if let Err(Full(back)) = put(rt, &mut lane, slot, item) {
            return (lane, Some(back));
        }
    }
    (lane, None)
}

// Takes all, and tells how many came in the order 0, 1, 2 and so on.
fn drain<R: Wait>(rt: &R, mut tap: Tap<u64>) -> (Tap<u64>, u64) {
    for number in 0..100_000 {
        if tap.take(rt) != Some(number) {
            return (tap, number);
        }
    }
    (tap, 100_000)
}

#[test]
fn the_257th_comes_back(rt: HostRuntime) -> Result<(), Fail> {
    let alloc = rt.alloc();
    let (mut lanes, mut routers) = open_lanes::<u64>(alloc, 9, 8, 32)?;
    let (Some(mut other), Some(lane)) = (lanes.pop(), lanes.pop()) else {
        return Err(Fail::new("there are nine lanes"));
    };
    let Some(tap) = routers.pop().and_then(|mut taps| taps.pop()) else {
        return Err(Fail::new("the last router has taps"));
    };
    let filling = thread::spawn(&rt, move || fill(&rt, lane, 255))?;
    let (lane, back) = filling.join(&rt);
    assert_eq!(rt; (lane.slots(), back), (256, Some(256)));
    let full = put(&rt, &mut other, 255, 7).err().map(|full| full.0);
    assert_eq!(rt;
        (full, put(&rt, &mut other, 254, 9).is_ok()),
        (Some(7), true)
    );
    let draining = thread::spawn(&rt, move || drain(&rt, tap))?;
    let (mut tap, taken) = draining.join(&rt);
    assert_eq!(rt; (taken, tap.take(&rt)), (256, None));
    assert_eq!(rt;
        (put(&rt, &mut other, 255, 8).is_ok(), tap.take(&rt)),
        (true, Some(8))
    );
    Ok(())
}

// The lane and the tap of a queue of its own.
fn one_way(alloc: Global) -> Result<Option<(Lane<u64>, Tap<u64>)>, AllocError>
    ensures { IfOk result (λ way.
        IfSome way (λ w. (w.0 ≡ lane_end 0 w.1 ∷ []) × (w.1.hand.to ≤ w.1.hand.from))) }
{
    let (mut lanes, tap) = open_queue::<u64>(alloc, 1)?;
    match lanes.pop() {
        Some(lane) => Ok(Some((lane, tap))),
        None => Ok(None),
    }
}

#[test]
fn what_was_taken_begins_what_was_put(rt: HostRuntime) -> Result<(), Fail> {
    let Some((mut lane, mut tap)) = one_way(rt.alloc())? else {
        return Err(Fail::new("there is a lane and a tap"));
    };
    let Ok(()) = lane.put(&rt, 0, 5) else {
        return Err(Fail::new("the queue is empty"));
    };
    let Some(taken) = tap.take(&rt) else {
        return Err(Fail::new("the queue has an item"));
    };
    lane.compare(0, &mut tap);
    let again = (put(&rt, &mut lane, 0, 6).is_ok(), tap.take(&rt));
    assert_eq!(rt; (taken, again), (5, (true, Some(6))));
    Ok(())
}

/// How many items each of two lanes puts.
const MANY: u64 = 5_000_000;

fn put_all<R: Wait>(rt: &R, mut lane: Lane<u64>, mark: u64) {
    for number in 0..MANY {
        for _ in rt.forever() {
            if put(rt, &mut lane, 1, number.wrapping_mul(2).wrapping_add(mark)).is_ok() {
                break;
            }
            thread::yield_now();
        }
    }
}

#[test]
fn none_is_lost_or_doubled(rt: HostRuntime) -> Result<(), Fail> {
    let alloc = rt.alloc();
    let (mut lanes, mut routers) = open_lanes::<u64>(alloc, 3, 2, 1)?;
    let (Some(one), Some(two)) = (lanes.pop(), lanes.pop()) else {
        return Err(Fail::new("there are three lanes"));
    };
    let Some(mut tap) = routers.pop().and_then(|mut taps| taps.pop()) else {
        return Err(Fail::new("the second router has a tap"));
    };
    let first = thread::spawn(&rt, move || put_all(&rt, one, 0))?;
    let second = thread::spawn(&rt, move || put_all(&rt, two, 1))?;
    let mut next = [0, 1];
    let mut in_order = true;
    for _ in 0..MANY * 2 {
        for _ in rt.forever() {
            if let Some(item) = tap.take(&rt) {
                let side = (item % 2) as usize;
                in_order = in_order && item == next[side];
                next[side] = item.saturating_add(2);
                break;
            }
            thread::yield_now();
        }
    }
    first.join(&rt);
    second.join(&rt);
    assert_eq!(rt;
        (in_order, next, tap.take(&rt)),
        (true, [MANY * 2, MANY * 2 + 1], None)
    );
    Ok(())
}
