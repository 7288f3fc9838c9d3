//! The examples of the libraries, word for word.

ghost use Rattle.std.specs.Prelude.{◌≡◌};

use outbox::{EnvelopeOf, Outboxes, open_queue};
use outbox_core::Deliveries;
use registry_snapshots::{Naming, Shared};
use seq_bus_core::Conn;
use std::alloc::{AllocError, Global};
use std::sync::Wait;
use std::test::*;

fn comes_in_order<R: Wait>(rt: &R, alloc: Global) -> Result<bool, AllocError> {
    let (mut lanes, mut tap) = open_queue::<u64>(alloc, 1)?;
    let Some(mut lane) = lanes.pop() else {
        return Ok(false);
    };
    if lane.slots() == 0 {
        return Ok(false);
    }
    let put = lane.put(rt, 0, 5).is_ok() && lane.put(rt, 0, 6).is_ok();
    Ok(put && tap.take(rt) == Some(5) && tap.take(rt) == Some(6) && tap.take(rt).is_none())
}

/// Of a registry of two routers the second takes what was put for slot 255.
pub fn comes_to_the_second<J: Naming, R: Wait>(
    rt: &R,
    alloc: Global,
    shared: &Shared<J>,
    envelope: EnvelopeOf<J>,
) -> Result<bool, AllocError>
    requires { J.opening.state.routers ≡ 2 }
{
    let (mut lanes, mut routers) = Outboxes::new(alloc, shared)?;
    let (Some(mut lane), Some(mut taps)) = (lanes.pop(), routers.pop()) else {
        return Ok(false);
    };
    let Some(mut tap) = taps.pop() else {
        return Ok(false);
    };
    if lane.slots() < 256 {
        return Ok(false);
    }
    let number = envelope.number;
    let put = lane.put(rt, 255, envelope).is_ok();
    Ok(
        put && tap
            .take(rt)
            .is_some_and(|envelope| envelope.number == number),
    )
}

fn get_it_once(one: Conn, two: Conn) -> bool {
    let to = [one];
    let monitors = [one, two];
    let mut deliveries = Deliveries::new(&to, &monitors);
    let first = deliveries.next();
    let second = deliveries.next();
    first == Some(two) && second == Some(one) && deliveries.next().is_none()
}

#[test]
fn a_lane_keeps_its_order(rt: HostRuntime) -> Result<(), Fail> {
    assert!(rt; comes_in_order(&rt, rt.alloc())?);
    Ok(())
}

#[test]
fn a_monitor_that_is_a_recipient_gets_it_once(rt: HostRuntime) {
    let one = Conn {
        number: 1,
        slot: 0,
        router: 1,
    };
    let two = Conn {
        number: 2,
        slot: 255,
        router: 2,
    };
    assert!(rt; get_it_once(one, two));
}
