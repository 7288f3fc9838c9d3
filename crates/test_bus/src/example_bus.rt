//! A bus in one thread.

use bus_view::can_open;
use names::BusName;
use owner_queues::{Profile, RequestFlags};
use seq_bus::SeqBus;
use seq_bus_core::{Change, Query};
use std::alloc::Global;
use std::test::Fail;

/// What GetNameOwner is answered, once a connection has come and requested a name.
fn owner_of_the_clock(bus: &mut SeqBus, alloc: Global) -> Result<Vec<u8>, Fail> {
    let hello = Change::Hello { privileged: false };
    bus.change(hello).ok().ok_or("out of memory")?;

    let name = BusName::parse("com.example.Clock")?;
    let request = Change::Request {
        connection: 1,
        name,
        flags: RequestFlags::default(),
    };
    bus.change(request).ok().ok_or("out of memory")?;

    let mut body = Vec::new(alloc);
    bus.ask(&Query::GetNameOwner(name), &mut body)?;
    Ok(body)
}

#[test]
fn a_plain_bus_gives_a_name_to_a_connection(rt: HostRuntime) -> Result<(), Fail> {
    if !can_open(&[], 1) {
        return Err("a bus needs a router".into());
    }
    let mut bus = SeqBus::new(rt.alloc(), &[], 1, Profile::Two)?;
    let body = owner_of_the_clock(&mut bus, rt.alloc());
    drop(bus);
    assert_eq!(rt; body?.as_slice(), b"\x04\0\0\0:1.1\0".as_slice());
    Ok(())
}
