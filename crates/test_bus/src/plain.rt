//! A plain bus that is opened for a test.

use bus_view::can_open;
use names::WellKnown;
use owner_queues::Profile;
use seq_bus::SeqBus;
use std::alloc::Global;
use std::process::Abort;
use test_support::once_more;

/// A bus with these services, whose queues are of the first profile.
pub fn open(rt: &impl Abort, alloc: Global, services: &[WellKnown], routers: u8) -> SeqBus {
    assert!(rt; can_open(services, routers));
    once_more!(rt; SeqBus::new(alloc, services, routers, Profile::One))
}
