//! Scenarios over the plain bus.

use crate::scenario::Scenario;
use crate::scene;
use crate::scene::Places;
use crate::watch::Findings;
use anyhow::{Result, bail};
use bus_view::can_open;
use owner_queues::Profile;
use router_core::OpenGate;
use seq_bus::SeqBus;
use std::alloc::Global;
use test_post::LocalPost;

/// The answers of a plain bus, whose one router has the places of one of so many.
pub fn play(alloc: Global, scenario: Scenario<'_>) -> Result<String> {
    if !can_open(&[], scenario.routers) {
        bail!("no bus can be opened");
    }
    let findings = Findings::new(alloc)?;
    let post = LocalPost::new(alloc)?;
    let bus = SeqBus::new(alloc, &[], scenario.routers, Profile::Two)?;
    let places = Places {
        first: 0,
        count: 256,
    };
    let host = scene::host(alloc, bus, OpenGate, scenario.login(alloc), post, places);
    let mut hosts = Vec::new(alloc);
    scene::add(&mut hosts, host)?;
    scene::play(alloc, hosts, findings, &(), scenario)
}
