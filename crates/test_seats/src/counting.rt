//! All seats in one hand again: the history has the changes that they made.

ghost use Rattle.std.specs.Prelude.{◌≡◌, [], map};
ghost use Rattle.owner_queues.specs.declared.request.Profile.TheVariants.{Two};
ghost use Rattle.seq_bus_core.specs.Tickets.{opening_bus};
ghost use Rattle.registry_snapshots.specs.Openings.{identity};

use bus_view::Refused;
use registry_snapshots::{Naming, NewHistory, Seat, Shared};
use seq_bus_core::Change;
use std::alloc::Global;
use std::marker::Brand;
use std::sync::Wait;

/// Says Hello with a seat, twice.
fn greet<J: Naming, R: Wait>(rt: &R, shared: &Shared<J>, seat: &mut Seat<J>) -> Result<(), Refused>
    ensures { seat.new.number ≡ seat.old.number }
{
    for _hello in 0..2 {
        seat.change(rt, shared, Change::Hello { privileged: false })?;
    }
    Ok(())
}

/// Says Hello with each seat, twice.
fn greet_all<J: Naming, R: Wait>(
    rt: &R,
    shared: &Shared<J>,
    seats: &mut Vec<Seat<J>>,
) -> Result<(), Refused>
    ensures { map (λ seat. seat.number) seats.new.items ≡ map (λ seat. seat.number) seats.old.items }
{
    for place in 0..seats.len() {
        greet(rt, shared, &mut seats[place])?;
    }
    Ok(())
}

/// How many changes the history of a registry of two routers has once each seat has made two.
fn count<J: Naming, R: Wait>(rt: &R, alloc: Global, opened: NewHistory) -> Option<u64>
    requires { (opened ≡ identity J.book J.name J.parts) × (J.opening ≡ opening_bus Two 2 []) }
{
    let (shared, mut seats) = Shared::<J>::new(rt, alloc, opened, &[], 2).ok()?;
    let made = greet_all(rt, &shared, &mut seats);
    let told = shared.whole_history(rt, seats);
    shared.end(rt);
    made.ok()?;
    Some(told.ok()?.prefix().len())
}

#[test]
fn seats_are_counted(rt: HostRuntime) {
    let alloc = rt.alloc();
    assert_eq!(rt; count::<Brand, _>(&rt, alloc, NewHistory::new()), Some(6));
}
