//! Seats of a registry in threads of their own.

ghost use Rattle.std.specs.Prelude.{◌≡◌, []};
ghost use Rattle.owner_queues.specs.declared.request.Profile.TheVariants.{Two};
ghost use Rattle.seq_bus_core.specs.Tickets.{opening_bus};
ghost use Rattle.registry_snapshots.specs.Openings.{identity};

use match_rules::{Facts, MessageKind};
use names::UniqueName;
use registry_snapshots::{Naming, NewHistory, Seat, Shared};
use seq_bus_core::{Change, Outcome, Reply};
use std::alloc::Global;
use std::marker::Brand;
use std::process::Abort;
use std::sync::Wait;
use std::thread::{Threads, join};

/// How many Hellos each router makes.
const HELLOS: u64 = 100;

/// The number of the connection that was made, or 0.
fn number_of(outcome: &Outcome) -> u64 {
    match outcome.reply {
        Reply::Welcome(conn) => conn.number,
        _ => 0,
    }
}

/// What one router did.
#[derive(Drop)]
struct Done {
    /// The numbers of its connections.
    numbers: Vec<u64>,
    /// How many calls were refused.
    refused: u64,
}

/// What rules see of a call to a name.
fn call_to(name: &UniqueName) -> Facts<'_> {
    Facts {
        kind: MessageKind::MethodCall,
        auto_start: true,
        sender: 0,
        path: None,
        interface: None,
        member: None,
        destination: Some(name.as_str()),
        arguments: &[],
    }
}

/// Makes a Hello, and routes a call of the new connection to itself: its number, if nothing was
/// refused.
fn say_hello<J: Naming, R: Wait>(rt: &R, seat: &mut Seat<J>, shared: &Shared<J>) -> Option<u64> {
    let change = Change::Hello { privileged: false };
    let (outcome, _) = seat.change(rt, shared, change).ok()?;
    let number = number_of(&outcome);
    let name = UniqueName::of(number);
    let facts = call_to(&name);
    let verdict = seat.route(number, &facts).ok()?;
    match verdict.to.as_slice() {
        [conn] if conn.number == number => Some(number),
        _ => None,
    }
}

/// Makes Hellos, with a route after each.
fn hellos<J: Naming, R: Wait>(
    rt: &R,
    alloc: Global,
    shared: &Shared<J>,
    mut seat: Seat<J>,
) -> (Seat<J>, Done) {
    let mut numbers = Vec::new(alloc);
    let mut refused = 0u64;
    for _ in 0..HELLOS {
        let fine = match say_hello(rt, &mut seat, shared) {
            Some(number) => numbers.push(number).is_ok(),
            None => false,
        };
        if !fine {
            refused = refused.wrapping_add(1);
        }
    }
    (seat, Done { numbers, refused })
}

#[test]
fn no_refusal(rt: HostRuntime) {
    two_routers::<Brand, _>(&rt, rt.alloc(), NewHistory::new());
}

/// Two routers that serve new connections at the same time.
fn two_routers<J: Naming + Send + Sync, R: Threads + Wait + Abort + Sync>(
    rt: &R,
    alloc: Global,
    opened: NewHistory,
)
    requires { (opened ≡ identity J.book J.name J.parts) × (J.opening ≡ opening_bus Two 2 []) }
{
    let (shared, mut seats) = Shared::<J>::new(rt, alloc, opened, &[], 2)
        .ok()
        .expect(rt, "there is memory");
    let second = seats.pop().expect(rt, "there are three seats");
    let first = seats.pop().expect(rt, "there are three seats");
    let mut main = seats.pop().expect(rt, "there are three seats");
    let lent = &shared;
    let ((first, one), (second, two)) = join(
        rt,
        move || hellos(rt, alloc, lent, first),
        move || hellos(rt, alloc, lent, second),
    );
    let told = tell(&mut main, &first) && tell(&mut main, &second);
    drop(first);
    drop(second);
    let are_all = told && is_each_once(&mut main, &one, &two);
    shared.end(rt);
    let is_over = main.present(1).is_err();
    drop(main);
    assert!(rt; are_all && is_over);
}

/// Tells a seat what another made; false where that made no change.
fn tell<J: Naming>(seat: &mut Seat<J>, other: &Seat<J>) -> bool {
    match other.note() {
        Some(note) => {
            seat.take_note(&note);
            true
        }
        None => false,
    }
}

/// Whether nothing was refused, and each number is that of one connection, which is present.
fn is_each_once<J: Naming>(seat: &mut Seat<J>, one: &Done, two: &Done) -> bool {
    for number in 1..=2 * HELLOS {
        let is_of_one = one.numbers.contains(&number) != two.numbers.contains(&number);
        if !is_of_one || seat.present(number) != Ok(true) {
            return false;
        }
    }
    one.numbers.len() + two.numbers.len() == 200 && one.refused == 0 && two.refused == 0
}
