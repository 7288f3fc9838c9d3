//! What waits for names: it is held in order of arrival, and comes out once.

use activation::{Given, Holder};
use names::BusName;
use seq_bus_core::Fate;
use seq_bus_core::limits::MAX_TICKETS;
use std::alloc::Global;
use std::process::Abort;
use test_support::once_more;

/// What is done to a holder.
#[derive(Clone, Copy)]
enum Deed<'a> {
    /// Something waits for a name.
    Hold(&'a str, u64),
    Release(&'a str),
    Fail(&'a str),
}

/// A run: what is done, and then what is handed out, in order.
struct Run<'a> {
    name: &'a str,
    deeds: &'a [Deed<'a>],
    given: &'a [(Fate, u64)],
}

const S: &str = "com.example.S";

const T: &str = "com.example.T";

const RUNS: [Run; 6] = [
    Run {
        name: "three calls to a service that takes its name",
        deeds: &[
            Deed::Hold(S, 1),
            Deed::Hold(S, 2),
            Deed::Hold(S, 3),
            Deed::Release(S),
        ],
        given: &[(Fate::Served, 1), (Fate::Served, 2), (Fate::Served, 3)],
    },
    Run {
        name: "three calls to a service that ends",
        deeds: &[
            Deed::Hold(S, 1),
            Deed::Hold(S, 2),
            Deed::Hold(S, 3),
            Deed::Fail(S),
        ],
        given: &[(Fate::Failed, 1), (Fate::Failed, 2), (Fate::Failed, 3)],
    },
    Run {
        name: "two names, mixed",
        deeds: &[
            Deed::Hold(S, 1),
            Deed::Hold(T, 2),
            Deed::Hold(S, 3),
            Deed::Hold(T, 4),
            Deed::Fail(T),
            Deed::Release(S),
        ],
        given: &[
            (Fate::Failed, 2),
            (Fate::Failed, 4),
            (Fate::Served, 1),
            (Fate::Served, 3),
        ],
    },
    Run {
        name: "what came out comes out once",
        deeds: &[
            Deed::Hold(S, 1),
            Deed::Release(S),
            Deed::Fail(S),
            Deed::Release(S),
        ],
        given: &[(Fate::Served, 1)],
    },
    Run {
        name: "a name waits again",
        deeds: &[
            Deed::Hold(S, 1),
            Deed::Fail(S),
            Deed::Hold(S, 2),
            Deed::Release(S),
        ],
        given: &[(Fate::Failed, 1), (Fate::Served, 2)],
    },
    Run {
        name: "nothing waits for the name",
        deeds: &[Deed::Hold(S, 1), Deed::Release(T), Deed::Fail(T)],
        given: &[],
    },
];

fn name_of(rt: &impl Abort, text: &str) -> BusName {
    BusName::parse(text).ok().expect(rt, "a bus name")
}

fn new_holder(rt: &impl Abort, alloc: Global) -> Holder<u64> {
    once_more!(rt; Holder::new(alloc))
}

fn make(rt: &impl Abort, holder: &mut Holder<u64>, deed: Deed<'_>) {
    match deed {
        Deed::Hold(name, what) => {
            let name = name_of(rt, name);
            assert!(rt; holder.has_room());
            holder.hold(name, what);
        }
        Deed::Release(name) => holder.release_all(&name_of(rt, name)),
        Deed::Fail(name) => holder.fail_all(&name_of(rt, name)),
    }
}

/// Whether just these are handed out next, in this order.
fn gives(holder: &mut Holder<u64>, expected: &[(Fate, u64)]) -> bool {
    for (fate, what) in expected {
        let given = Given {
            fate: *fate,
            what: *what,
        };
        if holder.next_given() != Some(given) {
            return false;
        }
    }
    holder.next_given().is_none()
}

#[test]
fn what_is_handed_out(rt: HostRuntime) {
    for run in &RUNS {
        let mut holder = new_holder(&rt, rt.alloc());
        for deed in run.deeds {
            make(&rt, &mut holder, *deed);
        }
        assert!(rt; gives(&mut holder, run.given), "{}", run.name);
    }
}

#[test]
fn as_many_as_there_is_room_for(rt: HostRuntime) {
    let mut holder = new_holder(&rt, rt.alloc());
    let even = name_of(&rt, S);
    let odd = name_of(&rt, T);
    for what in 0..MAX_TICKETS as u64 {
        assert!(rt; holder.has_room(), "{what}");
        let name = if what % 2 == 0 { even } else { odd };
        holder.hold(name, what);
    }
    assert!(rt; !holder.has_room());
    holder.release_all(&odd);
    // What was let go takes room until it is handed out.
    assert!(rt; !holder.has_room());
    for what in 0..MAX_TICKETS as u64 / 2 {
        let given = holder.next_given();
        let expected = Given {
            fate: Fate::Served,
            what: 2 * what + 1,
        };
        assert!(rt; given == Some(expected), "{what}");
    }
    assert!(rt; holder.next_given().is_none());
    assert!(rt; holder.has_room());
}
