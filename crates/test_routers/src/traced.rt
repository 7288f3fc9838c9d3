//! Routers whose runs are recorded.

use crate::playing::play;
use crate::scenario::{ClientMessage, Condition, Scenario, Step, Tracing};
use std::test::Fail;
use trace_check_core::{Verdict, check};

/// Room for whatever comes.
const ROOM: usize = 1_000_000;

/// All clients have hung up.
const ALL_OVER: Step = Step::Awaits(Condition::Over(4));

/// Forty events, ten at the client of each of four routers. It comes once the one before has its
/// name, says Hello, sends something seven times, and hangs up. Behind an event stands which lines
/// it brings: c is a change, q a query, m a message that goes somewhere. A reply of the bus is a
/// message too; to come brings none.
const KNOWN_CALLS: Scenario = Scenario {
    rooms: &[ROOM, ROOM, ROOM, ROOM],
    steps: &[
        &[
            Step::Connects(0),
            Step::Sends(0, ClientMessage::Hello), // c m
            Step::Sends(0, ClientMessage::AddMatch("member='Ticked'")), // c 2m
            Step::Sends(0, ClientMessage::RequestName("com.example.A")), // c 2m
            Step::Sends(0, ClientMessage::ListNames), // q 2m
            Step::Sends(0, ClientMessage::Ticks(None, 2)), // 2m
            Step::Sends(
                0,
                ClientMessage::CallsWith("ListQueuedOwners", "com.example.A"),
            ), // q 2m
            Step::Sends(0, ClientMessage::Wind(":1.2")), // m
            Step::Sends(0, ClientMessage::CallsWith("ReleaseName", "com.example.A")), // c 2m
            Step::HangsUp(0), // c
            ALL_OVER,
            Step::Ends,
        ],
        &[
            Step::Awaits(Condition::Received(0, 2)),
            Step::Connects(1),
            Step::Sends(1, ClientMessage::Hello), // c m
            Step::Sends(1, ClientMessage::GetNameOwner("com.example.A")), // q 2m
            Step::Sends(1, ClientMessage::CallsWith("NameHasOwner", ":1.1")), // q 2m
            Step::Sends(1, ClientMessage::Wind("com.example.A")), // m
            Step::Sends(1, ClientMessage::AddMatch("type='signal'")), // c 2m
            Step::Sends(1, ClientMessage::CallsWith("RemoveMatch", "type='signal'")), // c 2m
            Step::Sends(1, ClientMessage::Ticks(Some(":1.1"), 1)), // m
            Step::Sends(1, ClientMessage::GetNameOwner("com.example.Nobody")), // q 2m
            Step::HangsUp(1), // c
            ALL_OVER,
            Step::Ends,
        ],
        &[
            Step::Awaits(Condition::Received(1, 2)),
            Step::Connects(2),
            Step::Sends(2, ClientMessage::Hello), // c m
            Step::Sends(2, ClientMessage::Calls("ListActivatableNames")), // q 2m
            Step::Sends(2, ClientMessage::RequestName("com.example.B")), // c 2m
            Step::Sends(2, ClientMessage::RequestName("com.example.B")), // c 2m
            Step::Sends(2, ClientMessage::Calls("NoSuchMethod")), // 2m
            Step::Sends(2, ClientMessage::AddMatch("no rule")), // 2m
            Step::Sends(2, ClientMessage::Ticks(None, 1)), // m
            Step::Sends(2, ClientMessage::GetNameOwner("com.example.B")), // q 2m
            Step::HangsUp(2), // c
            ALL_OVER,
            Step::Ends,
        ],
        &[
            Step::Awaits(Condition::Received(2, 2)),
            Step::Connects(3),
            Step::Sends(3, ClientMessage::Hello), // c m
            Step::Sends(3, ClientMessage::AddMatch("path='/org/freedesktop/DBus'")), // c 2m
            Step::Sends(3, ClientMessage::CallsWith("NameHasOwner", "com.example.B")), // q 2m
            Step::Sends(3, ClientMessage::ListNames), // q 2m
            Step::Sends(3, ClientMessage::Ticks(None, 3)), // 3m
            Step::Sends(3, ClientMessage::Wind("com.example.B")), // m
            Step::Sends(3, ClientMessage::CallsWith("ReleaseName", "com.example.B")), // c 2m
            Step::Sends(3, ClientMessage::BecomeMonitor), // c 2m
            Step::HangsUp(3), // c
            ALL_OVER,
            Step::Ends,
        ],
    ],
    stops: &[],
    holds: false,
    tracing: Tracing::Kept,
};

/// How many of its lines are changes, queries and messages.
const KNOWN_COUNTS: [u64; 3] = [18, 9, 56];

/// The first lines of its trace.
const HEAD: &str = "dbus-trace 2\nrouters 4\n";

/// How many lines are of this kind.
fn count(trace: &str, kind: &str) -> u64 {
    let mut count: u64 = 0;
    for line in trace.lines() {
        if line.starts_with(kind) {
            count = count.saturating_add(1);
        }
    }
    count
}

#[test]
fn trace_of_known_calls(rt: HostRuntime) -> Result<(), Fail> {
    let alloc = rt.alloc();
    let trace = play(&rt, alloc, &KNOWN_CALLS)?.trace;
    let mut counts = [0; 3];
    for (place, kind) in ["c ", "q ", "m "].iter().enumerate() {
        counts[place % 3] = count(trace.as_str(), kind);
    }
    assert_eq!(rt; counts, KNOWN_COUNTS, "{trace}");
    let file = format!(in alloc; "{HEAD}{trace}")?;
    let verdict = check(alloc, file.as_bytes())?;
    assert_eq!(rt; verdict, Verdict::Yes { lines: 83 }, "{trace}");
    Ok(())
}

/// A line can't be written.
const UNWRITTEN: Scenario = Scenario {
    rooms: &[ROOM],
    steps: &[
        &[Step::Connects(0), Step::Sends(0, ClientMessage::Hello)],
        &[],
    ],
    stops: &[Condition::Over(1)],
    holds: false,
    tracing: Tracing::Refused,
};

#[test]
fn a_trace_that_takes_no_line_ends_all(rt: HostRuntime) -> Result<(), Fail> {
    let told = play(&rt, rt.alloc(), &UNWRITTEN)?.told;
    assert!(rt; told.ends_with("\nfault: device: trace\n"), "{told}");
    Ok(())
}
