//! Calls that waited, as an engine answers them where the start of their service ends without the
//! name.

use crate::scene::{Plain, Told, engine_with_calls, told_of};
use crate::waiting_calls::{FIRST, S};
use names::BusName;
use router_core::{Action, Event, HowEnded, StartEnd};
use seq_bus_core::{Ending, ErrorKind};
use std::alloc::Global;
use std::process::Abort;
use test_support::once_more;

/// How a start ends, and what the calls are answered. The program may take the name though it ended
/// well.
const ENDS: [(HowEnded, Option<ErrorKind>); 6] = [
    (HowEnded::Program(Ending::Exit(0)), None),
    (
        HowEnded::Program(Ending::Exit(1)),
        Some(ErrorKind::ChildExited),
    ),
    (
        HowEnded::Program(Ending::Exit(255)),
        Some(ErrorKind::ChildExited),
    ),
    (
        HowEnded::Program(Ending::Killed),
        Some(ErrorKind::ChildSignaled),
    ),
    (
        HowEnded::Program(Ending::NotRun),
        Some(ErrorKind::ExecFailed),
    ),
    (HowEnded::TimedOut, Some(ErrorKind::TimedOut)),
];

/// What the engine does where a start ends. An end that there is no memory for is handed back, and
/// comes once more.
fn ended(
    rt: &impl Abort,
    alloc: Global,
    engine: &mut Plain,
    start: u64,
    how: HowEnded,
) -> Vec<Action<()>> {
    let name = BusName::parse(S).ok().expect(rt, "a bus name");
    let end = StartEnd { name, start, how };
    let mut comes = Event::Child(once_more!(rt; Box::new(alloc, end)));
    once_more!(rt; engine.event(&(), &mut comes))
}

/// What calls are answered whose start failed with this error, or none.
fn answers(actions: &[Action<()>], error: Option<ErrorKind>) -> bool {
    match error {
        Some(error) => {
            let expected = [7, 10, 11].map(|serial| Told::Error(FIRST, serial, error));
            actions.iter().map(told_of).eq(expected)
        }
        None => actions.is_empty(),
    }
}

/// The start of the service ends, behind one of another, and once more.
fn end(
    rt: &impl Abort,
    alloc: Global,
    engine: &mut Plain,
    how: HowEnded,
    error: Option<ErrorKind>,
) {
    let another = ended(rt, alloc, engine, 2, how);
    assert!(rt; another.is_empty(), "{how:?}");
    let actions = ended(rt, alloc, engine, 1, how);
    assert!(rt; answers(&actions, error), "{how:?}");
    let again = ended(rt, alloc, engine, 1, how);
    assert!(rt; again.is_empty(), "{how:?}");
}

#[test]
fn calls_are_answered_why_their_service_did_not_come(rt: HostRuntime) {
    for (how, error) in ENDS {
        let mut engine = engine_with_calls(&rt, rt.alloc());
        end(&rt, rt.alloc(), &mut engine, how, error);
        drop(engine);
    }
}
