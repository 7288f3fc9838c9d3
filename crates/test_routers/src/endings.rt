//! How a bus ends.

use crate::playing::expect_told;
use crate::scenario::{ClientMessage, Condition, Scenario, Step, Tracing};
use routers::Fault;
use std::test::Fail;

/// The first router fails, and then, as it is to end, the second one too.
const FAILING: Scenario = Scenario {
    rooms: &[1_000_000],
    steps: &[
        &[
            Step::Connects(0),
            Step::Sends(0, ClientMessage::Hello),
            Step::Awaits(Condition::Received(0, 2)),
            Step::Fails(Fault::Memory),
        ],
        &[Step::Awaits(Condition::IsWoken), Step::Fails(Fault::Random)],
    ],
    stops: &[Condition::Received(0, 3)],
    holds: false,
    tracing: Tracing::Off,
};

/// The main thread stops both routers.
const STOPPED: Scenario = Scenario {
    rooms: &[1_000_000],
    steps: &[
        &[],
        &[Step::Connects(0), Step::Sends(0, ClientMessage::Hello)],
    ],
    stops: &[Condition::Received(0, 2)],
    holds: false,
    tracing: Tracing::Off,
};

/// A connection that can't be served is told of, and the next is served.
const REFUSED: Scenario = Scenario {
    rooms: &[1_000_000],
    steps: &[&[
        Step::IsAsked(0),
        Step::Connects(0),
        Step::Sends(0, ClientMessage::Hello),
        Step::Awaits(Condition::Received(0, 2)),
        Step::Ends,
    ]],
    stops: &[],
    holds: false,
    tracing: Tracing::Off,
};

/// A client says nothing, while another has a name.
const SILENT: Scenario = Scenario {
    rooms: &[1_000_000, 1_000_000],
    steps: &[&[
        Step::Connects(0),
        Step::Connects(1),
        Step::Sends(1, ClientMessage::Hello),
        Step::Awaits(Condition::Received(1, 2)),
        Step::LoginTimePasses,
        Step::LoginTimePasses,
        Step::Awaits(Condition::Over(1)),
        Step::Rests,
        Step::Sends(1, ClientMessage::GetNameOwner(":1.1")),
        Step::Awaits(Condition::Received(1, 3)),
        Step::Ends,
    ]],
    stops: &[],
    holds: false,
    tracing: Tracing::Off,
};

const SILENT_TOLD: &str = "client 0
client 1
1 reply 1 :1.1
2 org.freedesktop.DBus NameAcquired :1.1
3 reply 2 :1.1
over: no name in time
";

const STOPPED_TOLD: &str = "client 0
1 reply 1 :1.1
2 org.freedesktop.DBus NameAcquired :1.1
";

const FAILING_TOLD: &str = "client 0
1 reply 1 :1.1
2 org.freedesktop.DBus NameAcquired :1.1
fault: memory
";

const REFUSED_TOLD: &str = "client 0
1 reply 1 :1.1
2 org.freedesktop.DBus NameAcquired :1.1
refused: nobody may log in
";

#[test]
fn the_first_fault_ends_all(rt: HostRuntime) -> Result<(), Fail> {
    expect_told(&rt, rt.alloc(), &FAILING, FAILING_TOLD)
}

#[test]
fn a_bus_is_stopped(rt: HostRuntime) -> Result<(), Fail> {
    expect_told(&rt, rt.alloc(), &STOPPED, STOPPED_TOLD)
}

#[test]
fn who_has_no_name_in_time_is_over(rt: HostRuntime) -> Result<(), Fail> {
    expect_told(&rt, rt.alloc(), &SILENT, SILENT_TOLD)
}

#[test]
fn a_connection_is_refused(rt: HostRuntime) -> Result<(), Fail> {
    expect_told(&rt, rt.alloc(), &REFUSED, REFUSED_TOLD)
}
