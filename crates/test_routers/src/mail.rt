//! What comes from the clients of one router to those of another.

use crate::playing::{expect_told, play};
use crate::scenario::{ClientMessage, Condition, Scenario, Step, Tracing};
use std::alloc::{AllocError, Global};
use std::test::Fail;
use test_support::messages::{ACQUIRED, WELCOME};

/// Room for whatever comes.
const ROOM: usize = 1_000_000;

/// Room for what the first client of a bus is told at its Hello.
const WELCOME_ROOM: usize = WELCOME.len() + ACQUIRED.len();

/// A client that does not read leaves while mail waits for it, and another takes its place.
const NEWCOMER: Scenario = Scenario {
    rooms: &[WELCOME_ROOM, ROOM, ROOM],
    steps: &[
        &[
            Step::Connects(0),
            Step::Sends(0, ClientMessage::Hello),
            Step::Awaits(Condition::Received(1, 3)),
            Step::HangsUp(0),
            Step::Awaits(Condition::Over(1)),
            Step::Connects(2),
            Step::Sends(2, ClientMessage::Hello),
            Step::Awaits(Condition::Received(2, 3)),
            Step::Ends,
        ],
        &[
            Step::Awaits(Condition::Received(0, 2)),
            Step::Connects(1),
            Step::Sends(1, ClientMessage::Hello),
            Step::Sends(1, ClientMessage::Ticks(Some(":1.1"), 1)),
            Step::Awaits(Condition::IsBlocked(0)),
            Step::Sends(1, ClientMessage::Ticks(Some(":1.1"), 1)),
            Step::Sends(1, ClientMessage::GetNameOwner(":1.1")),
            Step::Awaits(Condition::Received(2, 2)),
            Step::Sends(1, ClientMessage::Ticks(Some(":1.3"), 1)),
            Step::Awaits(Condition::Received(2, 3)),
            Step::Ends,
        ],
    ],
    stops: &[],
    holds: false,
    tracing: Tracing::Off,
};

const NEWCOMER_TOLD: &str = "client 0
1 reply 1 :1.1
2 org.freedesktop.DBus NameAcquired :1.1
client 1
1 reply 1 :1.2
2 org.freedesktop.DBus NameAcquired :1.2
3 reply 4 :1.1
client 2
1 reply 1 :1.3
2 org.freedesktop.DBus NameAcquired :1.3
5 :1.2 Ticked
over: end of input
";

/// A call goes to a name that a client of the other router has just become the owner of.
const OWNER: Scenario = Scenario {
    rooms: &[ROOM, ROOM],
    steps: &[
        &[
            Step::Connects(0),
            Step::Sends(0, ClientMessage::Hello),
            Step::Awaits(Condition::Received(1, 3)),
            Step::Sends(0, ClientMessage::RequestName("com.example.A")),
            Step::Awaits(Condition::Received(0, 5)),
            Step::Ends,
        ],
        &[
            Step::Awaits(Condition::Received(0, 2)),
            Step::Connects(1),
            Step::Sends(1, ClientMessage::Hello),
            Step::Sends(1, ClientMessage::AddMatch("member='NameOwnerChanged'")),
            Step::Awaits(Condition::Received(1, 4)),
            Step::Sends(1, ClientMessage::Wind("com.example.A")),
            Step::Awaits(Condition::Received(0, 5)),
            Step::Ends,
        ],
    ],
    stops: &[],
    holds: false,
    tracing: Tracing::Off,
};

const OWNER_TOLD: &str = "client 0
1 reply 1 :1.1
2 org.freedesktop.DBus NameAcquired :1.1
3 org.freedesktop.DBus NameAcquired com.example.A
4 reply 2
3 :1.2 Wind
client 1
1 reply 1 :1.2
2 org.freedesktop.DBus NameAcquired :1.2
3 reply 2
4 org.freedesktop.DBus NameOwnerChanged com.example.A  :1.1
";

/// 256 envelopes wait for a client that does not read. The next is one too many: the client is put
/// out, and others are told.
const SLOW: Scenario = Scenario {
    rooms: &[WELCOME_ROOM, ROOM, ROOM],
    steps: &[
        &[
            Step::Connects(0),
            Step::Sends(0, ClientMessage::Hello),
            Step::Awaits(Condition::Received(1, 3)),
            Step::Connects(2),
            Step::Sends(2, ClientMessage::Hello),
            Step::Sends(2, ClientMessage::AddMatch("arg0=':1.1'")),
            Step::Awaits(Condition::Received(2, 5)),
            Step::Awaits(Condition::Over(1)),
            Step::Ends,
        ],
        &[
            Step::Awaits(Condition::Received(0, 2)),
            Step::Connects(1),
            Step::Sends(1, ClientMessage::Hello),
            Step::Sends(1, ClientMessage::AddMatch("arg0=':1.1'")),
            Step::Awaits(Condition::Received(2, 3)),
            Step::Sends(1, ClientMessage::Ticks(Some(":1.1"), 1)),
            Step::Awaits(Condition::IsBlocked(0)),
            Step::Sends(1, ClientMessage::Ticks(Some(":1.1"), 256)),
            Step::Sends(1, ClientMessage::GetNameOwner(":1.1")),
            Step::Awaits(Condition::Received(1, 4)),
            Step::Sends(1, ClientMessage::Ticks(Some(":1.1"), 1)),
            Step::Awaits(Condition::Received(1, 5)),
            Step::Sends(1, ClientMessage::Ticks(Some(":1.3"), 1)),
            Step::Awaits(Condition::Received(2, 5)),
            Step::Ends,
        ],
    ],
    stops: &[],
    holds: false,
    tracing: Tracing::Off,
};

const SLOW_TOLD: &str = "client 0
1 reply 1 :1.1
2 org.freedesktop.DBus NameAcquired :1.1
client 1
1 reply 1 :1.2
2 org.freedesktop.DBus NameAcquired :1.2
3 reply 2
4 reply 260 :1.1
5 org.freedesktop.DBus NameOwnerChanged :1.1 :1.1 
client 2
1 reply 1 :1.3
2 org.freedesktop.DBus NameAcquired :1.3
3 reply 2
4 org.freedesktop.DBus NameOwnerChanged :1.1 :1.1 
262 :1.2 Ticked
over: closed: 66
";

#[test]
fn mail_goes_to_whom_it_is_for(rt: HostRuntime) -> Result<(), Fail> {
    for (scenario, expected) in [
        (NEWCOMER, NEWCOMER_TOLD),
        (OWNER, OWNER_TOLD),
        (SLOW, SLOW_TOLD),
    ] {
        expect_told(&rt, rt.alloc(), &scenario, expected)?;
    }
    Ok(())
}

const HEARS: ClientMessage = ClientMessage::AddMatch("interface='com.example.Clock'");

/// Three clients of one router listen to a client of the other.
const LISTENING: Scenario = Scenario {
    rooms: &[ROOM, ROOM, ROOM, ROOM],
    steps: &[
        &[
            Step::Awaits(Condition::Received(3, 3)),
            Step::Connects(0),
            Step::Sends(0, ClientMessage::Hello),
            Step::Sends(0, ClientMessage::Ticks(None, 100)),
            Step::Awaits(Condition::Received(1, 103)),
            Step::Awaits(Condition::Received(2, 103)),
            Step::Awaits(Condition::Received(3, 103)),
            Step::Ends,
        ],
        &[
            Step::Connects(1),
            Step::Sends(1, ClientMessage::Hello),
            Step::Sends(1, HEARS),
            Step::Awaits(Condition::Received(1, 3)),
            Step::Connects(2),
            Step::Sends(2, ClientMessage::Hello),
            Step::Sends(2, HEARS),
            Step::Awaits(Condition::Received(2, 3)),
            Step::Connects(3),
            Step::Sends(3, ClientMessage::Hello),
            Step::Sends(3, HEARS),
            Step::Awaits(Condition::Received(1, 103)),
            Step::Awaits(Condition::Received(2, 103)),
            Step::Awaits(Condition::Received(3, 103)),
            Step::Ends,
        ],
    ],
    stops: &[],
    holds: false,
    tracing: Tracing::Off,
};

/// Adds what a client is told that says Hello and has this number then.
fn add_welcome(lines: &mut String, client: u32, number: u32) -> Result<(), AllocError> {
    writeln!(lines, "client {client}")?;
    writeln!(lines, "1 reply 1 :1.{number}")?;
    writeln!(lines, "2 org.freedesktop.DBus NameAcquired :1.{number}")
}

/// Adds the lines of signals of the client of this number, whose serials follow one another.
fn add_ticks(lines: &mut String, sender: u32, first: u32, count: u32) -> Result<(), AllocError> {
    for place in 0..count {
        writeln!(lines, "{} :1.{sender} Ticked", first.saturating_add(place))?;
    }
    Ok(())
}

/// What is told of those that listen, and of whom they hear.
fn add_listening(lines: &mut String) -> Result<(), AllocError> {
    add_welcome(lines, 0, 4)?;
    for listener in 1..=3 {
        add_welcome(lines, listener, listener)?;
        writeln!(lines, "3 reply 2")?;
        add_ticks(lines, 4, 2, 100)?;
    }
    Ok(())
}

#[test]
fn signals_come_to_all_in_order(rt: HostRuntime) -> Result<(), Fail> {
    let mut expected = String::new(rt.alloc());
    add_listening(&mut expected)?;
    expect_told(&rt, rt.alloc(), &LISTENING, expected.as_str())
}

/// Six clients send as much at once as is served of them in one turn, to one that reads.
const BURST: Scenario = Scenario {
    rooms: &[ROOM, ROOM, ROOM, ROOM, ROOM, ROOM, ROOM],
    steps: &[&[
        Step::Connects(0),
        Step::Sends(0, ClientMessage::Hello),
        Step::Awaits(Condition::Received(0, 2)),
        Step::Connects(1),
        Step::Connects(2),
        Step::Connects(3),
        Step::Connects(4),
        Step::Connects(5),
        Step::Connects(6),
        Step::Sends(1, ClientMessage::Hello),
        Step::Sends(2, ClientMessage::Hello),
        Step::Sends(3, ClientMessage::Hello),
        Step::Sends(4, ClientMessage::Hello),
        Step::Sends(5, ClientMessage::Hello),
        Step::Sends(6, ClientMessage::Hello),
        Step::Awaits(Condition::Received(6, 2)),
        Step::Sends(1, ClientMessage::Ticks(Some(":1.1"), 64)),
        Step::Sends(2, ClientMessage::Ticks(Some(":1.1"), 64)),
        Step::Sends(3, ClientMessage::Ticks(Some(":1.1"), 64)),
        Step::Sends(4, ClientMessage::Ticks(Some(":1.1"), 64)),
        Step::Sends(5, ClientMessage::Ticks(Some(":1.1"), 64)),
        Step::Sends(6, ClientMessage::Ticks(Some(":1.1"), 64)),
        Step::Awaits(Condition::Received(0, 386)),
        Step::Ends,
    ]],
    stops: &[],
    holds: false,
    tracing: Tracing::Off,
};

/// What is told of one that reads, and of those that it hears.
fn add_burst(lines: &mut String) -> Result<(), AllocError> {
    add_welcome(lines, 0, 1)?;
    for sender in 2..=7 {
        add_ticks(lines, sender, 2, 64)?;
    }
    for client in 1..=6 {
        add_welcome(lines, client, client + 1)?;
    }
    Ok(())
}

#[test]
fn who_reads_all_is_not_put_out(rt: HostRuntime) -> Result<(), Fail> {
    let mut expected = String::new(rt.alloc());
    add_burst(&mut expected)?;
    expect_told(&rt, rt.alloc(), &BURST, expected.as_str())
}

/// A client is sent more at once, by another router, than its outbox has room for.
const FAR_BURST: Scenario = Scenario {
    rooms: &[ROOM, ROOM],
    steps: &[
        &[
            Step::Connects(0),
            Step::Sends(0, ClientMessage::Hello),
            Step::Awaits(Condition::Received(0, 1002)),
            Step::Ends,
        ],
        &[
            Step::Awaits(Condition::Received(0, 2)),
            Step::Connects(1),
            Step::Sends(1, ClientMessage::Hello),
            Step::Sends(1, ClientMessage::Ticks(Some(":1.1"), 1000)),
            Step::Awaits(Condition::Received(0, 1002)),
            Step::Ends,
        ],
    ],
    stops: &[],
    holds: false,
    tracing: Tracing::Off,
};

#[test]
fn who_reads_all_is_not_put_out_by_another_router(rt: HostRuntime) -> Result<(), Fail> {
    let mut expected = String::new(rt.alloc());
    add_welcome(&mut expected, 0, 1)?;
    add_ticks(&mut expected, 2, 2, 1000)?;
    add_welcome(&mut expected, 1, 2)?;
    expect_told(&rt, rt.alloc(), &FAR_BURST, expected.as_str())
}

/// What five clients of the first router send to the second reader, each.
const TO_SECOND: ClientMessage = ClientMessage::Ticks(Some(":1.2"), 200);

/// What five clients of the second router send to the first reader, each.
const TO_FIRST: ClientMessage = ClientMessage::Ticks(Some(":1.1"), 200);

/// Five clients of each of two routers send more at once, to one of the other router that reads,
/// than its outbox has room for.
const CROSSING: Scenario = Scenario {
    rooms: &[ROOM; 12],
    steps: &[
        &[
            Step::Connects(0),
            Step::Sends(0, ClientMessage::Hello),
            Step::Awaits(Condition::Received(1, 2)),
            Step::Connects(2),
            Step::Connects(3),
            Step::Connects(4),
            Step::Connects(5),
            Step::Connects(6),
            Step::Sends(2, ClientMessage::Hello),
            Step::Sends(3, ClientMessage::Hello),
            Step::Sends(4, ClientMessage::Hello),
            Step::Sends(5, ClientMessage::Hello),
            Step::Sends(6, ClientMessage::Hello),
            Step::Awaits(Condition::Received(11, 2)),
            Step::Sends(2, TO_SECOND),
            Step::Sends(3, TO_SECOND),
            Step::Sends(4, TO_SECOND),
            Step::Sends(5, TO_SECOND),
            Step::Sends(6, TO_SECOND),
            Step::Awaits(Condition::Received(0, 1002)),
            Step::Awaits(Condition::Received(1, 1002)),
            Step::Ends,
        ],
        &[
            Step::Awaits(Condition::Received(0, 2)),
            Step::Connects(1),
            Step::Sends(1, ClientMessage::Hello),
            Step::Awaits(Condition::Received(6, 2)),
            Step::Connects(7),
            Step::Connects(8),
            Step::Connects(9),
            Step::Connects(10),
            Step::Connects(11),
            Step::Sends(7, ClientMessage::Hello),
            Step::Sends(8, ClientMessage::Hello),
            Step::Sends(9, ClientMessage::Hello),
            Step::Sends(10, ClientMessage::Hello),
            Step::Sends(11, ClientMessage::Hello),
            Step::Awaits(Condition::Received(11, 2)),
            Step::Sends(7, TO_FIRST),
            Step::Sends(8, TO_FIRST),
            Step::Sends(9, TO_FIRST),
            Step::Sends(10, TO_FIRST),
            Step::Sends(11, TO_FIRST),
            Step::Awaits(Condition::Received(0, 1002)),
            Step::Awaits(Condition::Received(1, 1002)),
            Step::Ends,
        ],
    ],
    stops: &[],
    holds: false,
    tracing: Tracing::Off,
};

/// Adds the lines that tell what came of the client of this number.
fn keep_ticks(
    alloc: Global,
    told: &str,
    sender: u32,
    ticks: &mut String,
) -> Result<(), AllocError> {
    let end = format!(in alloc; " :1.{sender} Ticked")?;
    for line in told.lines() {
        if line.ends_with(end.as_str()) {
            writeln!(ticks, "{line}")?;
        }
    }
    Ok(())
}

#[test]
fn who_reads_all_is_not_put_out_where_routers_flood_each_other(
    rt: HostRuntime,
) -> Result<(), Fail> {
    let alloc = rt.alloc();
    let told = play(&rt, alloc, &CROSSING)?.told;
    let mut ticks = String::new(alloc);
    let mut expected = String::new(alloc);
    for sender in 3..=12 {
        keep_ticks(alloc, told.as_str(), sender, &mut ticks)?;
        add_ticks(&mut expected, sender, 2, 200)?;
    }
    assert_eq!(rt; ticks.as_str(), expected.as_str());
    Ok(())
}

/// A monitor is to be shown a call that its router's neighbour has routed and is held before it
/// serves. Meanwhile the monitor leaves, and another client has its place.
const LATE_COPY: Scenario = Scenario {
    rooms: &[ROOM, ROOM, ROOM],
    steps: &[
        &[
            Step::Connects(0),
            Step::Sends(0, ClientMessage::Hello),
            Step::Awaits(Condition::Received(1, 5)),
            Step::Sends(0, ClientMessage::ListNames),
            Step::Awaits(Condition::Received(0, 3)),
            Step::Awaits(Condition::Received(2, 3)),
            Step::Ends,
        ],
        &[
            Step::Awaits(Condition::Received(0, 2)),
            Step::Connects(1),
            Step::Sends(1, ClientMessage::Hello),
            Step::Sends(1, ClientMessage::BecomeMonitor),
            Step::Awaits(Condition::IsHeld),
            Step::HangsUp(1),
            Step::Awaits(Condition::Over(1)),
            Step::Connects(2),
            Step::Sends(2, ClientMessage::Hello),
            Step::Awaits(Condition::Received(0, 3)),
            Step::Sends(2, ClientMessage::GetNameOwner(":1.1")),
            Step::Awaits(Condition::Received(2, 3)),
            Step::Ends,
        ],
    ],
    stops: &[],
    holds: true,
    tracing: Tracing::Off,
};

const LATE_COPY_TOLD: &str = "1 reply 1 :1.3
2 org.freedesktop.DBus NameAcquired :1.3
3 reply 2 :1.1
over: end of input
";

#[test]
fn a_newcomer_gets_no_copy_for_the_monitor_before_it(rt: HostRuntime) -> Result<(), Fail> {
    let told = play(&rt, rt.alloc(), &LATE_COPY)?.told;
    let Some((_others, newcomer)) = told.as_str().split_once("client 2\n") else {
        return Err(Fail::from("no newcomer"));
    };
    assert_eq!(rt; newcomer, LATE_COPY_TOLD);
    Ok(())
}

/// 256 envelopes wait for a client that does not read, until it does.
const RESUMED: Scenario = Scenario {
    rooms: &[WELCOME_ROOM, ROOM],
    steps: &[
        &[
            Step::Connects(0),
            Step::Sends(0, ClientMessage::Hello),
            Step::Awaits(Condition::Received(1, 3)),
            Step::TakesAll(0),
            Step::Awaits(Condition::Received(0, 259)),
            Step::Ends,
        ],
        &[
            Step::Awaits(Condition::Received(0, 2)),
            Step::Connects(1),
            Step::Sends(1, ClientMessage::Hello),
            Step::Sends(1, ClientMessage::Ticks(Some(":1.1"), 1)),
            Step::Awaits(Condition::IsBlocked(0)),
            Step::Sends(1, ClientMessage::Ticks(Some(":1.1"), 256)),
            Step::Sends(1, ClientMessage::GetNameOwner(":1.1")),
            Step::Awaits(Condition::Received(0, 259)),
            Step::Ends,
        ],
    ],
    stops: &[],
    holds: false,
    tracing: Tracing::Off,
};

#[test]
fn who_reads_again_gets_all(rt: HostRuntime) -> Result<(), Fail> {
    let mut expected = String::new(rt.alloc());
    add_welcome(&mut expected, 0, 1)?;
    add_ticks(&mut expected, 2, 2, 257)?;
    add_welcome(&mut expected, 1, 2)?;
    writeln!(expected, "3 reply 259 :1.1")?;
    expect_told(&rt, rt.alloc(), &RESUMED, expected.as_str())
}
