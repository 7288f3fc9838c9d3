//! The registry that is measured: its connections, rules and names, and messages that are routed by
//! it.

use match_rules::{Argument, Facts, MessageKind, Rule};
use names::BusName;
use owner_queues::RequestFlags;
use seq_bus_core::Change;

/// How many routers the bus has: as many as can be.
pub const ROUTERS: u8 = 8;

/// How many connections it has.
pub const CONNECTIONS: u64 = 16;

/// The name of its service.
pub const SERVICE: &str = "com.example.Service";

/// How many changes are made at once.
pub const BATCH: usize = 64;

/// How many calls wait for the service.
pub const TICKETS: usize = 100;

/// A rule that the signal does not fit, of another bucket: it asks for another member.
pub const OTHER_RULE: &str =
    "type='signal',interface='org.freedesktop.login1.Manager',member='SessionRemoved'";

/// A rule that the signal fits, and so of its bucket.
pub const OWN_RULE: &str =
    "type='signal',interface='org.freedesktop.login1.Manager',member='SessionNew'";

/// AddMatch, or RemoveMatch.
pub fn rule_change(connection: u64, rule: &Rule, is_added: bool) -> Change {
    let rule = *rule;
    if is_added {
        Change::AddMatch { connection, rule }
    } else {
        Change::RemoveMatch { connection, rule }
    }
}

/// RequestName.
pub fn request(connection: u64, name: BusName) -> Change {
    Change::Request {
        connection,
        name,
        flags: RequestFlags::from_bits(0),
    }
}

/// ReleaseName.
pub fn release(connection: u64, name: BusName) -> Change {
    Change::Release { connection, name }
}

fn message(kind: MessageKind, destination: Option<&'static str>) -> Facts<'static> {
    Facts {
        kind,
        auto_start: true,
        sender: 0,
        path: Some("/org/freedesktop/login1"),
        interface: Some("org.freedesktop.login1.Manager"),
        member: Some("SessionNew"),
        destination,
        arguments: &[Argument::String("com.example.N7")],
    }
}

/// A signal to everybody, with a name as its first argument.
pub fn signal() -> Facts<'static> {
    message(MessageKind::Signal, None)
}

/// A call to connection 16.
pub fn call() -> Facts<'static> {
    message(MessageKind::MethodCall, Some(":1.16"))
}
