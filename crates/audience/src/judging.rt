//! Where messages go. (D-Bus Specification: "Message Bus Message Routing")

ghost use Rattle.std.specs.Prelude.{◌≡◌, ◌⊎◌, [], Some, is_some};
ghost use Rattle.seq_bus_core.specs.Recipients.{conn_at, destination_head, is_call, is_for_bus, is_signal, may_send, may_start, verdict, verdict_of};
ghost use Rattle.seq_bus_core.specs.declared.verdict.VerdictKind.TheVariants.{Absent};

use crate::audience::Audience;
use match_rules::{Facts, MessageKind, Owners};
use names::BUS_NAME;
use seq_bus_core::{Recipients, Verdict, VerdictKind};

/// Where a message goes, and which monitors are shown it, put where nothing was found yet. Rules
/// are looked at only where it goes to all that want it.
pub fn judge<A: Audience>(
    audience: &A,
    facts: &Facts<'_>,
    found: &mut Verdict,
    count: &mut A::Count,
)
    requires { found.old ≡ verdict Absent [] [] }
    ensures verdict { found.new ≡ verdict_of (A.state audience.now) facts.now }
    ensures spent { (count.new ≡ count.old) ⊎ A.spends audience.now facts.now count.old count.new }
{
    if !may_send(audience, facts.sender) {
        return;
    }
    audience.add_shown(facts, &mut found.monitors);
    if is_for_bus(facts) {
        found.kind = VerdictKind::Bus;
        return;
    }
    if let Some(head) = destination_head(audience, facts) {
        found.kind = VerdictKind::Plain;
        add_conn(audience, head, &mut found.to);
        return;
    }
    if may_start(audience, facts) {
        found.kind = VerdictKind::Start;
        return;
    }
    if has_destination(facts) {
        found.kind = VerdictKind::Nobody;
        return;
    }
    if !is_signal(facts.kind) {
        found.kind = VerdictKind::Nobody;
        return;
    }
    found.kind = VerdictKind::Plain;
    audience.add_wanting(facts, &mut found.to, count);
}

/// Adds the connection of a number, if it is there.
pub(crate) fn add_conn<A: Audience>(audience: &A, number: u64, to: &mut Recipients)
    requires { to.old ≡ [] }
    ensures { to.new ≡ conn_at (A.state audience.now) (Some number) }
{
    if let Some(conn) = audience.conn(number) {
        to.push(conn);
    }
}

/// Whether a message may come from here: from the bus, or from a connection that is no monitor.
fn may_send<A: Audience>(audience: &A, sender: u64) -> bool
    ensures { result ≡ may_send (A.state audience.now) sender }
{
    sender == 0 || audience.is_client(sender)
}

fn destination_head<A: Audience>(audience: &A, facts: &Facts<'_>) -> Option<u64>
    ensures { result ≡ destination_head (A.state audience.now) facts.now }
{
    match facts.destination {
        Some(name) => audience.head(name),
        None => None,
    }
}

/// Whether a message may start the service that it goes to.
fn may_start<A: Audience>(audience: &A, facts: &Facts<'_>) -> bool
    ensures { result ≡ may_start (A.state audience.now) facts.now }
{
    if !is_call(facts.kind) || !facts.auto_start {
        return false;
    }
    match facts.destination {
        Some(name) => audience.is_service(name),
        None => false,
    }
}

fn has_destination(facts: &Facts<'_>) -> bool
    ensures { result ≡ is_some facts.now.destination }
{
    match facts.destination {
        Some(_) => true,
        None => false,
    }
}

fn is_call(kind: MessageKind) -> bool
    ensures { result ≡ is_call kind }
{
    matches!(kind, MessageKind::MethodCall)
}

fn is_signal(kind: MessageKind) -> bool
    ensures { result ≡ is_signal kind }
{
    matches!(kind, MessageKind::Signal)
}

fn is_for_bus(facts: &Facts<'_>) -> bool
    ensures { result ≡ is_for_bus facts.now }
{
    match facts.destination {
        Some(name) => name == BUS_NAME,
        None => is_call(facts.kind),
    }
}
