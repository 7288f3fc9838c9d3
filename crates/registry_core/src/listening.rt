//! Who listens to a message.

ghost use Rattle.std.specs.Prelude.{◌≡◌, ◌≤◌, ◌+◌, ◌&&◌, true, not, [], length, map, filter};
ghost use Rattle.std.specs.List.{AllByRecursion};
ghost use Rattle.match_index.specs.Sets.{is_in};
ghost use Rattle.match_index.specs.Near.{near_rules};
ghost use Rattle.registry_core.specs.Listening.{has_number, entry_wants, stays, Rising};

use crate::connection_entry::ConnectionEntry;
use match_index::{ConnSet, Index, Steps};
use match_rules::{Facts, Owners};
use seq_bus_core::Recipients;
use seq_bus_core::limits::MAX_CONNECTIONS;
use std::sync::ledger::Ledger;

/// Adds the connections, by rising number, that are no monitors and have added a rule that fits the
/// message. A connection that leaves is not among them.
pub fn add_those_that_want<O: Owners>(
    entries: &[ConnectionEntry],
    rules: &Index,
    facts: &Facts<'_>,
    owners: &O,
    leaver: Option<u64>,
    to: &mut Recipients,
)
    requires rising { Rising entries.now }
    requires few { length entries.now ≤ MAX_CONNECTIONS }
    requires owned { AllByRecursion (λ r. has_number entries.now r.connection ≡ true) rules.now }
    requires empty { to.old ≡ [] }
    ensures { to.new ≡ map (λ m. m.conn) (filter (λ m. stays leaver m.conn.number
        && entry_wants (O.heads owners.now) rules.now facts.now m) entries.now) }
{
    let mut found = ConnSet::new();
    rules.gather(facts, owners, &mut found);
    add_found(entries, &found, leaver, to);
}

/// The same where nobody leaves, and each rule that is tested is a step.
pub fn add_all_that_want<O: Owners, L: Ledger>(
    entries: &[ConnectionEntry],
    rules: &Index,
    facts: &Facts<'_>,
    owners: &O,
    to: &mut Recipients,
    steps: &mut Steps<L>,
)
    requires rising { Rising entries.now }
    requires few { length entries.now ≤ MAX_CONNECTIONS }
    requires owned { AllByRecursion (λ r. has_number entries.now r.connection ≡ true) rules.now }
    requires empty { to.old ≡ [] }
    ensures value { to.new ≡ map (λ m. m.conn)
        (filter (entry_wants (O.heads owners.now) rules.now facts.now) entries.now) }
    ensures cost { steps.new ≤ steps.old + near_rules facts.now rules.now }
{
    let mut found = ConnSet::new();
    rules.collect(facts, owners, &mut found, steps);
    add_found(entries, &found, None, to);
}

/// Adds the connections that are found, are no monitors and don't leave.
fn add_found(entries: &[ConnectionEntry], found: &ConnSet, leaver: Option<u64>, to: &mut Recipients)
    requires few { length entries.now ≤ MAX_CONNECTIONS }
    requires empty { to.old ≡ [] }
    ensures { to.new ≡ map (λ m. m.conn) (filter (λ m. stays leaver m.conn.number
        && (not m.is_monitor && is_in m.conn.number found.now)) entries.now) }
{
    for entry in entries {
        if is_recipient(entry, found, leaver) {
            to.push(entry.conn);
        }
    }
}

/// Whether a connection gets a message.
fn is_recipient(entry: &ConnectionEntry, found: &ConnSet, leaver: Option<u64>) -> bool
    ensures { result ≡ (stays leaver entry.now.conn.number
        && (not entry.now.is_monitor && is_in entry.now.conn.number found.now)) }
{
    leaver != Some(entry.conn.number) && !entry.is_monitor && found.contains(entry.conn.number)
}
