//! Monitors: what they are shown, by their own rules.

ghost use Rattle.std.specs.Prelude.{◌≡◌};

use match_rules::{Owners, Rule};
use monitor::Monitors;
use registry_core::ConnectionTable;
use seq_bus_core::{Conn, MonitorRules, Recipients};
use std::alloc::{AllocError, Global};
use std::process::Abort;
use test_support::{once_more, ticked};

/// A bus on which no name has an owner.
struct Nobody;

impl Owners for Nobody {
    ghost use Rattle.std.specs.Prelude.{None};

    ghost heads = { λ owners name. None };

    fn head(&self, name: &str) -> Option<u64> {
        None
    }
}

const FITS: &str = "interface='com.example.Clock'";

const FITS_NOT: &str = "member='Stopped'";

/// The rules of these texts, in order.
fn rules_of(rt: &impl Abort, alloc: Global, texts: &[&str]) -> Result<MonitorRules, AllocError> {
    let mut rules = MonitorRules::new(alloc);
    for text in texts {
        assert!(rt; rules.as_slice().len() < MonitorRules::MAX);
        rules.push(Rule::parse(text).ok().expect(rt, "a rule"))?;
    }
    Ok(rules)
}

fn conn(number: u64) -> Conn
    ensures { result.number ≡ number }
{
    Conn {
        number,
        slot: (number % 256) as u16,
        router: 1,
    }
}

/// Whether a tick of a clock is shown to these monitors, and to nobody else.
fn is_shown_to(monitors: &Monitors, numbers: &[u64]) -> bool {
    let mut shown = Recipients::new();
    monitors.shown(&ticked(), &Nobody, &mut shown);
    are_numbered(&shown, numbers)
}

fn are_numbered(shown: &Recipients, numbers: &[u64]) -> bool {
    shown
        .as_slice()
        .iter()
        .map(|conn| conn.number)
        .eq(numbers.iter().copied())
}

/// One more monitor, with the rules of these texts.
fn add(
    rt: &impl Abort,
    alloc: Global,
    monitors: &mut Monitors,
    number: u64,
    texts: &[&str],
) -> Result<(), AllocError> {
    let rules = rules_of(rt, alloc, texts)?;
    assert!(rt; monitors.has_room());
    monitors.add(conn(number), &rules);
    Ok(())
}

/// Three monitors: one whose second rule fits, one of all messages, and one with no rule that fits.
fn three(rt: &impl Abort, alloc: Global) -> Result<Monitors, AllocError> {
    let mut monitors = Monitors::new(alloc)?;
    add(rt, alloc, &mut monitors, 7, &[FITS_NOT, FITS])?;
    add(rt, alloc, &mut monitors, 3, &[])?;
    add(rt, alloc, &mut monitors, 5, &[FITS_NOT])?;
    Ok(monitors)
}

#[test]
fn own_rules_alone_are_looked_at(rt: HostRuntime) {
    let mut monitors = once_more!(&rt; three(&rt, rt.alloc()));
    assert!(rt; is_shown_to(&monitors, &[3, 7]));
    monitors.drop_owner(3);
    assert!(rt; is_shown_to(&monitors, &[7]));
    monitors.drop_owner(4);
    monitors.drop_owner(7);
    assert!(rt; is_shown_to(&monitors, &[]) && !monitors.is_empty());
}

#[test]
fn copies_have_their_rules(rt: HostRuntime) {
    let monitors = once_more!(&rt; three(&rt, rt.alloc()));
    let mut copy = once_more!(&rt; Monitors::new(rt.alloc()));
    for number in 1..=4 {
        once_more!(&rt; add(&rt, rt.alloc(), &mut copy, number, &[]));
    }
    copy.copy_from(&monitors);
    assert!(rt; is_shown_to(&copy, &[3, 7]));
    copy.drop_owner(5);
    assert!(rt; copy.as_slice().len() == 2 && monitors.as_slice().len() == 3);
}

/// A table with as many monitors as it takes, of which each has as many rules as it may. The last
/// fits.
fn full(rt: &impl Abort, alloc: Global) -> Result<Monitors, AllocError> {
    let mut texts = [FITS_NOT; MonitorRules::MAX];
    texts[MonitorRules::MAX - 1] = FITS;
    let rules = rules_of(rt, alloc, &texts)?;
    let mut monitors = Monitors::new(alloc)?;
    for number in 0..Monitors::MAX as u64 {
        assert!(rt; rules.is_full() && monitors.has_room());
        monitors.add(conn(number), &rules);
    }
    Ok(monitors)
}

#[test]
fn all_have_room_for_their_rules(rt: HostRuntime) {
    let monitors = once_more!(&rt; full(&rt, rt.alloc()));
    let mut shown = Recipients::new();
    monitors.shown(&ticked(), &Nobody, &mut shown);
    let have_all = monitors
        .as_slice()
        .iter()
        .all(|monitor| monitor.rules().len() == MonitorRules::MAX);
    assert!(rt; have_all && !monitors.has_room() && shown.as_slice().len() == Monitors::MAX);
}

/// Two connections, of which one proved to be its user's.
fn two(alloc: Global) -> Result<ConnectionTable, AllocError> {
    let mut table = ConnectionTable::new(alloc)?;
    table.join(conn(1), true);
    table.join(conn(2), false);
    Ok(table)
}

/// The first of two connections becomes a monitor, and leaves.
fn watch_and_leave(rt: &impl Abort, table: &mut ConnectionTable, rules: &MonitorRules) {
    assert!(rt; table.is_privileged(1) && !table.is_privileged(2) && !table.has_monitors());
    table.become_monitor(1, rules);
    assert!(rt; !table.is_client(1) && table.is_client(2) && table.conn(1) == Some(conn(1)));
    assert!(rt; table.is_taken(1) && table.has_monitors() && table.len() == 2);
    let mut shown = Recipients::new();
    table.shown(&ticked(), &Nobody, &mut shown);
    assert!(rt; are_numbered(&shown, &[1]));
    table.leave(1);
    assert!(rt; !table.has_monitors() && !table.is_taken(1) && table.conn(1).is_none());
}

#[test]
fn client_becomes_monitor(rt: HostRuntime) {
    let mut table = once_more!(&rt; two(rt.alloc()));
    let before = once_more!(&rt; two(rt.alloc()));
    let rules = once_more!(&rt; rules_of(&rt, rt.alloc(), &[]));
    watch_and_leave(&rt, &mut table, &rules);
    table.copy_from(&before);
    assert!(rt; table.is_client(1) && table.len() == 2);
    drop(table);
}
