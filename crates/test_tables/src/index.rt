//! The index of match rules.

ghost use Rattle.std.specs.Prelude.{◌≡◌, ◌<◌, Some, None, codes, if◌then◌else◌};
ghost use Rattle.names.specs.Texts.{text_eq};

use crate::listeners::Listeners;
use crate::tally::Tally;
use match_index::Steps;
use match_rules::{Argument, Facts, MessageKind, Owners};
use std::alloc::Global;
use std::marker::Brand;
use std::process::Abort;
use std::sync::ledger::{Blank, Ledger};
use test_support::{once_more, signal, ticked};

/// The owner of `com.example.A`; nobody owns another name.
#[derive(Clone, Copy)]
struct OwnedBy(u64);

impl Owners for OwnedBy {
    ghost heads = { λ owners name.
        if text_eq name (codes "com.example.A") then Some owners.0 else None };

    fn head(&self, name: &str) -> Option<u64> {
        if name == "com.example.A" {
            return Some(self.0);
        }
        None
    }
}

/// What is done to an index, or found of it. A rule stands as its text.
#[derive(Clone, Copy)]
enum Row {
    Adds(u64, &'static str),
    /// So many equal rules are added.
    AddsMany(u64, u32, &'static str),
    /// There is no room for a rule.
    HasNoRoom,
    Removes(u64, &'static str),
    /// There is no such rule to be removed.
    RemovesNone(u64, &'static str),
    Leaves(u64),
    /// There are so many rules.
    Len(usize),
    /// A connection has these rules, in this order.
    Has(u64, &'static [&'static str]),
    /// A connection has so many rules.
    Count(u64, usize),
    /// These hear a signal of an interface and a member.
    Hear(&'static str, &'static str, &'static [u64]),
    /// These hear a signal of the member M with arguments.
    HearOf(&'static [Argument<'static>], &'static [u64]),
}

fn new(rt: &impl Abort, alloc: Global) -> Listeners {
    once_more!(rt; Listeners::new(alloc))
}

/// A signal with these arguments.
fn about<'a>(arguments: &'a [Argument<'a>]) -> Facts<'a> {
    Facts {
        kind: MessageKind::Signal,
        auto_start: true,
        sender: 0,
        path: Some("/"),
        interface: Some("a.b"),
        member: Some("M"),
        destination: None,
        arguments,
    }
}

/// Whether a row is done, or is found so.
fn holds(listeners: &mut Listeners, row: Row) -> bool {
    match row {
        Row::Adds(connection, text) => listeners.add(connection, text),
        Row::AddsMany(connection, count, text) => adds_many(listeners, connection, count, text),
        Row::HasNoRoom => !listeners.add(1, ""),
        Row::Removes(connection, text) => listeners.remove(connection, text),
        Row::RemovesNone(connection, text) => !listeners.remove(connection, text),
        Row::Leaves(connection) => {
            listeners.drop_owner(connection);
            true
        }
        Row::Len(len) => listeners.len() == len,
        Row::Has(connection, rules) => listeners.has_rules(connection, rules),
        Row::Count(connection, count) => listeners.count_of(connection) == count,
        Row::Hear(interface, member, wanted) => {
            listeners.hear(&signal("/", interface, member), &OwnedBy(1), wanted)
        }
        Row::HearOf(arguments, wanted) => { listeners.hear(&about(arguments), &OwnedBy(1), wanted) }
    }
}

fn adds_many(listeners: &mut Listeners, connection: u64, count: u32, text: &str) -> bool {
    let mut all = true;
    for _ in 0..count {
        all = listeners.add(connection, text) && all;
    }
    all
}

/// Plays rows, each of which holds.
fn play(rt: &impl Abort, listeners: &mut Listeners, rows: &[Row]) {
    for row in rows {
        assert!(rt; holds(listeners, *row));
    }
}

/// Plays rows over an index without rules.
fn play_from_nothing(rt: &impl Abort, alloc: Global, rows: &[Row]) {
    let mut listeners = new(rt, alloc);
    play(rt, &mut listeners, rows);
    drop(listeners);
}

#[test]
fn full(rt: HostRuntime) {
    let mut listeners = new(&rt, rt.alloc());
    for connection in 1..17 {
        play(
            &rt,
            &mut listeners,
            &[Row::AddsMany(connection, 255, "member='M',arg0='a'")],
        );
    }
    play(
        &rt,
        &mut listeners,
        &[
            Row::AddsMany(17, 16, "member='N',interface='a.b'"),
            Row::Len(4096),
            Row::HasNoRoom,
            Row::Count(3, 255),
            Row::Hear("a.b", "N", &[17]),
            Row::Hear("a.c", "N", &[]),
            Row::Hear("a.c", "M", &[]),
            Row::Leaves(17),
            Row::Hear("a.b", "N", &[]),
            Row::Adds(1, "interface='a.b'"),
            Row::Hear("a.b", "N", &[1]),
        ],
    );
    drop(listeners);
}

/// Whether these connections hear the message of a tally, by no more tests of rules than it tells.
fn hears<L: Ledger>(blank: Blank, tally: &Tally<'_>, wanted: &[u64]) -> bool
    requires name { blank.name ≡ L.name }
    requires parts { (blank.parts ≡ L.parts) × (0 < L.parts) }
{
    let mut steps = Steps::<L>::new(blank);
    tally.hear(&OwnedBy(1), wanted, &mut steps)
}

/// 255 rules each of the connections 1 to 16, which want one member and each a first argument of
/// its own, and 16 rules of the connection 17, which want another member of an interface.
fn fill(rt: &impl Abort, alloc: Global, tally: &mut Tally<'_>) {
    for number in 0..4080 {
        let text = once_more!(rt; format!(in alloc; "member='M',arg0='{number}'"));
        assert!(rt; tally.add(1 + number / 255, &text));
    }
    for _ in 0..16 {
        assert!(rt; tally.add(17, "member='N',interface='a.b'"));
    }
}

/// Of 4,096 rules a signal of the member of the last connection is tested by 16 at most, and by
/// none where it has another interface.
#[test]
fn few_are_tested(rt: HostRuntime) {
    let alloc = rt.alloc();
    for (interface, most, wanted) in [("a.b", 16, &[17][..]), ("a.c", 0, &[])] {
        let mut tally = once_more!(&rt; Tally::new(alloc, signal("/", interface, "N")));
        fill(&rt, alloc, &mut tally);
        assert!(rt; tally.listeners().len() == 4096);
        assert!(rt; tally.most() == most);
        assert!(rt; hears::<Brand>(Blank::new(1), &tally, wanted));
        drop(tally);
    }
}

/// The keys that a rule is found by, and who of the connections 1 to 9 hears what.
const RULES: [(u64, &str); 9] = [
    (1, "eavesdrop='true'"),
    (2, "type='signal'"),
    (3, "type='method_call'"),
    (4, "interface='com.example.Clock'"),
    (5, "member='Ticked',type='signal'"),
    (6, "sender='com.example.A'"),
    (7, "sender=':1.8'"),
    (8, "sender='org.freedesktop.DBus'"),
    (
        9,
        "sender='com.example.A',member='Ticked',interface='com.example.Clock',type='signal'",
    ),
];

/// Who hears the signal of a clock: from which sender, with `com.example.A` of which owner, and of
/// which interface and member.
const HEARD: [(u64, u64, Option<&str>, Option<&str>, &[u64]); 5] = [
    (
        0,
        1,
        Some("com.example.Clock"),
        Some("Ticked"),
        &[1, 2, 4, 5, 8],
    ),
    (
        8,
        1,
        Some("com.example.Clock"),
        Some("Ticked"),
        &[1, 2, 4, 5, 7],
    ),
    (
        8,
        8,
        Some("com.example.Clock"),
        Some("Ticked"),
        &[1, 2, 4, 5, 6, 7, 9],
    ),
    (8, 8, Some("com.example.Clock"), None, &[1, 2, 4, 6, 7]),
    (8, 8, None, None, &[1, 2, 6, 7]),
];

#[test]
fn buckets(rt: HostRuntime) {
    let mut listeners = new(&rt, rt.alloc());
    for (connection, text) in RULES {
        assert!(rt; listeners.add(connection, text));
    }
    for (sender, owner, interface, member, wanted) in HEARD {
        let facts = Facts {
            sender,
            interface,
            member,
            ..ticked()
        };
        assert!(rt; listeners.hear(&facts, &OwnedBy(owner), wanted));
    }
    drop(listeners);
}

/// 250 rules each of the connections 1 to 16. All want one member, and each wants a first argument
/// of its own.
#[test]
fn first_arguments(rt: HostRuntime) {
    let alloc = rt.alloc();
    let mut listeners = new(&rt, alloc);
    for number in 0..4000 {
        let text = once_more!(&rt; format!(in alloc; "member='M',arg0='{number}'"));
        assert!(rt; listeners.add(1 + number / 250, &text));
    }
    play(
        &rt,
        &mut listeners,
        &[
            Row::HearOf(&[Argument::String("0")], &[1]),
            Row::HearOf(&[Argument::String("2749")], &[11]),
            Row::HearOf(&[Argument::String("2750")], &[12]),
            Row::HearOf(&[Argument::String("4000")], &[]),
            Row::HearOf(&[Argument::String("")], &[]),
            Row::HearOf(&[Argument::ObjectPath("0")], &[]),
            Row::HearOf(&[Argument::Other], &[]),
            Row::HearOf(&[], &[]),
            Row::Adds(17, "member='M'"),
            Row::HearOf(&[Argument::String("0")], &[1, 17]),
            Row::HearOf(&[Argument::Other], &[17]),
        ],
    );
    drop(listeners);
}

/// Three texts that differ only behind the 64th byte.
const LONG: [&str; 3] = [
    "0123456789abcdef0123456789abcdef0123456789abcdef0123456789abcdef",
    "0123456789abcdef0123456789abcdef0123456789abcdef0123456789abcdefa",
    "0123456789abcdef0123456789abcdef0123456789abcdef0123456789abcdefb",
];

#[test]
fn long_first_arguments(rt: HostRuntime) {
    let alloc = rt.alloc();
    let mut listeners = new(&rt, alloc);
    for (connection, long) in [(1, LONG[0]), (2, LONG[1]), (3, LONG[2])] {
        let text = once_more!(&rt; format!(in alloc; "arg0='{long}'"));
        assert!(rt; listeners.add(connection, &text));
    }
    play(
        &rt,
        &mut listeners,
        &[
            Row::HearOf(&[Argument::String(LONG[0])], &[1]),
            Row::HearOf(&[Argument::String(LONG[1])], &[2]),
            Row::HearOf(&[Argument::String(LONG[2])], &[3]),
            Row::HearOf(&[Argument::String("0123456789abcdef")], &[]),
        ],
    );
    drop(listeners);
}

/// Once a connection is found, its other rules change nothing, and those of others are still looked
/// at.
#[test]
fn many_of_one(rt: HostRuntime) {
    let mut listeners = new(&rt, rt.alloc());
    for _ in 0..255 {
        play(
            &rt,
            &mut listeners,
            &[
                Row::Adds(1, "member='M'"),
                Row::Adds(3, "member='M',arg0='a'"),
            ],
        );
    }
    play(
        &rt,
        &mut listeners,
        &[
            Row::Adds(2, "member='M'"),
            Row::HearOf(&[Argument::String("a")], &[1, 2, 3]),
            Row::HearOf(&[Argument::String("b")], &[1, 2]),
        ],
    );
    drop(listeners);
}

const A: &str = "member='A'";

const B: &str = "member='B'";

#[test]
fn equal_rules(rt: HostRuntime) {
    play_from_nothing(
        &rt,
        rt.alloc(),
        &[
            Row::Adds(1, A),
            Row::Adds(2, A),
            Row::Adds(1, B),
            Row::Adds(1, A),
            Row::Removes(1, A),
            Row::Has(1, &[B, A]),
            Row::Has(2, &[A]),
            Row::Removes(1, A),
            Row::RemovesNone(1, A),
            Row::Hear("a.b", "A", &[2]),
        ],
    );
}

/// So many rules are taken out that those that are left close ranks.
#[test]
fn sweeps(rt: HostRuntime) {
    let mut listeners = new(&rt, rt.alloc());
    for _ in 0..100 {
        play(
            &rt,
            &mut listeners,
            &[
                Row::Adds(1, A),
                Row::Adds(2, B),
                Row::Adds(3, A),
                Row::Removes(1, A),
            ],
        );
    }
    play(
        &rt,
        &mut listeners,
        &[
            Row::Leaves(3),
            Row::Len(100),
            Row::Hear("a.b", "A", &[]),
            Row::Hear("a.b", "B", &[2]),
            Row::Adds(4, A),
            Row::Hear("a.b", "A", &[4]),
        ],
    );
    drop(listeners);
}

#[test]
fn copies(rt: HostRuntime) {
    let mut listeners = new(&rt, rt.alloc());
    let mut copy = new(&rt, rt.alloc());
    play(
        &rt,
        &mut listeners,
        &[
            Row::Adds(1, A),
            Row::Adds(2, B),
            Row::Adds(1, B),
            Row::Adds(3, A),
            Row::Removes(1, A),
        ],
    );
    play(&rt, &mut copy, &[Row::Adds(9, A)]);
    copy.copy_from(&listeners);
    play(
        &rt,
        &mut copy,
        &[
            Row::Len(3),
            Row::Has(1, &[B]),
            Row::Hear("a.b", "A", &[3]),
            Row::Removes(3, A),
        ],
    );
    play(&rt, &mut listeners, &[Row::Hear("a.b", "A", &[3])]);
    drop(copy);
    drop(listeners);
}
