//! Batches of changes on a plain bus.

use crate::plain::open;
use bus_view::{BatchCause, Cause};
use match_rules::Rule;
use names::{BusName, WellKnown};
use owner_queues::RequestFlags;
use seq_bus::SeqBus;
use seq_bus_core::{CallHead, Change, Conn, Entry, Outcome, Reply, SharedBytes};
use std::alloc::{AllocError, Global};
use std::process::Abort;
use std::sync::Arc;
use test_support::once_more;

/// A change. A connection stands as its number, and a rule as its text.
#[derive(Clone, Copy)]
enum Deed {
    Hello,
    Leave(u64),
    Add(u64, &'static str),
    Remove(u64, &'static str),
}

/// The change that is meant; none where a text is no rule.
fn change_of(deed: Deed) -> Option<Change> {
    Some(match deed {
        Deed::Hello => Change::Hello { privileged: false },
        Deed::Leave(connection) => Change::Leave { connection },
        Deed::Add(connection, rule) => Change::AddMatch {
            connection,
            rule: Rule::parse(rule).ok()?,
        },
        Deed::Remove(connection, rule) => Change::RemoveMatch {
            connection,
            rule: Rule::parse(rule).ok()?,
        },
    })
}

/// The changes that are meant.
fn batch_of(alloc: Global, deeds: &[Deed]) -> Result<Vec<Change>, AllocError> {
    let mut changes = Vec::with_capacity(alloc, deeds.len())?;
    for deed in deeds {
        if let Some(change) = change_of(*deed) {
            changes.push(change)?;
        }
    }
    Ok(changes)
}

/// What the changes of a batch are told. A batch that is refused is made once more; till then the
/// bus is as it was.
fn told_all(bus: &mut SeqBus, changes: Vec<Change>) -> Option<Vec<Outcome>> {
    let length = bus.history().len();
    let count = changes.len();
    match bus.change_all(changes) {
        Ok(outcomes) => Some(outcomes),
        Err(refused) => {
            if refused.cause != BatchCause::Refused(Cause::NoMemory)
                || refused.changes.len() != count
                || bus.history().len() != length
            {
                return None;
            }
            bus.change_all(refused.changes).ok()
        }
    }
}

/// A batch: what is done, what it is told, and how many follow each of its entries in the history.
type Batch = (&'static [Deed], &'static [Reply], &'static [u8]);

const A: &str = "arg0='a'";

const B: &str = "arg0='b'";

const C: &str = "arg0='c'";

const FIRST: Conn = Conn {
    number: 1,
    slot: 0,
    router: 1,
};

/// Made one after the other on one bus. After the second, the rules a and c are left.
const BATCHES: [Batch; 3] = [
    (&[Deed::Hello], &[Reply::Welcome(FIRST)], &[0]),
    (
        &[
            Deed::Add(1, A),
            Deed::Add(1, B),
            Deed::Add(1, C),
            Deed::Remove(1, B),
        ],
        &[Reply::Done, Reply::Done, Reply::Done, Reply::Done],
        &[3, 2, 1, 0],
    ),
    (
        &[
            Deed::Remove(1, B),
            Deed::Remove(1, A),
            Deed::Remove(1, C),
            Deed::Remove(1, C),
            Deed::Leave(1),
        ],
        &[
            Reply::RuleNotFound,
            Reply::Done,
            Reply::Done,
            Reply::RuleNotFound,
            Reply::Done,
        ],
        &[4, 3, 2, 1, 0],
    ),
];

fn has_replies(outcomes: &[Outcome], replies: &[Reply]) -> bool {
    outcomes.len() == replies.len()
        && outcomes
            .iter()
            .zip(replies)
            .all(|(outcome, reply)| outcome.reply == *reply)
}

/// Whether entries are numbered on from this one, and so many of their batch follow each.
fn stand(entries: &[Entry], first: u64, left: &[u8]) -> bool {
    entries.len() == left.len()
        && entries
            .iter()
            .zip(left)
            .all(|(entry, left)| entry.left == *left)
        && entries
            .iter()
            .zip(first..)
            .all(|(entry, number)| entry.number == number)
}

#[test]
fn batches_stand_together_in_the_history(rt: HostRuntime) {
    let mut bus = open(&rt, rt.alloc(), &[], 1);
    for (deeds, replies, left) in BATCHES {
        let before = bus.history().len();
        let changes = once_more!(&rt; batch_of(rt.alloc(), deeds));
        let outcomes = told_all(&mut bus, changes).expect(&rt, "one allocation fails");
        let added = bus.history().get(before..).expect(&rt, "it grows");
        let is_right = has_replies(&outcomes, replies) && stand(added, before as u64 + 1, left);
        assert!(rt; is_right, "from {before} on");
    }
    drop(bus);
}

pub fn hellos(alloc: Global, count: usize) -> Result<Vec<Change>, AllocError> {
    let mut changes = Vec::with_capacity(alloc, count)?;
    for _place in 0..count {
        changes.push(Change::Hello { privileged: false })?;
    }
    Ok(changes)
}

#[test]
fn batches_have_1_to_64_changes(rt: HostRuntime) {
    let mut bus = open(&rt, rt.alloc(), &[], 1);
    for count in [0usize, 65] {
        let changes = once_more!(&rt; hellos(rt.alloc(), count));
        let refused = bus.change_all(changes).err().expect(&rt, "no batch");
        let is_whole = refused.changes.len() == count
            && refused
                .changes
                .iter()
                .all(|change| matches!(change, Change::Hello { .. }));
        let is_refused = refused.cause.code() == 67 && is_whole && bus.history().is_empty();
        assert!(rt; is_refused, "{count} changes");
    }
    drop(bus);
}

/// A router of eight has 32 slots, so of 63 that say Hello 32 come. The others are told of the
/// limit, and then the first adds a rule.
fn is_told_of_limits(place: u16, reply: Reply) -> bool {
    match place {
        0..32 => {
            reply
                == Reply::Welcome(Conn {
                    number: u64::from(place) + 1,
                    slot: place,
                    router: 1,
                })
        }
        32..63 => reply == Reply::LimitsExceeded,
        _ => reply == Reply::Done,
    }
}

#[test]
fn batch_of_64_is_made_whole_beyond_a_limit(rt: HostRuntime) {
    let mut bus = open(&rt, rt.alloc(), &[], 8);
    let mut changes = once_more!(&rt; hellos(rt.alloc(), 63));
    let mut rules = once_more!(&rt; batch_of(rt.alloc(), &[Deed::Add(1, A)]));
    if changes.append(&mut rules).is_err() {
        changes
            .append(&mut rules)
            .expect(&rt, "one allocation fails");
    }
    let outcomes = told_all(&mut bus, changes).expect(&rt, "one allocation fails");
    let are_told = outcomes
        .iter()
        .zip(0..)
        .all(|(outcome, place)| is_told_of_limits(place, outcome.reply));
    let are_made = outcomes.len() == 64 && bus.history().len() == 64;
    assert!(rt; are_told && are_made && bus.present(32) && !bus.present(33));
    drop(bus);
}

const CLOCK: &str = "com.example.Clock";

const LAMP: &str = "com.example.Lamp";

/// A call of the first connection that waits for a service.
fn hold(alloc: Global, name: BusName, bytes: &[u8]) -> Result<Change, AllocError> {
    Ok(Change::Hold {
        connection: 1,
        name,
        call: CallHead {
            serial: 7,
            flags: 0,
        },
        message: SharedBytes::new(Arc::new(alloc, Vec::from_slice(alloc, bytes)?)?),
    })
}

fn request(name: BusName) -> Change {
    Change::Request {
        connection: 1,
        name,
        flags: RequestFlags::from_bits(0),
    }
}

/// A connection comes, a call of it waits for the clock and one for the lamp, and it takes the
/// lamp's name and then the clock's.
fn waiting(alloc: Global) -> Result<Vec<Change>, AllocError> {
    let (Ok(clock), Ok(lamp)) = (BusName::parse(CLOCK), BusName::parse(LAMP)) else {
        return Err(AllocError);
    };
    let mut changes = Vec::new(alloc);
    changes.push(Change::Hello { privileged: false })?;
    changes.push(hold(alloc, clock, b"tick")?)?;
    changes.push(hold(alloc, lamp, b"glow")?)?;
    changes.push(request(lamp))?;
    changes.push(request(clock))?;
    Ok(changes)
}

/// The number and the bytes of the calls that each of them lets go.
const LET_GO: [&[(u64, &[u8])]; 5] = [&[], &[], &[], &[(2, b"glow")], &[(1, b"tick")]];

/// Whether a change lets go just these calls.
fn lets_go(outcome: &Outcome, calls: &[(u64, &[u8])]) -> bool {
    let settled = outcome.tickets.as_slice();
    settled.len() == calls.len()
        && settled.iter().zip(calls).all(|(settled, call)| {
            let bytes = match &settled.ticket.message {
                Some(message) => message.as_slice(),
                None => b"",
            };
            settled.ticket.number == call.0 && bytes == call.1
        })
}

#[test]
fn calls_wait_and_go_on_within_a_batch(rt: HostRuntime) {
    let services = [CLOCK, LAMP].map(|text| WellKnown::parse(text).ok());
    let [Some(clock), Some(lamp)] = services else {
        rt.abort()
    };
    let mut bus = open(&rt, rt.alloc(), &[clock, lamp], 1);
    let changes = once_more!(&rt; waiting(rt.alloc()));
    let outcomes = told_all(&mut bus, changes).expect(&rt, "one allocation fails");
    let are_let_go = outcomes
        .iter()
        .zip(LET_GO)
        .all(|(outcome, calls)| lets_go(outcome, calls));
    assert!(rt; outcomes.len() == 5 && are_let_go);
    drop(bus);
}
