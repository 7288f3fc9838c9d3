//! Changes by two connections, and the reply to each.

use match_rules::Rule;
use names::BusName;
use owner_queues::{Reply as QueueReply, RequestFlags};
use seq_bus_core::{Change, Conn, Outcome, Reply};
use std::alloc::{AllocError, Global};

/// How many changes are made. Their places are counted from 0.
pub const CHANGES: u8 = 11;

/// The places of the changes that are made once more at the end, as a batch: a connection comes,
/// and the first gives up the name and takes it again.
const AGAIN: [u8; 3] = [1, 9, 10];

/// The first connection, served by the first router.
const FIRST: Conn = Conn {
    number: 1,
    slot: 0,
    router: 1,
};

/// A name that both connections request.
pub fn clock() -> Option<BusName> {
    BusName::parse("com.example.Clock").ok()
}

/// The connection that makes the change of a place.
pub fn maker(place: u8) -> u64 {
    if matches!(place, 0 | 3 | 9 | 10) {
        1
    } else {
        2
    }
}

/// The change of a place. The second connection leaves when it owns the name and has a rule.
pub fn change(place: u8, name: BusName) -> Change {
    let connection = maker(place);
    let rule = Rule::default();
    match place {
        0 | 1 => Change::Hello { privileged: false },
        4 | 5 => Change::AddMatch { connection, rule },
        6 => Change::RemoveMatch { connection, rule },
        7 => Change::Leave { connection },
        8 | 9 => Change::Release { connection, name },
        _ => Change::Request {
            connection,
            name,
            flags: RequestFlags::from_bits(0),
        },
    }
}

/// The reply to the change of a place, where this is the second connection.
pub fn reply(place: u8, second: Conn) -> Reply {
    match place {
        0 => Reply::Welcome(FIRST),
        1 => Reply::Welcome(second),
        2 | 10 => Reply::OfQueue(QueueReply::PrimaryOwner),
        3 => Reply::OfQueue(QueueReply::InQueue),
        8 => Reply::Gone,
        9 => Reply::OfQueue(QueueReply::Released),
        _ => Reply::Done,
    }
}

fn changes_again(alloc: Global, name: BusName) -> Result<Vec<Change>, AllocError> {
    let mut changes = Vec::new(alloc);
    for place in AGAIN {
        changes.push(change(place, name))?;
    }
    Ok(changes)
}

/// The changes of the batch at the end. Where they find no memory they are made up again.
pub fn batch(alloc: Global, name: BusName) -> Option<Vec<Change>> {
    match changes_again(alloc, name) {
        Ok(changes) => Some(changes),
        Err(_) => changes_again(alloc, name).ok(),
    }
}

/// Whether the changes of the batch have their replies, where this is the connection that comes by
/// it.
pub fn are_replied(outcomes: &[Outcome], third: Conn) -> bool {
    outcomes
        .iter()
        .map(|outcome| outcome.reply)
        .eq(AGAIN.iter().map(|place| reply(*place, third)))
}
