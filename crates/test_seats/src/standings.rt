//! What desks tell of where their changes stand, batches among them.

use crate::players::Router;
use bus_view::{BatchCause, BusView, RefusedAll};
use match_rules::Rule;
use registry_snapshots::{Desk, Naming};
use seq_bus_core::{Change, Outcome, Reply};
use std::alloc::Global;
use std::sync::Wait;

fn rule_on(member: &str) -> Option<Rule> {
    Rule::parse(member).ok()
}

/// Connection 1 adds three rules, and takes the second back.
fn rule_changes(alloc: Global) -> Option<Vec<Change>> {
    let connection = 1;
    let rule = rule_on("member='B'")?;
    let changes = vec![in alloc;
        Change::AddMatch {
            connection,
            rule: rule_on("member='A'")?
        },
        Change::AddMatch { connection, rule },
        Change::AddMatch {
            connection,
            rule: rule_on("member='C'")?
        },
        Change::RemoveMatch { connection, rule },
    ];
    changes.ok()
}

fn hellos(alloc: Global, count: usize) -> Option<Vec<Change>> {
    let mut changes = Vec::new(alloc);
    for _place in 0..count {
        changes.push(Change::Hello { privileged: false }).ok()?;
    }
    Some(changes)
}

fn are_done(outcomes: &[Outcome], count: usize) -> bool {
    outcomes.len() == count && outcomes.iter().all(|outcome| outcome.reply == Reply::Done)
}

/// What is done at a desk.
#[derive(Clone, Copy)]
enum Act {
    Hello,
    /// The batch of four.
    Rules,
    /// A batch of so many, which is none.
    HandedBack(usize),
    /// It reads whether the first connection is there. There is no monitor.
    Present(bool),
    /// It takes the note of the other.
    Note,
}

/// How much of the history a desk has seen, how many changes it made, and the place of the last of
/// them.
type Standing = (u64, u64, u64);

/// What is done at which desk, and where the two stand then.
const STANDINGS: [(Router, Act, Standing, Standing); 11] = [
    (Router::First, Act::Present(false), (0, 0, 0), (0, 0, 0)),
    (Router::First, Act::Hello, (1, 1, 1), (0, 0, 0)),
    (Router::First, Act::Rules, (5, 5, 5), (0, 0, 0)),
    (Router::Second, Act::Present(true), (5, 5, 5), (5, 0, 0)),
    (Router::Second, Act::Hello, (5, 5, 5), (6, 1, 6)),
    (Router::First, Act::HandedBack(0), (5, 5, 5), (6, 1, 6)),
    (Router::First, Act::HandedBack(65), (5, 5, 5), (6, 1, 6)),
    (Router::First, Act::Note, (6, 5, 5), (6, 1, 6)),
    (Router::First, Act::Hello, (7, 6, 7), (6, 1, 6)),
    (Router::Second, Act::Note, (7, 6, 7), (7, 1, 6)),
    (Router::Second, Act::Rules, (7, 6, 7), (11, 5, 11)),
];

fn standing<J: Naming, R: Wait>(desk: &Desk<'_, J, R>) -> Standing {
    (desk.place(), desk.made(), desk.last())
}

fn is_handed_back(refused: &RefusedAll, count: usize) -> bool {
    refused.cause == BatchCause::Batch
        && refused.cause.code() == 67
        && refused.changes.len() == count
}

/// Whether it is done at a desk as it should be.
fn does<J: Naming, R: Wait>(
    rt: &R,
    alloc: Global,
    desk: &mut Desk<'_, J, R>,
    other: &Desk<'_, J, R>,
    act: Act,
) -> Option<bool> {
    match act {
        Act::Hello => Some(is_welcome(rt, desk)),
        Act::Rules => Some(rules_are_done(rt, desk, rule_changes(alloc)?)),
        Act::HandedBack(count) => Some(hands_back(rt, desk, hellos(alloc, count)?, count)),
        Act::Present(is_there) => Some(desk.present(1) == Ok(is_there) && !desk.is_watched()),
        Act::Note => {
            desk.take_note(&other.note()?);
            Some(true)
        }
    }
}

fn is_welcome<J: Naming, R: Wait>(rt: &R, desk: &mut Desk<'_, J, R>) -> bool {
    match desk.change(rt, Change::Hello { privileged: false }) {
        Ok((outcome, _)) => matches!(outcome.reply, Reply::Welcome(_)),
        Err(_) => false,
    }
}

fn rules_are_done<J: Naming, R: Wait>(
    rt: &R,
    desk: &mut Desk<'_, J, R>,
    rules: Vec<Change>,
) -> bool {
    match desk.change_all(rt, rules) {
        Ok((outcomes, _)) => are_done(outcomes.as_slice(), 4),
        Err(_) => false,
    }
}

fn hands_back<J: Naming, R: Wait>(
    rt: &R,
    desk: &mut Desk<'_, J, R>,
    hellos: Vec<Change>,
    count: usize,
) -> bool {
    match desk.change_all(rt, hellos) {
        Ok(_) => false,
        Err(refused) => is_handed_back(&refused, count),
    }
}

/// Whether two desks tell of themselves and of where their changes stand as they should.
pub(crate) fn are_told<J: Naming, R: Wait>(
    rt: &R,
    alloc: Global,
    first: &mut Desk<'_, J, R>,
    second: &mut Desk<'_, J, R>,
) -> bool {
    if first.seat() != 1 || second.seat() != 2 || first.note().is_some() {
        return false;
    }
    for (router, act, of_first, of_second) in STANDINGS {
        let is_done = match router {
            Router::First => does(rt, alloc, first, second, act),
            Router::Second => does(rt, alloc, second, first, act),
        };
        let is_so = standing(first) == of_first && standing(second) == of_second;
        if is_done != Some(true) || !is_so {
            return false;
        }
    }
    true
}
