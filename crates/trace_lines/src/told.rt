//! How what is recorded of a change, a query and a message is written.

ghost use Rattle.std.specs.Prelude.{◌≡◌, ◌++◌, codes, OnOk};
ghost use Rattle.trace_lines.specs.Texts.{answer_text, bit_text, kind_text, listed, number_or_dash, outcome_text, reply_text, signal_text, verdict_text};
ghost use Rattle.trace_lines.specs.TextViews.{given_answer, numbered};

use crate::answer_words::AnswerWords;
use crate::draft::Draft;
use crate::list_item::{ListItem, write_list, write_number, write_separated};
use seq_bus_core::{NumberedOutcome, Outcome, Reply, Signals, Verdict, VerdictKind};
use std::alloc::AllocError;

/// Writes a bit.
pub(crate) fn write_bit(draft: &mut Draft, bit: bool) -> Result<(), AllocError>
    ensures { OnOk result (draft.new ≡ draft.old ++ bit_text bit) }
{
    if bit {
        draft.push("1")
    } else {
        draft.push("0")
    }
}

fn write_reply(draft: &mut Draft, reply: Reply) -> Result<(), AllocError>
    ensures { OnOk result (draft.new ≡ draft.old ++ reply_text reply) }
{
    match reply {
        Reply::Gone => draft.push("gone"),
        Reply::LimitsExceeded => draft.push("limits"),
        Reply::Done => draft.push("ok"),
        Reply::Welcome(conn) => draft.push_number(conn.number),
        Reply::OfQueue(reply) => draft.push_number(u64::from(reply.code())),
        Reply::InvalidName => draft.push("invalid"),
        Reply::RuleNotFound => draft.push("notfound"),
        Reply::AccessDenied => draft.push("denied"),
        Reply::AlreadyRunning => draft.push("2"),
        Reply::Held(ticket) => {
            draft.push("held/")?;
            draft.push_number(ticket)
        }
        Reply::ServiceUnknown => draft.push("unknown"),
        Reply::Pass(conn) => {
            draft.push("pass/")?;
            draft.push_number(conn.number)
        }
        Reply::Ignored => draft.push("ignored"),
    }
}

/// Writes what a change is told, with its tickets as they are.
fn write_told<T: ListItem>(
    draft: &mut Draft,
    reply: Reply,
    signals: &Signals,
    tickets: &[T],
    start: Option<u64>,
) -> Result<(), AllocError>
    ensures { OnOk result (draft.new ≡ draft.old ++ (codes "r=" ++ reply_text reply
        ++ codes " g=" ++ listed (codes ",") signal_text signals.now
        ++ codes " t=" ++ listed (codes ",") T.text tickets.now
        ++ codes " b=" ++ number_or_dash start)) }
{
    draft.push("r=")?;
    write_reply(draft, reply)?;
    draft.push(" g=")?;
    write_list(draft, ",", signals.as_slice())?;
    draft.push(" t=")?;
    write_list(draft, ",", tickets)?;
    draft.push(" b=")?;
    write_number(draft, start)
}

/// Writes what a change is told, its tickets by number alone.
pub(crate) fn write_outcome(draft: &mut Draft, outcome: &NumberedOutcome) -> Result<(), AllocError>
    ensures { OnOk result (draft.new ≡ draft.old ++ outcome_text outcome.now) }
{
    let tickets = outcome.tickets.as_slice();
    write_told(
        draft,
        outcome.reply,
        &outcome.signals,
        tickets,
        outcome.start,
    )
}

/// Writes what a change is told.
pub(crate) fn write_whole_outcome(draft: &mut Draft, outcome: &Outcome) -> Result<(), AllocError>
    ensures { OnOk result (draft.new ≡ draft.old ++ outcome_text (numbered outcome.now)) }
{
    let tickets = outcome.tickets.as_slice();
    write_told(
        draft,
        outcome.reply,
        &outcome.signals,
        tickets,
        outcome.start,
    )
}

/// Writes what a query is answered.
#[tactic(auto, using(crate::proofs::WrittenLists::lent_names))]
pub(crate) fn write_answer(
    draft: &mut Draft,
    answer: Option<AnswerWords<'_>>,
) -> Result<(), AllocError>
    ensures { OnOk result (draft.new ≡ draft.old ++ answer_text (given_answer answer.entry)) }
{
    match answer {
        None => draft.push("none"),
        Some(AnswerWords::OneName(name)) => draft.push(name),
        Some(AnswerWords::HasOwner(has)) => write_bit(draft, has),
        Some(AnswerWords::NameList(names)) => write_separated(draft, ",", names),
    }
}

fn write_kind(draft: &mut Draft, kind: VerdictKind) -> Result<(), AllocError>
    ensures { OnOk result (draft.new ≡ draft.old ++ kind_text kind) }
{
    match kind {
        VerdictKind::Plain => draft.push("plain"),
        VerdictKind::Bus => draft.push("bus"),
        VerdictKind::Start => draft.push("start"),
        VerdictKind::Nobody => draft.push("nobody"),
        VerdictKind::Absent => draft.push("absent"),
    }
}

/// Writes where a message goes.
pub(crate) fn write_verdict(draft: &mut Draft, verdict: &Verdict) -> Result<(), AllocError>
    ensures { OnOk result (draft.new ≡ draft.old ++ verdict_text verdict.now) }
{
    write_kind(draft, verdict.kind)?;
    draft.push(" ")?;
    write_list(draft, "+", verdict.to.as_slice())?;
    draft.push(" ")?;
    write_list(draft, "+", verdict.monitors.as_slice())
}
