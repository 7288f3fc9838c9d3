//! How changes, queries and messages are written.

ghost use Rattle.std.specs.Prelude.{◌≡◌, ◌++◌, OnOk, codes, decimal, map, option_map};
ghost use Rattle.match_rules.specs.FactsView.{argument_of};
ghost use Rattle.match_rules.specs.Kinds.{kind_number};
ghost use Rattle.trace_lines.specs.Texts.{arguments_text, bit_text, change_text, ending_text, facts_text, flag_bits, listed, named_text, query_text, rule_word, ruled_text, text_or_dash};

use crate::draft::Draft;
use crate::list_item::{ListItem, write_list, write_separated};
use crate::told::write_bit;
use match_rules::{Argument, Facts, Rule};
use names::BusName;
use owner_queues::{ALLOW_REPLACEMENT, DO_NOT_QUEUE, REPLACE_EXISTING, RequestFlags};
use seq_bus_core::{Change, Ending, Query};
use std::alloc::AllocError;

/// The number of flags.
fn flag_bits(flags: RequestFlags) -> u32
    ensures { result ≡ flag_bits flags }
{
    let allow = if flags.allow_replacement {
        ALLOW_REPLACEMENT
    } else {
        0
    };
    let replace = if flags.replace_existing {
        REPLACE_EXISTING
    } else {
        0
    };
    let leave = if flags.do_not_queue { DO_NOT_QUEUE } else { 0 };
    allow + replace + leave
}

/// Writes a connection and a name.
fn write_named(draft: &mut Draft, connection: u64, name: &BusName) -> Result<(), AllocError>
    ensures { OnOk result (draft.new ≡ draft.old ++ named_text connection name.now) }
{
    draft.push_number(connection)?;
    draft.push(" ")?;
    draft.push(name.as_str())
}

/// Writes a verb, a connection and a rule.
fn write_ruled(
    draft: &mut Draft,
    verb: &str,
    connection: u64,
    rule: &Rule,
) -> Result<(), AllocError>
    ensures { OnOk result (draft.new ≡ draft.old ++ ruled_text verb.now connection rule.now) }
{
    draft.push(verb)?;
    draft.push(" ")?;
    draft.push_number(connection)?;
    draft.push(" ")?;
    rule.write(draft)
}

fn write_ending(draft: &mut Draft, ending: Ending) -> Result<(), AllocError>
    ensures { OnOk result (draft.new ≡ draft.old ++ ending_text ending) }
{
    match ending {
        Ending::Exit(status) => {
            draft.push("exit/")?;
            draft.push_number(status)
        }
        Ending::Killed => draft.push("killed"),
        Ending::NotRun => draft.push("exec"),
    }
}

/// Writes a verb, a connection and a name.
fn write_asked(
    draft: &mut Draft,
    verb: &str,
    connection: u64,
    name: &BusName,
) -> Result<(), AllocError>
    ensures { OnOk result (draft.new ≡ draft.old ++ verb.now ++ named_text connection name.now) }
{
    draft.push(verb)?;
    write_named(draft, connection, name)
}

fn write_hello(draft: &mut Draft, privileged: bool) -> Result<(), AllocError>
    ensures { OnOk result (draft.new ≡ draft.old ++ codes "hello " ++ bit_text privileged) }
{
    draft.push("hello ")?;
    write_bit(draft, privileged)
}

fn write_leave(draft: &mut Draft, connection: u64) -> Result<(), AllocError>
    ensures { OnOk result (draft.new ≡ draft.old ++ codes "leave " ++ decimal connection) }
{
    draft.push("leave ")?;
    draft.push_number(connection)
}

fn write_request(
    draft: &mut Draft,
    connection: u64,
    name: &BusName,
    flags: RequestFlags,
) -> Result<(), AllocError>
    ensures { OnOk result (draft.new ≡ draft.old ++ codes "request "
        ++ named_text connection name.now ++ codes " " ++ decimal (flag_bits flags)) }
{
    write_asked(draft, "request ", connection, name)?;
    draft.push(" ")?;
    draft.push_number(u64::from(flag_bits(flags)))
}

fn write_monitor(draft: &mut Draft, connection: u64, rules: &[Rule]) -> Result<(), AllocError>
    ensures { OnOk result (draft.new ≡ draft.old ++ codes "monitor " ++ decimal connection
        ++ codes " " ++ listed (codes ",") rule_word rules.now) }
{
    draft.push("monitor ")?;
    draft.push_number(connection)?;
    draft.push(" ")?;
    write_list(draft, ",", rules)
}

/// Writes a verb, and the name and the number of a start.
fn write_started(
    draft: &mut Draft,
    verb: &str,
    name: &BusName,
    start: u64,
) -> Result<(), AllocError>
    ensures { OnOk result (draft.new ≡ draft.old ++ verb.now ++ name.now ++ codes " "
        ++ decimal start) }
{
    draft.push(verb)?;
    draft.push(name.as_str())?;
    draft.push(" ")?;
    draft.push_number(start)
}

fn write_ended(draft: &mut Draft, name: &BusName, start: u64, how: Ending) -> Result<(), AllocError>
    ensures { OnOk result (draft.new ≡ draft.old ++ codes "ended " ++ name.now ++ codes " "
        ++ decimal start ++ codes " " ++ ending_text how) }
{
    write_started(draft, "ended ", name, start)?;
    draft.push(" ")?;
    write_ending(draft, how)
}

/// Writes a change.
pub(crate) fn write_change(draft: &mut Draft, change: &Change) -> Result<(), AllocError>
    ensures { OnOk result (draft.new ≡ draft.old ++ change_text change.now) }
{
    match change {
        Change::Hello { privileged } => write_hello(draft, *privileged),
        Change::Leave { connection } => write_leave(draft, *connection),
        Change::Request {
            connection,
            name,
            flags,
        } => write_request(draft, *connection, name, *flags),
        Change::Release { connection, name } => {
            write_asked(draft, "release ", *connection, name)
        }
        Change::AddMatch { connection, rule } => {
            write_ruled(draft, "addmatch", *connection, rule)
        }
        Change::RemoveMatch { connection, rule } => {
            write_ruled(draft, "removematch", *connection, rule)
        }
        Change::BecomeMonitor { connection, rules } => {
            write_monitor(draft, *connection, rules.as_slice())
        }
        Change::Start {
            connection,
            name,
            ..
        } => write_asked(draft, "start ", *connection, name),
        Change::Hold {
            connection,
            name,
            ..
        } => write_asked(draft, "hold ", *connection, name),
        Change::ChildEnded { name, start, how } => write_ended(draft, name, *start, *how),
        Change::StartTimedOut { name, start } => write_started(draft, "timeout ", name, *start),
    }
}

/// Writes a query.
pub(crate) fn write_query(draft: &mut Draft, query: &Query) -> Result<(), AllocError>
    ensures { OnOk result (draft.new ≡ draft.old ++ query_text query.now) }
{
    match query {
        Query::GetNameOwner(name) => {
            draft.push("owner ")?;
            draft.push(name.as_str())
        }
        Query::NameHasOwner(name) => {
            draft.push("has ")?;
            draft.push(name.as_str())
        }
        Query::ListNames => draft.push("names"),
        Query::ListActivatableNames => draft.push("activatable"),
        Query::ListQueuedOwners(name) => {
            draft.push("queued ")?;
            draft.push(name.as_str())
        }
    }
}

/// Writes a part of a message, or a dash for none.
fn write_text(draft: &mut Draft, text: Option<&str>) -> Result<(), AllocError>
    ensures { OnOk result (draft.new ≡ draft.old
        ++ text_or_dash (option_map (λ t. t.now) text.entry)) }
{
    draft.push(text.unwrap_or("-"))
}

#[tactic(auto, using(crate::proofs::WrittenLists::lent_arguments))]
fn write_arguments(draft: &mut Draft, arguments: &[Argument<'_>]) -> Result<(), AllocError>
    ensures { OnOk result (draft.new ≡ draft.old
        ++ arguments_text (map argument_of arguments.now)) }
{
    if arguments.is_empty() {
        return draft.push(".");
    }
    write_separated(draft, ",", arguments)
}

/// Writes who sends a message, its kind, and whether it may start its receiver.
fn write_origin(draft: &mut Draft, from: u64, facts: &Facts<'_>) -> Result<(), AllocError>
    ensures { OnOk result (draft.new ≡ draft.old ++ decimal from ++ codes " "
        ++ decimal (kind_number facts.now.kind) ++ codes " " ++ bit_text facts.now.auto_start) }
{
    draft.push_number(from)?;
    draft.push(" ")?;
    draft.push_number(u64::from(facts.kind.number()))?;
    draft.push(" ")?;
    write_bit(draft, facts.auto_start)
}

/// Writes a space, and a part of a message.
fn write_next(draft: &mut Draft, text: Option<&str>) -> Result<(), AllocError>
    ensures { OnOk result (draft.new ≡ draft.old ++ codes " "
        ++ text_or_dash (option_map (λ t. t.now) text.entry)) }
{
    draft.push(" ")?;
    write_text(draft, text)
}

/// Writes what a message is about.
fn write_header(draft: &mut Draft, facts: &Facts<'_>) -> Result<(), AllocError>
    ensures { OnOk result (draft.new ≡ draft.old ++ codes " " ++ text_or_dash facts.now.path
        ++ codes " " ++ text_or_dash facts.now.interface ++ codes " "
        ++ text_or_dash facts.now.member ++ codes " " ++ text_or_dash facts.now.destination) }
{
    write_next(draft, facts.path)?;
    write_next(draft, facts.interface)?;
    write_next(draft, facts.member)?;
    write_next(draft, facts.destination)
}

/// Writes what match rules and the choice of recipients look at in a message, which comes from this
/// connection.
pub(crate) fn write_facts(draft: &mut Draft, from: u64, facts: &Facts<'_>) -> Result<(), AllocError>
    ensures { OnOk result (draft.new ≡ draft.old
        ++ facts_text (record facts.now { sender = from })) }
{
    write_origin(draft, from, facts)?;
    write_header(draft, facts)?;
    draft.push(" ")?;
    write_arguments(draft, facts.arguments)
}
