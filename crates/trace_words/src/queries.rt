//! The words of queries.

ghost use Rattle.std.specs.Prelude.{◌≡◌, option_map};
ghost use Rattle.seq_bus_core.specs.declared.query.Query.TheVariants.{GetNameOwner, ListQueuedOwners, NameHasOwner};
ghost use Rattle.trace_words.specs.Queries.{asked_from, query_from};
ghost use Rattle.trace_words.specs.Cutting.{parts_left};

use crate::parts::Parts;
use crate::words::name;
use seq_bus_core::Query;

fn owner(words: &mut Parts<'_>) -> Option<Query>
    ensures { option_map (λ query. (query, parts_left words.new)) result
        ≡ asked_from GetNameOwner (parts_left words.old) }
{
    let name = name(words.take()?)?;
    Some(Query::GetNameOwner(name))
}

fn has_owner(words: &mut Parts<'_>) -> Option<Query>
    ensures { option_map (λ query. (query, parts_left words.new)) result
        ≡ asked_from NameHasOwner (parts_left words.old) }
{
    let name = name(words.take()?)?;
    Some(Query::NameHasOwner(name))
}

fn queued(words: &mut Parts<'_>) -> Option<Query>
    ensures { option_map (λ query. (query, parts_left words.new)) result
        ≡ asked_from ListQueuedOwners (parts_left words.old) }
{
    let name = name(words.take()?)?;
    Some(Query::ListQueuedOwners(name))
}

/// Reads a query, and leaves the words behind it. None where they say no query; then some may be
/// taken.
pub fn read_query(words: &mut Parts<'_>) -> Option<Query>
    ensures { option_map (λ query. (query, parts_left words.new)) result
        ≡ query_from (parts_left words.old) }
{
    let verb = words.take()?;
    if verb == "owner" {
        return owner(words);
    }
    if verb == "has" {
        return has_owner(words);
    }
    if verb == "names" {
        return Some(Query::ListNames);
    }
    if verb == "activatable" {
        return Some(Query::ListActivatableNames);
    }
    if verb == "queued" {
        return queued(words);
    }
    None
}
