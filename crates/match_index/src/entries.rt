//! Match rules as they stand in an index.

ghost use Rattle.std.specs.Prelude.{◌≡◌, ◌&&◌, ◌≤◌, ◌<◌, false, length, vec_capacity};
ghost use Rattle.std.specs.List.{AllByRecursion, position};
ghost use Rattle.match_index.specs.Entries.{has_rule, is_there, marked, new_places};

use crate::buckets::Bucket;
use crate::place_index::KeyedPlace;
use match_rules::Rule;

/// A rule that a connection added.
#[derive(Clone, Copy, Drop)]
pub(crate) struct Entry {
    /// The number of the connection.
    pub connection: u64,
    pub rule: Rule,
    pub bucket: Bucket,
    /// Whether the rule was taken out.
    pub is_gone: bool,
}

/// Which of these places is the first where a rule equal to this one stands.
pub(crate) fn place_of(entries: &[Entry], places: &[KeyedPlace], rule: &Rule) -> Option<usize>
    ensures { result ≡ position (λ p. has_rule rule.now entries.now p.place) places.now }
{
    places
        .iter()
        .position(|place| has_rule(entries, place.place, rule))
}

fn has_rule(entries: &[Entry], place: usize, rule: &Rule) -> bool
    ensures { result ≡ has_rule rule.now entries.now place }
{
    match entries.get(place) {
        Some(entry) => entry.rule == *rule,
        None => false,
    }
}

/// Takes out the rule at a place. Its entry stays, so that no other moves.
pub(crate) fn mark(entries: &mut [Entry], place: usize)
    requires { place < length entries.old }
    ensures { entries.new ≡ marked entries.old place }
{
    entries[place].is_gone = true;
}

/// Tells where each entry stands once those that are gone are swept out.
pub(crate) fn number(entries: &[Entry], moves: &mut Vec<usize>)
    requires { length entries.now ≤ vec_capacity moves.old }
    ensures moves { moves.new.items ≡ new_places 0 entries.now }
    ensures room { vec_capacity moves.old ≤ vec_capacity moves.new }
{
    moves.clear();
    let mut next_place = 0;
    for entry in entries {
        moves.push_reserved(next_place);
        if !entry.is_gone {
            next_place += 1;
        }
    }
}
