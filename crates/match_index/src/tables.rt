//! Entries with their indexes: what is taken out of them, and sweeps.

ghost use Rattle.std.specs.Prelude.{◌≡◌, ◌<◌, ◌≤◌, ◌+◌, ◌*◌, length, slice_index_or, vec_capacity, Bool, List};
ghost use Rattle.match_rules.specs.OwnedRules.{rules_without};
ghost use Rattle.match_index.specs.Entries.{by_connection, live, marked, positions};
ghost use Rattle.match_index.specs.Indexes.{AreIndexed, AreShaped};

use crate::entries::{Entry, mark, number};
use crate::place_index::PlaceIndex;

/// So many more entries may be gone than there are rules.
pub(crate) const MAX_GONE: usize = 64;

/// Takes out one of the rules of a connection, counted from 0. Its entry stays until it is swept
/// out.
pub(crate) fn take_out(
    entries: &mut Vec<Entry>,
    by_owner: &mut PlaceIndex,
    by_bucket: &mut PlaceIndex,
    connection: u64,
    n: usize,
)
    requires indexed { AreIndexed entries.old.items by_owner.old.places by_bucket.old.places }
    requires there { n < length (positions by_connection connection entries.old.items) }
    ensures items { entries.new.items
        ≡ marked entries.old.items (slice_index_or
        (positions by_connection connection entries.old.items) n 0) }
    ensures indexed { AreIndexed entries.new.items by_owner.new.places by_bucket.new.places }
    ensures capacity { vec_capacity entries.old ≤ vec_capacity entries.new }
    ensures owner_room { by_owner.new.room ≡ by_owner.old.room }
    ensures bucket_room { by_bucket.new.room ≡ by_bucket.old.room }
{
    let place = by_owner.of(connection)[n].place;
    let code = entries[place].bucket.code;
    let number = by_bucket.number_of(code, place);
    mark(entries, place);
    by_owner.take(connection, n);
    by_bucket.take(code, number);
}

/// Takes out all rules of a connection.
pub(crate) fn take_out_all(
    entries: &mut Vec<Entry>,
    by_owner: &mut PlaceIndex,
    by_bucket: &mut PlaceIndex,
    connection: u64,
)
    requires { AreIndexed entries.old.items by_owner.old.places by_bucket.old.places }
    ensures live { live entries.new.items ≡ rules_without connection (live entries.old.items) }
    ensures indexed { AreIndexed entries.new.items by_owner.new.places by_bucket.new.places }
    ensures shaped { (shapes : List Bool) → AreShaped shapes entries.old.items
        → AreShaped shapes entries.new.items }
    ensures as_many { length entries.new.items ≡ length entries.old.items }
    ensures capacity { vec_capacity entries.old ≤ vec_capacity entries.new }
    ensures owner_room { by_owner.new.room ≡ by_owner.old.room }
    ensures bucket_room { by_bucket.new.room ≡ by_bucket.old.room }
{
    for _ in 0..by_owner.of(connection).len() {
        take_out(entries, by_owner, by_bucket, connection, 0);
    }
}

/// Sweeps out the entries that are gone, where they are many.
pub(crate) fn sweep_if_due(
    entries: &mut Vec<Entry>,
    by_owner: &mut PlaceIndex,
    by_bucket: &mut PlaceIndex,
    moves: &mut Vec<usize>,
)
    requires indexed { AreIndexed entries.old.items by_owner.old.places by_bucket.old.places }
    requires has_moves { length entries.old.items ≤ vec_capacity moves.old }
    ensures live { live entries.new.items ≡ live entries.old.items }
    ensures indexed { AreIndexed entries.new.items by_owner.new.places by_bucket.new.places }
    ensures shaped { (shapes : List Bool) → AreShaped shapes entries.old.items
        → AreShaped shapes entries.new.items }
    ensures few_gone { length entries.new.items ≤ 2 * length (live entries.new.items) + MAX_GONE }
    ensures capacity { vec_capacity entries.old ≤ vec_capacity entries.new }
    ensures moves { vec_capacity moves.old ≤ vec_capacity moves.new }
    ensures owner_room { by_owner.new.room ≡ by_owner.old.room }
    ensures bucket_room { by_bucket.new.room ≡ by_bucket.old.room }
{
    let gone = entries.len() - by_owner.len();
    if gone > MAX_GONE && gone - MAX_GONE > by_owner.len() {
        sweep(entries, by_owner, by_bucket, moves);
    }
}

/// Sweeps out the entries that are gone.
fn sweep(
    entries: &mut Vec<Entry>,
    by_owner: &mut PlaceIndex,
    by_bucket: &mut PlaceIndex,
    moves: &mut Vec<usize>,
)
    requires indexed { AreIndexed entries.old.items by_owner.old.places by_bucket.old.places }
    requires has_moves { length entries.old.items ≤ vec_capacity moves.old }
    ensures live { live entries.new.items ≡ live entries.old.items }
    ensures indexed { AreIndexed entries.new.items by_owner.new.places by_bucket.new.places }
    ensures shaped { (shapes : List Bool) → AreShaped shapes entries.old.items
        → AreShaped shapes entries.new.items }
    ensures none_gone { length entries.new.items ≡ length (live entries.new.items) }
    ensures capacity { vec_capacity entries.old ≤ vec_capacity entries.new }
    ensures moves { vec_capacity moves.old ≤ vec_capacity moves.new }
    ensures owner_room { by_owner.new.room ≡ by_owner.old.room }
    ensures bucket_room { by_bucket.new.room ≡ by_bucket.old.room }
{
    number(entries.as_slice(), moves);
    by_owner.renumber(moves.as_slice());
    by_bucket.renumber(moves.as_slice());
    entries.retain(|entry| !entry.is_gone);
}
