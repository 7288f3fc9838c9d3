//! The index.

ghost use Rattle.std.specs.Prelude.{◌≡◌, ◌<◌, ◌≤◌, ◌+◌, ◌++◌, ◌∷◌, ◌==◌, ℕ, nat_lt, [], length, vec_capacity, IfOk};
ghost use Rattle.std.specs.List.{list_any};
ghost use Rattle.match_rules.specs.OwnedRules.{count_of, has_fitting, is_rule_of, rules_by, rules_without, without_first};
ghost use Rattle.match_index.specs.Entries.{live};
ghost use Rattle.match_index.specs.Collecting.{connections_of};
ghost use Rattle.match_index.specs.Near.{near_rules};
ghost use Rattle.match_index.specs.Sets.{AreRising, is_in};
ghost use Rattle.match_index.specs.RulesOf.{rules_left};

use crate::buckets::{SHAPES, bucket_of};
use crate::collecting::collect;
use crate::conn_set::ConnSet;
use crate::entries::{Entry, place_of};
use crate::place_index::{KeyedPlace, PlaceIndex};
use crate::steps::Steps;
use crate::tables::{MAX_GONE, sweep_if_due, take_out, take_out_all};
use match_rules::{Facts, Owners, Rule};
use std::alloc::{AllocError, Global};
use std::marker::{Brand, Model};
use std::sync::ledger::{Blank, Ledger};

/// Rules of connections, in order of arrival: 4,096 at most. All room is made with the index, and
/// no later call takes memory.
///
/// A rule is in the bucket of what it asks for, so that a message looks only at the rules of a few
/// buckets. One that is taken out is only marked as gone, so that no other moves, and those that
/// are gone are swept out once they are many. (D-Bus Specification: "Match Rules".)
#[derive(Drop)]
pub struct Index {
    entries: Vec<Entry>,
    /// Where the rules of each connection stand.
    by_owner: PlaceIndex,
    /// Where the rules of each bucket stand, by its code.
    by_bucket: PlaceIndex,
    /// Which shapes rules have had, so that no other is looked for.
    shapes: [bool; SHAPES],
    /// Where entries go when others are swept out.
    moves: Vec<usize>,
}

impl Model for Index {
    ghost use Rattle.std.specs.Prelude.{List, vec_capacity};
    ghost use Rattle.match_rules.specs.OwnedRules.{OwnedRule};
    ghost use Rattle.match_index.specs.Entries.{live};
    ghost use Rattle.match_index.specs.Indexes.{IsIndex};

    ghost Value = { List OwnedRule };

    ghost view = { λ t. live t.entries.items };

    ghost invariant = { λ t. IsIndex t.entries.items t.by_owner t.by_bucket t.shapes
        (vec_capacity t.entries) (vec_capacity t.moves) };
}

impl Index {
    /// The most rules of an index.
    pub const MAX: usize = 4096;

    /// An index without rules.
    pub fn new(alloc: Global) -> Result<Index, AllocError>
        ensures { IfOk result (λ index. index ≡ []) }
    {
        Ok(Index {
            entries: Vec::with_capacity(alloc, 2 * Self::MAX + MAX_GONE)?,
            by_owner: PlaceIndex::new(alloc, Self::MAX)?,
            by_bucket: PlaceIndex::new(alloc, Self::MAX)?,
            shapes: [false; SHAPES],
            moves: Vec::with_capacity(alloc, 2 * Self::MAX + MAX_GONE)?,
        })
    }

    pub fn len(&self) -> usize
        ensures value { result ≡ length self.now }
        ensures bound { result ≤ Self.MAX }
    {
        self.by_owner.len()
    }

    /// Whether one more rule can be added.
    pub fn has_room(&self) -> bool
        ensures { result ≡ nat_lt (length self.now) Self.MAX }
    {
        self.len() < Self::MAX
    }

    /// The rules of a connection, in order of arrival.
    pub fn of(&self, connection: u64) -> RulesOf<'_>
        ensures { rules_left result ≡ rules_by connection self.now }
    {
        RulesOf {
            places: self.by_owner.of(connection),
            entries: self.entries.as_slice(),
        }
    }

    /// How many rules a connection has.
    pub fn count_of(&self, connection: u64) -> usize
        ensures { result ≡ count_of connection self.now }
    {
        self.by_owner.of(connection).len()
    }

    /// Whether a connection has a rule equal to this one.
    pub fn contains(&self, connection: u64, rule: &Rule) -> bool
        ensures { result ≡ list_any (is_rule_of connection rule.now) self.now }
    {
        place_of(&self.entries, self.by_owner.of(connection), rule).is_some()
    }

    /// One more rule of a connection, behind the others.
    pub fn add(&mut self, connection: u64, rule: Rule)
        requires { length self.old < Self.MAX }
        ensures { self.new ≡ self.old ++ record { connection = connection; rule = rule } ∷ [] }
    {
        let bucket = bucket_of(&rule);
        let place = self.entries.len();
        self.by_owner.add(connection, place);
        self.by_bucket.add(bucket.code, place);
        self.shapes[bucket.shape] = true;
        self.entries.push_reserved(Entry {
            connection,
            rule,
            bucket,
            is_gone: false,
        });
    }

    /// Takes out the first rule of a connection that is equal to this one, if there is one.
    pub fn remove_first(&mut self, connection: u64, rule: &Rule)
        ensures { self.new ≡ without_first (is_rule_of connection rule.now) self.old }
    {
        let places = self.by_owner.of(connection);
        if let Some(n) = place_of(&self.entries, places, rule) {
            let entries = &mut self.entries;
            take_out(
                entries,
                &mut self.by_owner,
                &mut self.by_bucket,
                connection,
                n,
            );
            sweep_if_due(
                &mut self.entries,
                &mut self.by_owner,
                &mut self.by_bucket,
                &mut self.moves,
            );
        }
    }

    /// Takes out all rules of a connection.
    pub fn drop_owner(&mut self, connection: u64)
        ensures { self.new ≡ rules_without connection self.old }
    {
        let entries = &mut self.entries;
        take_out_all(entries, &mut self.by_owner, &mut self.by_bucket, connection);
        sweep_if_due(
            &mut self.entries,
            &mut self.by_owner,
            &mut self.by_bucket,
            &mut self.moves,
        );
    }

    /// Adds to an empty set the connections that have a rule that fits a message. The message looks
    /// only at the rules of the few buckets that it may be for, and each rule that is tested is a
    /// step.
    pub fn collect<O: Owners, L: Ledger>(
        &self,
        facts: &Facts<'_>,
        owners: &O,
        found: &mut ConnSet,
        steps: &mut Steps<L>,
    )
        requires empty { found.old ≡ [] }
        requires few { length (connections_of self.now) ≤ ConnSet.MAX }
        ensures found { (c : ℕ) → is_in c found.new
            ≡ has_fitting (O.heads owners.now) self.now facts.now c }
        ensures rising { AreRising found.new }
        ensures cost { steps.new ≤ steps.old + near_rules facts.now self.now }
    {
        let by_bucket = &self.by_bucket;
        collect(
            &self.entries,
            by_bucket,
            &self.shapes,
            facts,
            owners,
            found,
            steps,
        );
    }

    /// The same as [`Index::collect`], for a caller that counts no steps.
    pub fn gather<O: Owners>(&self, facts: &Facts<'_>, owners: &O, found: &mut ConnSet)
        requires empty { found.old ≡ [] }
        requires few { length (connections_of self.now) ≤ ConnSet.MAX }
        ensures found { (c : ℕ) → is_in c found.new
            ≡ has_fitting (O.heads owners.now) self.now facts.now c }
        ensures rising { AreRising found.new }
    {
        gather_in::<O, Brand>(self, facts, owners, found, Blank::new(1));
    }

    /// The same rules as there.
    pub fn copy_from(&mut self, other: &Index)
        ensures { self.new ≡ other.now }
    {
        copy_entries(&mut self.entries, &other.entries);
        self.by_owner.copy_from(&other.by_owner);
        self.by_bucket.copy_from(&other.by_bucket);
        self.shapes = other.shapes;
    }
}

fn gather_in<O: Owners, L: Ledger>(
    index: &Index,
    facts: &Facts<'_>,
    owners: &O,
    found: &mut ConnSet,
    blank: Blank,
)
    requires name { blank.name ≡ L.name }
    requires parts { (blank.parts ≡ L.parts) × (0 < L.parts) }
    requires empty { found.old ≡ [] }
    requires few { length (connections_of index.now) ≤ ConnSet.MAX }
    ensures found { (c : ℕ) → is_in c found.new
        ≡ has_fitting (O.heads owners.now) index.now facts.now c }
    ensures rising { AreRising found.new }
{
    let mut steps = Steps::<L>::new(blank);
    index.collect(facts, owners, found, &mut steps);
}

/// The same entries as there, where there is room for them.
fn copy_entries(entries: &mut Vec<Entry>, others: &[Entry])
    requires { length others.now ≤ vec_capacity entries.old }
    ensures items { entries.new.items ≡ others.now }
    ensures capacity { vec_capacity entries.old ≤ vec_capacity entries.new }
{
    entries.clear();
    let _ = entries.extend_from_slice(others);
}

/// Rules of one connection, lent out of an index in order of arrival.
#[derive(Clone, Copy)]
pub struct RulesOf<'a> {
    places: &'a [KeyedPlace],
    entries: &'a [Entry],
}

impl<'a> Iterator for RulesOf<'a> {
    ghost use Rattle.std.specs.Iterator.{YieldsFirstBy, item_count};
    ghost use Rattle.match_index.specs.RulesOf.{rules_left};

    type Item = &'a Rule;

    ghost next_gives = { YieldsFirstBy (λ r. r.now) rules_left };

    ghost remaining = { item_count rules_left };

    fn next(&mut self) -> Option<&'a Rule> {
        while let Some((place, rest)) = self.places.split_first() {
            self.places = rest;
            if let Some(entry) = self.entries.get(place.place) {
                return Some(&entry.rule);
            }
        }
        None
    }
}
