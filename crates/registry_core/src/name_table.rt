//! Well-known names in a table.

ghost use Rattle.std.specs.Prelude.{◌≡◌, ◌<◌, ◌≤◌, ◌+◌, ◌++◌, ◌∷◌, [], ℕ, List, length, map, filter, remove, insert, get_or, false, true, take, drop, vec_capacity, nat_le, ◌&&◌, if◌then◌else◌, IfOk, MatchOption};
ghost use Rattle.std.specs.List.{AllByRecursion};
ghost use Rattle.names.specs.Texts.{Text, text_lt};
ghost use Rattle.owner_queues.specs.Queues.{queue_head, without, is_free, is_in};
ghost use Rattle.seq_bus_core.specs.BusState.{OwnedName, queue_of, with_queue, kept_name, queued_in, names_of, max_names, max_queued, max_names_of_one};
ghost use Rattle.seq_bus_core.specs.Steps.{names_without};
ghost use Rattle.registry_core.specs.NameTables.{owned_name, numbers_of, values_of, IsAt, NamesRise, SearchGives, are_within};

use crate::name_index::NameIndex;
use names::BusName;
use owner_queues::Queue;
use seq_bus_core::limits::{MAX_NAMES, MAX_NAMES_OF_ONE, MAX_QUEUED};
use std::alloc::{AllocError, Global};
use std::marker::Model;

/// A well-known name that has an owner, and its queue.
#[derive(Drop)]
pub struct NameEntry {
    pub name: BusName,
    pub queue: Queue,
    /// The number by which the index of the table knows the name.
    id: usize,
}

/// The names that have an owner, by rising bytes, so that a name is found by a binary search. Their
/// room is made with the table, an entry on the heap for each, so that a name that comes or goes
/// moves nothing but pointers.
#[derive(Drop)]
pub struct NameTable {
    entries: Vec<Box<NameEntry>>,
    /// The entries of no name.
    spare: Vec<Box<NameEntry>>,
    /// The places in all queues.
    queued: usize,
    /// Which names each connection owns or waits for.
    index: NameIndex,
}

impl Model for NameTable {
    ghost use Rattle.std.specs.Prelude.{List, length, map, vec_capacity};
    ghost use Rattle.seq_bus_core.specs.BusState.{OwnedName};
    ghost use Rattle.registry_core.specs.NameTables.{owned_name, AreInTable, AreIndexed};

    ghost Value = { List OwnedName };

    ghost view = { λ t. map (λ b. owned_name b.value) t.entries.items };

    ghost invariant = { λ t. AreInTable (map (λ b. owned_name b.value) t.entries.items)
        (length t.spare.items) t.queued (vec_capacity t.entries) (vec_capacity t.spare)
        × AreIndexed t.entries.items t.spare.items t.index t.queued };
}

impl NameTable {
    /// A table without names.
    pub fn new(alloc: Global) -> Result<NameTable, AllocError>
        ensures { IfOk result (λ table. table ≡ []) }
    {
        let mut spare = Vec::with_capacity(alloc, MAX_NAMES)?;
        for id in 0..MAX_NAMES {
            let entry = NameEntry {
                name: BusName::bus(),
                queue: Queue::new(),
                id,
            };
            spare.push_reserved(Box::new(alloc, entry)?);
        }
        Ok(NameTable {
            entries: Vec::with_capacity(alloc, MAX_NAMES)?,
            spare,
            queued: 0,
            index: NameIndex::new(alloc)?,
        })
    }

    /// How many names there are.
    pub fn len(&self) -> usize
        ensures value { result ≡ length self.now }
        ensures bound { length self.now ≤ MAX_NAMES }
    {
        self.entries.len()
    }

    /// How many places there are in all queues.
    pub fn queued(&self) -> usize
        ensures value { result ≡ queued_in self.now }
        ensures bound { queued_in self.now ≤ MAX_QUEUED }
    {
        self.queued
    }

    /// The names, by rising bytes.
    pub fn as_slice(&self) -> &[Box<NameEntry>]
        ensures value { map (λ b. owned_name b.value) result.now ≡ self.now }
        ensures rise { NamesRise self.now }
    {
        self.entries.as_slice()
    }

    /// The place of a name, or the place where it would stand.
    pub fn find(&self, name: &str) -> Result<usize, usize>
        ensures { SearchGives self.now name.now result }
    {
        search(self.entries.as_slice(), name)
    }

    /// The queue of the name at a place.
    pub fn queue_at(&self, place: usize) -> &Queue
        requires { place < length self.now }
        ensures { (name : Text) → IsAt self.now name place → result.now ≡ queue_of self.now name }
    {
        &self.entries[place].queue
    }

    /// The queue of a name, if the name has an owner.
    pub fn queue(&self, name: &str) -> Option<&Queue>
        ensures { MatchOption result (queue_of self.now name.now ≡ []) (λ queue. queue.now
            ≡ queue_of self.now name.now) }
    {
        match self.find(name) {
            Ok(place) => Some(self.queue_at(place)),
            Err(_) => None,
        }
    }

    /// The connection that owns a name.
    pub fn head(&self, name: &str) -> Option<u64>
        ensures { result ≡ queue_head (queue_of self.now name.now) }
    {
        match self.queue(name) {
            Some(queue) => queue.head(),
            None => None,
        }
    }

    /// Whether the limits would hold if the name that was looked for had this queue: of the names,
    /// of the places in all queues, and of the names that this connection owns or waits for. Where
    /// they would hold beside the queue that the name has, that one is not looked at.
    pub fn would_fit_at(&self, found: Result<usize, usize>, queue: &Queue, connection: u64) -> bool
        requires { (name : Text) × SearchGives self.now name found }
        ensures { (name : Text) → SearchGives self.now name found
            → result ≡ are_within (with_queue name queue.now self.now) connection }
    {
        let names = self.len() + count(!queue.is_empty());
        let queued = self.queued + queue.as_slice().len();
        let of_one = self.count_of(connection) + count(queue.contains(connection));
        if are_within(names, queued, of_one) {
            return true;
        }
        match found {
            Ok(place) => {
                let old = self.queue_at(place);
                are_within(
                    names - 1,
                    queued - old.as_slice().len(),
                    of_one - count(old.contains(connection)),
                )
            }
            Err(_) => false,
        }
    }

    /// From now on a name that was looked for has this queue. A name whose queue is empty is not
    /// there any longer.
    pub fn set_queue_at(&mut self, found: Result<usize, usize>, name: &BusName, queue: &Queue)
        requires found { SearchGives self.old name.now found }
        requires few_names { length (with_queue name.now queue.now self.old) ≤ MAX_NAMES }
        requires few_places { queued_in (with_queue name.now queue.now self.old) ≤ MAX_QUEUED }
        ensures { self.new ≡ with_queue name.now queue.now self.old }
    {
        let _ = &self.entries;
        match found {
            Ok(place) => {
                if queue.is_empty() {
                    self.remove_at(place);
                } else {
                    self.requeue(place, queue);
                }
            }
            Err(place) => {
                if !queue.is_empty() {
                    self.add(place, name, queue);
                }
            }
        }
    }

    /// Takes a connection out of all queues. No other name is looked at than those that it owns or
    /// waits for.
    pub fn leave(&mut self, connection: u64)
        ensures { self.new ≡ names_without connection self.old }
    {
        let _ = &self.entries;
        let mut left = self.count_of(connection);
        while left > 0 {
            left -= 1;
            let place = self.place_of_nth(connection, left);
            self.leave_at(place, connection);
        }
    }

    /// Takes a connection out of the queue at a place. A name goes with its last connection.
    fn leave_at(&mut self, place: usize, connection: u64)
        requires there { place < length self.old }
        requires waits { (front back : List OwnedName) (n : OwnedName)
            → self.old ≡ front ++ n ∷ back → length front ≡ place
            → is_in connection n.queue ≡ true }
        ensures { (front back : List OwnedName) (n : OwnedName) → self.old ≡ front ++ n ∷ back
            → length front ≡ place → self.new
            ≡ front ++ kept_name n.name (without connection n.queue) ++ back }
    {
        if self.entries[place].queue.as_slice().len() > 1 {
            self.shorten(place, connection);
        } else {
            self.remove_at(place);
        }
    }

    /// Another queue at a place.
    fn requeue(&mut self, place: usize, queue: &Queue)
        requires there { place < length self.old }
        requires owned { is_free queue.now ≡ false }
        requires few_places { (front back : List OwnedName) (n : OwnedName)
            → self.old ≡ front ++ n ∷ back → length front ≡ place
            → queued_in (front ++ record n { queue = queue.now } ∷ back) ≤ MAX_QUEUED }
        ensures { (front back : List OwnedName) (n : OwnedName) → self.old ≡ front ++ n ∷ back
            → length front ≡ place → self.new ≡ front ++ record n { queue = queue.now } ∷ back }
    {
        let entry = &mut self.entries[place];
        self.queued -= entry.queue.as_slice().len();
        self.queued += queue.as_slice().len();
        self.index.replace(entry.id, &entry.queue, queue);
        entry.queue.copy_from(queue);
    }

    /// Takes a connection out of the queue at a place where others stand too.
    fn shorten(&mut self, place: usize, connection: u64)
        requires there { place < length self.old }
        requires owned { (front back : List OwnedName) (n : OwnedName)
            → self.old ≡ front ++ n ∷ back → length front ≡ place
            → is_free (without connection n.queue) ≡ false }
        requires waits { (front back : List OwnedName) (n : OwnedName)
            → self.old ≡ front ++ n ∷ back → length front ≡ place
            → is_in connection n.queue ≡ true }
        ensures { (front back : List OwnedName) (n : OwnedName) → self.old ≡ front ++ n ∷ back
            → length front ≡ place → self.new
            ≡ front ++ record n { queue = without connection n.queue } ∷ back }
    {
        let entry = &mut self.entries[place];
        self.queued -= entry.queue.as_slice().len();
        self.index.take(entry.id, connection);
        entry.queue.leave(connection);
        self.queued += entry.queue.as_slice().len();
    }

    /// Takes out the name at a place.
    fn remove_at(&mut self, place: usize)
        requires { place < length self.old }
        ensures { (front back : List OwnedName) (n : OwnedName) → self.old ≡ front ++ n ∷ back
            → length front ≡ place → self.new ≡ front ++ back }
    {
        let entry = self.entries.remove(place);
        self.queued -= entry.queue.as_slice().len();
        self.index.take_all(entry.id, entry.queue.as_slice());
        self.spare.push_reserved(entry);
    }

    /// A name that was not there, at its place.
    fn add(&mut self, place: usize, name: &BusName, queue: &Queue)
        requires there { place ≤ length self.old }
        requires rise { NamesRise (insert self.old place
            (record { name = name.now; queue = queue.now })) }
        requires owned { is_free queue.now ≡ false }
        requires few_names { length self.old < MAX_NAMES }
        requires few_places { queued_in self.old + length queue.now ≤ MAX_QUEUED }
        ensures { self.new ≡ insert self.old place (record { name = name.now; queue = queue.now }) }
    {
        if let Some(spare) = self.spare.pop() {
            self.queued += queue.as_slice().len();
            self.index.rename(spare.id, name);
            self.index.add_all(spare.id, queue.as_slice());
            insert_reserved(&mut self.entries, place, filled(spare, name, queue));
        }
    }

    /// The same names and queues as there.
    pub fn copy_from(&mut self, other: &NameTable)
        ensures { self.new ≡ other.now }
    {
        set_aside(&mut self.entries, &mut self.spare);
        fill_all(&mut self.entries, &mut self.spare, &other.entries);
        renumber(&mut self.spare, &other.spare);
        self.queued = other.queued;
        self.index.copy_from(&other.index);
    }

    /// How many names a connection owns or waits for.
    pub fn count_of(&self, connection: u64) -> usize
        ensures { result ≡ names_of connection self.now }
    {
        self.index.count_of(connection)
    }

    /// The place of one of the names that a connection owns or waits for, counted from 0 by rising
    /// bytes.
    pub fn place_of_nth(&self, connection: u64, n: usize) -> usize
        requires { n < names_of connection self.now }
        ensures there { result < length self.now }
        ensures value { (d : OwnedName)
            → get_or self.now result d ≡ get_or
            (filter (λ m. is_in connection m.queue) self.now) n d }
    {
        place_among(self.entries.as_slice(), self.index.nth_name(connection, n))
    }
}

fn count(one: bool) -> usize
    ensures { result ≡ (if one then 1 else 0) }
{
    if one { 1 } else { 0 }
}

/// Whether there may be so many names and places, and so many names of one connection.
fn are_within(names: usize, queued: usize, of_one: usize) -> bool
    ensures { result ≡ (nat_le names max_names && nat_le queued max_queued
        && nat_le of_one max_names_of_one) }
{
    names <= MAX_NAMES && queued <= MAX_QUEUED && of_one <= MAX_NAMES_OF_ONE
}

/// An entry with this name and queue in place of what it had.
fn filled(mut entry: Box<NameEntry>, name: &BusName, queue: &Queue) -> Box<NameEntry>
    ensures value { owned_name result.value ≡ record { name = name.now; queue = queue.now } }
    ensures id { result.value.id ≡ entry.value.id }
{
    entry.name = *name;
    entry.queue.copy_from(queue);
    entry
}

/// From now on all entries are spare.
fn set_aside(entries: &mut Vec<Box<NameEntry>>, spare: &mut Vec<Box<NameEntry>>)
    requires { length entries.old.items + length spare.old.items ≤ vec_capacity spare.old }
    ensures empty { entries.new.items ≡ [] }
    ensures all { length spare.new.items ≡ length entries.old.items + length spare.old.items }
    ensures room { vec_capacity entries.new ≡ vec_capacity entries.old }
    ensures spare_room { vec_capacity spare.old ≤ vec_capacity spare.new }
{
    let _ = spare.append(entries);
}

/// Makes spare entries the same as these, and puts them behind one another.
fn fill_all(
    entries: &mut Vec<Box<NameEntry>>,
    spare: &mut Vec<Box<NameEntry>>,
    others: &[Box<NameEntry>],
)
    requires empty { entries.old.items ≡ [] }
    requires has_room { length others.now ≤ vec_capacity entries.old }
    requires enough { length others.now ≤ length spare.old.items }
    ensures values { values_of entries.new.items ≡ values_of others.now }
    ensures fewer { length spare.new.items + length others.now ≡ length spare.old.items }
    ensures room { vec_capacity entries.new ≡ vec_capacity entries.old }
    ensures spare_room { vec_capacity spare.new ≡ vec_capacity spare.old }
{
    for other in others {
        let entry = spare.take_last();
        entries.push_reserved(same_as(entry, other));
    }
}

/// An entry that is the same as another.
fn same_as(mut entry: Box<NameEntry>, other: &NameEntry) -> Box<NameEntry>
    ensures { result.value ≡ other.now }
{
    entry.name = other.name;
    entry.queue.copy_from(&other.queue);
    entry.id = other.id;
    entry
}

/// Gives entries the numbers of others.
fn renumber(entries: &mut [Box<NameEntry>], others: &[Box<NameEntry>])
    requires { length entries.old ≡ length others.now }
    ensures { numbers_of entries.new ≡ numbers_of others.now }
{
    for (place, other) in others.iter().enumerate() {
        entries[place].id = other.id;
    }
}

/// Puts an entry at its place, where there is room for it.
fn insert_reserved(entries: &mut Vec<Box<NameEntry>>, place: usize, entry: Box<NameEntry>)
    requires there { place ≤ length entries.old.items }
    requires has_room { length entries.old.items < vec_capacity entries.old }
    ensures items { entries.new.items ≡ insert entries.old.items place entry }
    ensures room { vec_capacity entries.old ≤ vec_capacity entries.new }
{
    let _ = entries.insert(place, entry);
}

/// The place of a name, or the place where it would stand.
fn search(entries: &[Box<NameEntry>], name: &str) -> Result<usize, usize>
    requires { NamesRise (map (λ b. owned_name b.value) entries.now) }
    ensures { SearchGives (map (λ b. owned_name b.value) entries.now) name.now result }
{
    entries.binary_search_by(|entry| entry.name.as_str().cmp(name))
}

/// How many names come before this one.
fn place_among(entries: &[Box<NameEntry>], name: &str) -> usize
    requires { NamesRise (map (λ b. owned_name b.value) entries.now) }
    ensures bound { result ≤ length entries.now }
    ensures before { AllByRecursion (λ n. text_lt n.name name.now
        ≡ true) (take result (map (λ b. owned_name b.value) entries.now)) }
    ensures behind { AllByRecursion (λ n. text_lt n.name name.now
        ≡ false) (drop result (map (λ b. owned_name b.value) entries.now)) }
{
    entries.partition_point(|entry| entry.name.as_str() < name)
}
