//! Which names each connection owns or waits for.

ghost use Rattle.std.specs.Prelude.{◌≡◌, ◌<◌, ◌≤◌, ◌+◌, ◌==◌, ℕ, [], false, true, length, take, drop, get_or, count_by, if◌then◌else◌, IfOk};
ghost use Rattle.std.specs.List.{AllByRecursion};
ghost use Rattle.names.specs.Texts.{text_lt};
ghost use Rattle.owner_queues.specs.Queues.{is_in};
ghost use Rattle.match_index.specs.PlaceIndexes.{places_in, places_of};
ghost use Rattle.registry_core.specs.NameIndexes.{held, name_at, AreByName, AreSorted};

use match_index::{KeyedPlace, PlaceIndex};
use names::BusName;
use owner_queues::{Queue, QueuedOwner};
use seq_bus_core::limits::{MAX_NAMES, MAX_QUEUED};
use std::alloc::{AllocError, Global};
use std::marker::Model;

/// Which names each connection owns or waits for: the numbers of the names by connection, and those
/// of one connection by the rising bytes of their names, so that they are found by a binary search.
/// A name has its number to itself as long as somebody is in its queue. There is room for as many
/// as there can be places in queues.
#[derive(Drop)]
pub struct NameIndex {
    /// By the number of a connection.
    places: PlaceIndex,
    /// The names by their numbers.
    names: Vec<BusName>,
}

impl Model for NameIndex {
    ghost use Rattle.registry_core.specs.NameIndexes.{IndexedNames, IsIndex};

    ghost Value = { IndexedNames };

    ghost view = { λ t. record { places = t.places.places; names = t.names.items } };

    ghost invariant = { λ t. IsIndex
        (record { places = t.places.places; names = t.names.items }) t.places.room };
}

impl NameIndex {
    /// An index where nobody has a name.
    pub fn new(alloc: Global) -> Result<NameIndex, AllocError>
        ensures { IfOk result (λ index. index.places ≡ []) }
    {
        let mut names = Vec::with_capacity(alloc, MAX_NAMES)?;
        for _number in 0..MAX_NAMES {
            names.push_reserved(BusName::bus());
        }
        Ok(NameIndex {
            places: PlaceIndex::new(alloc, MAX_QUEUED)?,
            names,
        })
    }

    /// From now on a number that nobody holds is that of this name.
    pub fn rename(&mut self, id: usize, name: &BusName)
        requires there { id < MAX_NAMES }
        requires unused { (c : ℕ) → held c id self.old.places ≡ 0 }
        ensures places { self.new.places ≡ self.old.places }
        ensures own { name_at self.new.names id ≡ name.now }
        ensures others { (i : ℕ) → (id == i) ≡ false
            → name_at self.new.names i ≡ name_at self.old.names i }
    {
        self.names[id] = *name;
    }

    /// How many names a connection owns or waits for.
    pub fn count_of(&self, connection: u64) -> usize
        ensures value { result ≡ length (places_of connection self.now.places) }
        ensures sorted { AreSorted self.now.names self.now.places }
    {
        self.places.of(connection).len()
    }

    /// One of the names that a connection owns or waits for, counted from 0 by rising bytes.
    pub fn nth_name(&self, connection: u64, n: usize) -> &str
        ensures value { n < length (places_of connection self.now.places)
            → result.now ≡ name_at self.now.names
            (get_or (places_of connection self.now.places) n 0) }
        ensures sorted { AreSorted self.now.names self.now.places }
    {
        match self.places.of(connection).get(n) {
            Some(place) => name_of(self.names.as_slice(), place.place),
            None => "",
        }
    }

    /// A name has this queue in place of another.
    pub fn replace(&mut self, id: usize, old: &Queue, new: &Queue)
        requires held { (c : ℕ) → (if is_in c old.now then 1 else 0) ≤ held c id self.old.places }
        requires few { length self.old.places + length new.now ≤ MAX_QUEUED + length old.now }
        ensures its { (c : ℕ) → held c id self.new.places + (if is_in c old.now then 1 else 0)
            ≡ held c id self.old.places + (if is_in c new.now then 1 else 0) }
        ensures others { (c i : ℕ) → (id == i) ≡ false
            → held c i self.new.places ≡ held c i self.old.places }
        ensures all { length self.new.places + length old.now
            ≡ length self.old.places + length new.now }
        ensures names { self.new.names ≡ self.old.names }
    {
        self.take_all(id, old.as_slice());
        self.add_all(id, new.as_slice());
    }

    /// Each connection of a queue has the name.
    pub fn add_all(&mut self, id: usize, queue: &[QueuedOwner])
        requires { length self.old.places + length queue.now ≤ MAX_QUEUED }
        ensures its { (c : ℕ) → held c id self.new.places
            ≡ held c id self.old.places + count_by (λ o. o.connection == c) queue.now }
        ensures others { (c i : ℕ) → (id == i) ≡ false
            → held c i self.new.places ≡ held c i self.old.places }
        ensures all { length self.new.places ≡ length self.old.places + length queue.now }
        ensures names { self.new.names ≡ self.old.names }
    {
        for owner in queue {
            self.add(id, owner.connection);
        }
    }

    /// Each connection of a queue has the name no longer.
    pub fn take_all(&mut self, id: usize, queue: &[QueuedOwner])
        requires { (c : ℕ) → count_by (λ o. o.connection == c) queue.now
            ≤ held c id self.old.places }
        ensures its { (c : ℕ) → held c id self.new.places
            + count_by (λ o. o.connection == c) queue.now ≡ held c id self.old.places }
        ensures others { (c i : ℕ) → (id == i) ≡ false
            → held c i self.new.places ≡ held c i self.old.places }
        ensures all { length self.new.places + length queue.now ≡ length self.old.places }
        ensures names { self.new.names ≡ self.old.names }
    {
        for owner in queue {
            self.take(id, owner.connection);
        }
    }

    /// The same names as there, and the same numbers of each connection.
    pub fn copy_from(&mut self, other: &NameIndex)
        requires few { length other.now.places ≤ MAX_QUEUED }
        ensures { self.new ≡ other.now }
    {
        self.places.copy_from(&other.places);
        self.names.copy_from_slice(&other.names);
    }

    /// A connection has the name.
    fn add(&mut self, id: usize, connection: u64)
        requires { length self.old.places < MAX_QUEUED }
        ensures its { (c : ℕ) → held c id self.new.places
            ≡ held c id self.old.places + (if connection == c then 1 else 0) }
        ensures others { (c i : ℕ) → (id == i) ≡ false
            → held c i self.new.places ≡ held c i self.old.places }
        ensures all { length self.new.places ≡ length self.old.places + 1 }
        ensures names { self.new.names ≡ self.old.names }
    {
        let names = self.names.as_slice();
        let n = place_among(self.places.of(connection), names, name_of(names, id));
        self.places.insert(connection, n, id);
    }

    /// A connection has the name no longer.
    pub fn take(&mut self, id: usize, connection: u64)
        requires { 0 < held connection id self.old.places }
        ensures its { (c : ℕ) → held c id self.new.places + (if connection == c then 1 else 0)
            ≡ held c id self.old.places }
        ensures others { (c i : ℕ) → (id == i) ≡ false
            → held c i self.new.places ≡ held c i self.old.places }
        ensures all { length self.new.places + 1 ≡ length self.old.places }
        ensures names { self.new.names ≡ self.old.names }
    {
        let n = self.places.number_of(connection, id);
        self.places.take(connection, n);
    }
}

/// The name of a number.
fn name_of(names: &[BusName], id: usize) -> &str
    ensures { result.now ≡ name_at names.now id }
{
    match names.get(id) {
        Some(name) => name.as_str(),
        None => "",
    }
}

/// How many of the names of a connection come before this one.
fn place_among(places: &[KeyedPlace], names: &[BusName], name: &str) -> usize
    requires { AreByName names.now (places_in places.now) }
    ensures bound { result ≤ length places.now }
    ensures before { AllByRecursion (λ id. text_lt (name_at names.now id) name.now
        ≡ true) (take result (places_in places.now)) }
    ensures behind { AllByRecursion (λ id. text_lt (name_at names.now id) name.now
        ≡ false) (drop result (places_in places.now)) }
{
    places.partition_point(|place| name_of(names, place.place) < name)
}
