//! Where things stand, by a key of each.

ghost use Rattle.std.specs.Prelude.{◌≡◌, ◌<◌, ◌≤◌, ◌+◌, ◌++◌, ◌∷◌, ◌==◌, ℕ, [], false, length, map, take, drop, insert, remove, slice_index_or, vec_capacity, IfOk, Some};
ghost use Rattle.std.specs.List.{AllByRecursion, position};
ghost use Rattle.match_index.specs.PlaceIndexes.{places_in, places_of, ByKey};

use std::alloc::{AllocError, Global};
use std::marker::Model;

/// The place of what has a key.
#[derive(Clone, Copy, Drop)]
pub struct KeyedPlace {
    pub key: u64,
    pub place: usize,
}

/// Places by rising key, so that those of a key are found by a binary search. In which order those
/// of one key stand is up to the caller: each comes behind the others of its key, or at a number
/// among them. There is room for so many.
#[derive(Drop)]
pub struct PlaceIndex {
    room: usize,
    places: Vec<KeyedPlace>,
}

impl Model for PlaceIndex {
    ghost use Rattle.std.specs.Prelude.{vec_capacity};
    ghost use Rattle.match_index.specs.PlaceIndexes.{PlacesInRoom, IsPlaceIndex};

    ghost Value = { PlacesInRoom };

    ghost view = { λ t. record { room = t.room; places = t.places.items } };

    ghost invariant = { λ t. IsPlaceIndex (record { room = t.room; places = t.places.items })
        (vec_capacity t.places) };
}

impl PlaceIndex {
    /// An index where nothing stands, with room for so many places.
    pub fn new(alloc: Global, room: usize) -> Result<PlaceIndex, AllocError>
        ensures { IfOk result (λ index. index ≡ record { room = room; places = [] }) }
    {
        Ok(PlaceIndex {
            room,
            places: Vec::with_capacity(alloc, room)?,
        })
    }

    /// How many places there are.
    pub fn len(&self) -> usize
        ensures { result ≡ length self.now.places }
    {
        self.places.len()
    }

    /// The places of a key, in order.
    pub fn of(&self, key: u64) -> &[KeyedPlace]
        ensures { places_in result.now ≡ places_of key self.now.places }
    {
        let places = self.places.as_slice();
        let start = start_of(places, key);
        let end = end_of(places, key);
        &places[start..end]
    }

    /// Which place of a key this one is, counted from 0, where it is one of them.
    pub fn number_of(&self, key: u64, place: usize) -> usize
        ensures { (n : ℕ) → position (λ p. p == place) (places_of key self.now.places) ≡ Some n
            → result ≡ n }
    {
        number_in(self.of(key), place)
    }

    /// One more place of a key, behind its others.
    pub fn add(&mut self, key: u64, place: usize)
        requires { length self.old.places < self.old.room }
        ensures own { places_of key self.new.places ≡ places_of key self.old.places ++ place ∷ [] }
        ensures others { (k : ℕ) → (key == k) ≡ false → places_of k self.new.places
            ≡ places_of k self.old.places }
        ensures all { length self.new.places ≡ length self.old.places + 1 }
        ensures room { self.new.room ≡ self.old.room }
    {
        let end = end_of(self.places.as_slice(), key);
        insert_reserved(&mut self.places, end, KeyedPlace { key, place });
    }

    /// One more place of a key, at this number among its others, counted from 0.
    pub fn insert(&mut self, key: u64, n: usize, place: usize)
        requires there { n ≤ length (places_of key self.old.places) }
        requires few { length self.old.places < self.old.room }
        ensures own { places_of key self.new.places
            ≡ insert (places_of key self.old.places) n place }
        ensures others { (k : ℕ) → (key == k) ≡ false → places_of k self.new.places
            ≡ places_of k self.old.places }
        ensures all { length self.new.places ≡ length self.old.places + 1 }
        ensures room { self.new.room ≡ self.old.room }
    {
        let start = start_of(self.places.as_slice(), key);
        insert_reserved(&mut self.places, start + n, KeyedPlace { key, place });
    }

    /// Takes out one of the places of a key, counted from 0.
    pub fn take(&mut self, key: u64, n: usize)
        requires { n < length (places_of key self.old.places) }
        ensures own { places_of key self.new.places ≡ remove (places_of key self.old.places) n }
        ensures others { (k : ℕ) → (key == k) ≡ false → places_of k self.new.places
            ≡ places_of k self.old.places }
        ensures all { length self.new.places + 1 ≡ length self.old.places }
        ensures room { self.new.room ≡ self.old.room }
    {
        let places = self.places.as_slice();
        let start = start_of(places, key);
        self.places.remove(start + n);
    }

    /// Each place becomes the one that `moves` has there.
    pub fn renumber(&mut self, moves: &[usize])
        ensures places { (k : ℕ) → places_of k self.new.places
            ≡ map (λ place. slice_index_or moves.now place 0) (places_of k self.old.places) }
        ensures all { length self.new.places ≡ length self.old.places }
        ensures room { self.new.room ≡ self.old.room }
    {
        for place in self.places.iter_mut() {
            place.place = next_place(moves, place.place);
        }
    }

    /// The same places as there. There has to be room for them.
    pub fn copy_from(&mut self, other: &PlaceIndex)
        requires same_room { self.old.room ≡ other.now.room }
        requires few { length other.now.places ≤ other.now.room }
        ensures { self.new ≡ other.now }
    {
        self.places.clear();
        let _ = self.places.extend_from_slice(other.places.as_slice());
    }
}

/// Which of these places is the first that is this one, or 0.
fn number_in(places: &[KeyedPlace], place: usize) -> usize
    ensures { (n : ℕ) → position (λ p. p.place == place) places.now ≡ Some n → result ≡ n }
{
    match position_in(places, place) {
        Some(number) => number,
        None => 0,
    }
}

fn position_in(places: &[KeyedPlace], place: usize) -> Option<usize>
    ensures { result ≡ position (λ p. p.place == place) places.now }
{
    places.iter().position(|other| other.place == place)
}

/// The place that `moves` has at a place.
fn next_place(moves: &[usize], place: usize) -> usize
    ensures { result ≡ slice_index_or moves.now place 0 }
{
    moves.get(place).copied().unwrap_or(0)
}

/// Puts a place into an index, where there is room for it.
fn insert_reserved(places: &mut Vec<KeyedPlace>, at: usize, place: KeyedPlace)
    requires there { at ≤ length places.old.items }
    requires has_room { length places.old.items < vec_capacity places.old }
    ensures items { places.new.items ≡ insert places.old.items at place }
    ensures room { vec_capacity places.old ≤ vec_capacity places.new }
{
    let _ = places.insert(at, place);
}

/// How many places come before those of a key.
fn start_of(places: &[KeyedPlace], key: u64) -> usize
    requires { ByKey places.now }
    ensures bound { result ≤ length places.now }
    ensures before { AllByRecursion (λ p. p.key < key) (take result places.now) }
    ensures behind { AllByRecursion (λ p. key ≤ p.key) (drop result places.now) }
{
    places.partition_point(|place| place.key < key)
}

/// How many places there are up to the last of a key.
fn end_of(places: &[KeyedPlace], key: u64) -> usize
    requires { ByKey places.now }
    ensures bound { result ≤ length places.now }
    ensures before { AllByRecursion (λ p. p.key ≤ key) (take result places.now) }
    ensures behind { AllByRecursion (λ p. key < p.key) (drop result places.now) }
{
    places.partition_point(|place| place.key <= key)
}
