//! The queue of a name.

ghost use Rattle.std.specs.Prelude.{◌≡◌, ◌==◌, ◌<◌, ◌≤◌, ◌↔◌, false, [], ◌∷◌, ◌++◌, drop, length, IsTrue};
ghost use Rattle.std.specs.List.{position};
ghost use Rattle.std.specs.Slice.Iter.{iter_rest};
ghost use Rattle.owner_queues.specs.Queues.{HasRoom, IsQueue, demoted, entry_of, is_free, is_in, joined, left, queue_head, released, requested, without};

use crate::{Profile, QueuedOwner, Reply, RequestFlags};
use arrayvec::ArrayVec;
use std::marker::Model;
use std::slice;

/// The most places of one queue: a bus has at most so many connections, and each of them stands in
/// a queue once.
pub const MAX_PLACES: usize = 256;

type Places = ArrayVec<QueuedOwner, MAX_PLACES>;

/// The queue of a name: its owner first, then those who wait, in order. No call takes memory, and
/// each takes time only in proportion to the places that are taken. (D-Bus Specification:
/// `org.freedesktop.DBus.RequestName`, `org.freedesktop.DBus.ReleaseName`.)
#[derive(Debug, Drop)]
pub struct Queue {
    places: Places,
}

impl Model for Queue {
    ghost use Rattle.owner_queues.specs.Queues.{Queue as Places, IsQueue};

    ghost Value = { Places };

    ghost view = { λ queue. queue.places.items };

    ghost invariant = { λ queue. IsQueue queue.places.items };
}

impl Queue {
    /// The queue of a name that nobody owns.
    pub fn new() -> Self
        ensures { result ≡ [] }
    {
        Queue {
            places: ArrayVec::new(),
        }
    }

    /// Makes this queue like another.
    pub fn copy_from(&mut self, other: &Queue)
        ensures { self.new ≡ other.now }
    {
        self.places.clear();
        let _ = self.places.try_extend_from_slice(other.places.as_slice());
    }

    /// Whether nobody owns the name.
    pub fn is_empty(&self) -> bool
        ensures { result ≡ is_free self.now }
    {
        self.places.is_empty()
    }

    /// The connection that owns the name.
    pub fn head(&self) -> Option<u64>
        ensures { result ≡ queue_head self.now }
    {
        match self.as_slice().first() {
            Some(owner) => Some(owner.connection),
            None => None,
        }
    }

    /// The owner and those who wait, in order.
    pub fn as_slice(&self) -> &[QueuedOwner]
        ensures value { result.now ≡ self.now }
        ensures once { IsQueue self.now }
        ensures bound { length self.now ≤ MAX_PLACES }
    {
        self.places.as_slice()
    }

    /// The owner and those who wait, one by one.
    pub fn iter(&self) -> slice::Iter<'_, QueuedOwner>
        ensures { iter_rest result ≡ self.now }
    {
        self.as_slice().iter()
    }

    /// Whether the connection owns the name or waits for it.
    pub fn contains(&self, connection: u64) -> bool
        ensures { result ≡ is_in connection self.now }
    {
        self.as_slice()
            .iter()
            .any(|place| place.connection == connection)
    }

    /// Whether a request has room: there is a free place, or the connection has one.
    pub fn has_room(&self, connection: u64) -> bool
        ensures { IsTrue result ↔ HasRoom connection self.now }
    {
        !self.places.is_full() || self.contains(connection)
    }

    /// A connection requests the name. The profile says where it waits if it would replace the
    /// owner and can't.
    pub fn request(&mut self, connection: u64, flags: RequestFlags, profile: Profile) -> Reply
        requires { HasRoom connection self.old }
        ensures queue { self.new ≡ (requested profile connection flags self.old).0 }
        ensures reply { result ≡ (requested profile connection flags self.old).1 }
    {
        let entry = entry_of(connection, flags);
        let Some(owner) = self.places.as_slice().first().copied() else {
            self.places.push(entry);
            return Reply::PrimaryOwner;
        };
        if owner.connection == connection {
            self.places[0] = entry;
            return Reply::AlreadyOwner;
        }
        if owner.allow_replacement && flags.replace_existing {
            replace_owner(&mut self.places, owner, entry);
            return Reply::PrimaryOwner;
        }
        if flags.do_not_queue {
            take_out(&mut self.places, connection);
            return Reply::Exists;
        }
        if flags.replace_existing && profile == Profile::Two {
            wait_first(&mut self.places, owner, entry);
        } else {
            wait(&mut self.places, entry);
        }
        Reply::InQueue
    }

    /// A connection releases the name.
    pub fn release(&mut self, connection: u64) -> Reply
        ensures queue { self.new ≡ (released connection self.old).0 }
        ensures reply { result ≡ (released connection self.old).1 }
    {
        if self.contains(connection) {
            self.leave(connection);
            Reply::Released
        } else if self.is_empty() {
            Reply::NonExistent
        } else {
            Reply::NotOwner
        }
    }

    /// A connection gives up its place, if it has one.
    pub fn leave(&mut self, connection: u64)
        ensures { self.new ≡ left connection self.old }
    {
        take_out(&mut self.places, connection);
    }
}

/// The entry of a connection that requests a name.
fn entry_of(connection: u64, flags: RequestFlags) -> QueuedOwner
    ensures { result ≡ entry_of connection flags }
{
    QueuedOwner {
        connection,
        allow_replacement: flags.allow_replacement,
        do_not_queue: flags.do_not_queue,
    }
}

fn take_out(places: &mut Places, connection: u64)
    ensures { places.new.items ≡ without connection places.old.items }
{
    places.retain(|place| place.connection != connection);
}

/// A new entry in place of the owner, who waits next unless it asked not to wait.
fn replace_owner(places: &mut Places, owner: QueuedOwner, entry: QueuedOwner)
    requires owned { places.old.items ≡ owner ∷ drop 1 places.old.items }
    requires another { (owner.connection == entry.connection) ≡ false }
    requires room { length (without entry.connection places.old.items) < MAX_PLACES }
    ensures { places.new.items
        ≡ entry ∷ demoted owner ++ without entry.connection (drop 1 places.old.items) }
{
    take_out(places, entry.connection);
    if owner.do_not_queue {
        places[0] = entry;
    } else {
        places.insert(0, entry);
    }
}

/// A new entry waits before all others.
fn wait_first(places: &mut Places, owner: QueuedOwner, entry: QueuedOwner)
    requires owned { places.old.items ≡ owner ∷ drop 1 places.old.items }
    requires another { (owner.connection == entry.connection) ≡ false }
    requires room { length (without entry.connection places.old.items) < MAX_PLACES }
    ensures { places.new.items
        ≡ owner ∷ entry ∷ without entry.connection (drop 1 places.old.items) }
{
    take_out(places, entry.connection);
    places.insert(1, entry);
}

/// A new entry in the place that its connection has, or behind all others.
fn wait(places: &mut Places, entry: QueuedOwner)
    requires once { IsQueue places.old.items }
    requires room { HasRoom entry.connection places.old.items }
    ensures { places.new.items ≡ joined entry places.old.items }
{
    match place_of(places.as_slice(), entry.connection) {
        Some(place) => places[place] = entry,
        None => places.push(entry),
    }
}

fn place_of(places: &[QueuedOwner], connection: u64) -> Option<usize>
    ensures { result ≡ position (λ place. place.connection == connection) places.now }
{
    places
        .iter()
        .position(|place| place.connection == connection)
}
