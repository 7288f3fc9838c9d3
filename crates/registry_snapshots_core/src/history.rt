//! The one history of a registry: a word with its length, and the beginnings of it that were seen.

ghost use Rattle.std.specs.Prelude.{◌≡◌, ◌+◌, ◌==◌, ◌<◌, ◌≤◌, ◌^◌, ◌++◌, ◌∷◌, [], length, MatchBool, IfSome};
ghost use Rattle.seq_bus_core.specs.Batches.{entries_of};
ghost use Rattle.seq_bus_core.specs.Histories.{IsLegal, Begins};
ghost use Rattle.registry_snapshots_core.specs.Copies.{prefix_of};
ghost use Rattle.registry_snapshots_core.specs.Seating.{all_parts};

use logbook::{Gain, Offer, Plain, Play, Rule, Seen, Start, Word};
use seq_bus_core::limits::MAX_ROUTERS;
use seq_bus_core::{Change, Entry};
use std::collections::LinkedList;
use std::marker::Model;
use std::sync::ledger::Blank;

/// The entries that are published together. No value of it is made.
pub struct Publication {
    pub entries: LinkedList<Entry>,
}

/// The rule of the book: its word is the length of the history, which is legal.
pub struct HistoryRule;

impl Rule<Publication, u64> for HistoryRule {
    ghost use Rattle.std.specs.Prelude.{[]};
    ghost use base.Fml.{ftrue};
    ghost use Rattle.registry_snapshots_core.specs.Publications.{IsKept};

    ghost holds = { λ cells log. IsKept cells log };

    ghost first = { [] };

    ghost hinted = { λ n log. Unit {0} };

    ghost shows = { λ log. [] };

    ghost keeps = { λ names log. ftrue };

    ghost moves = { λ ask before after answer. Unit {0} };
}

/// Callers trade nothing.
pub struct NoTrade;

impl Gain<Publication, u64> for NoTrade {
    ghost use base.Fml.{ftrue};

    ghost after = { λ names about answer. ftrue };
}

/// A step that adds a publication.
pub struct Append;

impl Play<Publication, u64> for Append {
    ghost use Rattle.registry_snapshots_core.specs.Publications.{Adds};

    ghost then = { Adds };
}

/// The next change of a seat, which is lent: a change is large.
///
/// Contracts see the entry of the history that it becomes.
#[derive(Drop)]
pub struct NextEntry<'a> {
    pub seat: u8,
    /// Its number among the changes of the seat.
    pub number: u64,
    pub change: &'a Change,
}

impl<'a> Model for NextEntry<'a> {
    ghost use Rattle.seq_bus_core.specs.Histories.{entry_alone};
    ghost use Rattle.seq_bus_core.specs.declared.entry.Entry.{Entry as Made};

    ghost Value = { Made };

    ghost view = { λ e. entry_alone e.seat e.number e.change.now };
}

/// What a step asks for: the publication of one entry.
impl<'a> Plain<NextEntry<'a>, Publication, u64> for Append {
    ghost use Rattle.std.specs.Prelude.{None};
    ghost use Rattle.registry_snapshots_core.specs.Publications.{publication_of};

    ghost ask = { publication_of };

    ghost state = { λ entry. None };
}

/// Changes of a seat that are published together, in order.
#[derive(Drop)]
pub struct Batch {
    pub seat: u8,
    /// The number of the first among the changes of the seat.
    pub first: u64,
    pub changes: Vec<Change>,
}

/// What a step asks for: the publication of a batch.
impl Plain<Batch, Publication, u64> for Append {
    ghost use Rattle.std.specs.Prelude.{None};
    ghost use Rattle.registry_snapshots_core.specs.Publications.{publication_of_batch};

    ghost ask = { publication_of_batch };

    ghost state = { λ batch. None };
}

/// The word with the length of the history. Contracts see it as the book that it is of.
#[derive(Drop)]
pub struct Head {
    word: Word<Publication, u64, HistoryRule>,
}

impl Model for Head {
    ghost use Rattle.std.specs.Prelude.{◌≡◌};
    ghost use Rattle.logbook.specs.Pages.{Book};
    ghost use Rattle.registry_snapshots_core.specs.Publications.{head_of};

    ghost Value = { Book };

    ghost view = { λ h. h.word.book };

    ghost invariant = { λ h. h.word ≡ head_of h.word.book };
}

/// A beginning of the history that was seen, of which only the length is stored. Contracts see its
/// book and its entries.
#[derive(Drop)]
pub struct Prefix {
    count: u64,
    seen: Seen<Publication, u64, HistoryRule>,
}

impl Model for Prefix {
    ghost use Rattle.std.specs.Prelude.{◌≡◌, length};
    ghost use Rattle.seq_bus_core.specs.Histories.{IsLegal};
    ghost use Rattle.registry_snapshots_core.specs.Copies.{PrefixView};
    ghost use Rattle.registry_snapshots_core.specs.Publications.{flat};

    ghost Value = { PrefixView };

    ghost view = { λ f. record { book = f.seen.book; log = flat f.seen.log } };

    ghost invariant = { λ f. (f.count ≡ length (flat f.seen.log)) × IsLegal (flat f.seen.log) };
}

/// How many parts a registry's ledger has, one for each seat that there may be.
const PARTS: u64 = MAX_ROUTERS as u64 + 1;

/// An empty history, and the ledger of its seats, which have no name yet.
#[derive(Drop)]
pub struct NewHistory {
    head: Head,
    prefix: Prefix,
    ledger: Blank,
}

impl Model for NewHistory {
    ghost use Rattle.std.specs.Prelude.{◌≡◌, []};
    ghost use Rattle.registry_snapshots_core.specs.Copies.{Identity, identity};
    ghost use Rattle.registry_snapshots_core.specs.Seating.{all_parts};

    ghost Value = { Identity };

    ghost view = { λ o. identity o.prefix.book o.ledger.name o.ledger.parts };

    ghost invariant = { λ o. (o.head ≡ o.prefix.book) × (o.prefix.log ≡ [])
        × (o.ledger.parts ≡ all_parts) };
}

impl NewHistory {
    pub fn new() -> NewHistory {
        let (seen, mut first, _second) = Seen::open(Start::alone(), 0, 0);
        NewHistory {
            head: Head {
                word: Word::tracked(0, &mut first),
            },
            prefix: Prefix { count: 0, seen },
            ledger: Blank::new(PARTS),
        }
    }

    /// The word with its length, the prefix that has seen nothing, and the ledger.
    pub fn parts(self) -> (Head, Prefix, Blank)
        ensures history { (result.0 ≡ self.book) × (result.1.book ≡ self.book)
            × (result.1.log ≡ []) }
        ensures ledger { (result.2.name ≡ self.ledger) × (result.2.parts ≡ self.parts)
            × (self.parts ≡ all_parts) }
    {
        let NewHistory {
            head,
            prefix,
            ledger,
        } = self;
        (head, prefix, ledger)
    }
}

impl Prefix {
    /// How many changes it has.
    pub fn len(&self) -> u64
        ensures length { result ≡ length self.now.log }
        ensures legal { IsLegal self.now.log }
    {
        self.count
    }

    /// A copy, which takes no memory.
    pub fn copy(&self) -> Prefix
        ensures { result ≡ self.now }
    {
        Prefix {
            count: self.count,
            seen: self.seen.again(),
        }
    }

    /// Of two beginnings of one history, whether this one begins the other.
    pub fn begins(&self, other: &Prefix) -> bool
        requires { other.now.book ≡ self.now.book }
        ensures { MatchBool result (Begins self.now.log other.now.log)
            (Begins other.now.log self.now.log × (length other.now.log < length self.now.log)) }
    {
        let mut both = self.seen.again();
        both.learn(&other.seen);
        self.count <= other.count
    }

    /// Publishes an entry behind all that was seen, where that is the whole history.
    pub fn add(&self, head: &Head, entry: &NextEntry<'_>) -> Option<Prefix>
        requires book { head.now ≡ self.now.book }
        requires room { length self.now.log < 2 ^ 63 }
        requires legal { IsLegal (self.now.log ++ entry.now ∷ []) }
        ensures { IfSome result (λ f.
            f ≡ prefix_of self.now.book (self.now.log ++ entry.now ∷ [])) }
    {
        let mut seen = self.seen.again();
        let mut offer: Offer<Publication, u64, HistoryRule, NoTrade> = seen.plain::<
            NoTrade,
            NextEntry<'_>,
            Append,
        >(entry);
        let mut pen = seen.no_pen();
        let count = self.count;
        let found = head
            .word
            .compare_exchange::<Append, NoTrade>(count, count + 1, &mut seen, &mut offer, &mut pen);
        if found != count {
            return None;
        }
        Some(Prefix {
            count: count + 1,
            seen,
        })
    }

    /// Publishes the entries of a batch together behind all that was seen, where that is the whole
    /// history.
    pub fn add_all(&self, head: &Head, batch: &Batch) -> Option<Prefix>
        requires book { head.now ≡ self.now.book }
        requires room { length self.now.log + length batch.now.changes.items ≤ 2 ^ 63 }
        requires legal { IsLegal (self.now.log
            ++ entries_of batch.now.seat batch.now.first batch.now.changes.items) }
        ensures { IfSome result (λ f. f ≡ prefix_of self.now.book (self.now.log
            ++ entries_of batch.now.seat batch.now.first batch.now.changes.items)) }
    {
        let mut seen = self.seen.again();
        let mut offer: Offer<Publication, u64, HistoryRule, NoTrade> = seen.plain::<
            NoTrade,
            Batch,
            Append,
        >(batch);
        let mut pen = seen.no_pen();
        let count = self.count;
        let next = count + batch.changes.len() as u64;
        let found = head
            .word
            .compare_exchange::<Append, NoTrade>(count, next, &mut seen, &mut offer, &mut pen);
        if found != count {
            return None;
        }
        Some(Prefix { count: next, seen })
    }
}
