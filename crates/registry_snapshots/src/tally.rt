//! How many changes a seat made.

ghost use Rattle.std.specs.Prelude.{◌≡◌, ◌+◌, ◌<◌, ◌^◌};
ghost use Rattle.registry_snapshots.specs.Tallies.{tallied};

use registry_snapshots_core::Naming;
use std::marker::Model;
use std::sync::ledger::{Book, Share};

/// How many changes a seat made. They are counted in the ledger of its registry, too, whose book
/// has as many as all seats made.
///
/// Contracts see their count, and how many parts of the ledger the seat has.
#[derive(Drop)]
pub(crate) struct Tally<J: Naming> {
    made: u64,
    share: Share<J>,
}

impl<J: Naming> Model for Tally<J> {
    ghost use Rattle.std.specs.Prelude.{◌≡◌};
    ghost use Rattle.registry_snapshots.specs.Tallies.{Tallied, tallied};

    ghost Value = { Tallied };

    ghost view = { λ t. tallied t.made t.share.parts };

    ghost invariant = { λ t. t.share.amount ≡ t.made };
}

impl<J: Naming> Tally<J> {
    /// That of a seat that made none.
    pub(crate) fn new(share: Share<J>) -> Tally<J>
        requires { share.amount ≡ 0 }
        ensures { result ≡ tallied 0 share.parts }
    {
        Tally { made: 0, share }
    }

    pub(crate) fn made(&self) -> u64
        ensures { result ≡ self.now.made }
    {
        self.made
    }

    /// The seat made so many more.
    pub(crate) fn add(&mut self, ledger: &mut Book<J>, count: u64)
        requires part { 0 < self.old.parts }
        requires room { self.old.made + count < 2 ^ 64 }
        ensures made { self.new ≡ tallied (self.old.made + count) self.old.parts }
        ensures total { ledger.new.total ≡ ledger.old.total + count }
    {
        ledger.add(&mut self.share, count);
        self.made += count;
    }

    /// Gives all to a share of others.
    pub(crate) fn merge_into(self, all: &mut Share<J>)
        ensures parts { all.new.parts ≡ all.old.parts + self.parts }
        ensures amount { all.new.amount ≡ all.old.amount + self.made }
    {
        let Tally { made: _, share } = self;
        all.merge(share);
    }
}
