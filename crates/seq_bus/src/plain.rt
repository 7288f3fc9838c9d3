//! The plain bus, seen by the one who uses it.

ghost use Rattle.std.specs.Prelude.{◌≡◌};

use crate::bus::SeqBus;
use bus_view::{AskFault, Asked, BusView, Gone, Refused, RefusedAll};
use match_rules::Facts;
use seq_bus_core::{Change, Outcome, Query, Verdict};

impl BusView for SeqBus {
    type Note = ();

    type Right = ();

    ghost use Rattle.std.specs.Prelude.{true, []};
    ghost use Rattle.seq_bus.specs.PlainViews.{knowledge_of};

    ghost alone = { true };

    ghost knows = { knowledge_of };

    ghost told = { λ _. [] };

    ghost registry_of = { λ _. 0 };

    fn change(&mut self, _right: &(), change: Change) -> Result<(Outcome, ()), Refused> {
        let _legal = self.history();
        let made = SeqBus::change(self, change);
        let _legal = self.history();
        match made {
            Ok(outcome) => Ok((outcome, ())),
            Err(refused) => Err(refused),
        }
    }

    fn change_all(
        &mut self,
        _right: &(),
        changes: Vec<Change>,
    ) -> Result<(Vec<Outcome>, ()), RefusedAll> {
        let _legal = self.history();
        let made = SeqBus::change_all(self, changes);
        let _legal = self.history();
        match made {
            Ok(outcomes) => Ok((outcomes, ())),
            Err(refused) => Err(refused),
        }
    }

    fn ask(&mut self, query: &Query, body: &mut Vec<u8>) -> Result<Asked, AskFault> {
        let _legal = self.history();
        SeqBus::ask(self, query, body)
    }

    fn route(&mut self, from: u64, facts: &Facts<'_>) -> Result<Verdict, Gone> {
        let _legal = self.history();
        Ok(SeqBus::route(self, from, facts))
    }

    fn route_into(
        &mut self,
        from: u64,
        facts: &Facts<'_>,
        found: &mut Verdict,
    ) -> Result<(), Gone> {
        let _legal = self.history();
        SeqBus::route_into(self, from, facts, found);
        Ok(())
    }

    fn present(&mut self, number: u64) -> Result<bool, Gone> {
        let _legal = self.history();
        Ok(SeqBus::present(self, number))
    }

    // It is asked each time.
    fn is_watched(&self) -> bool {
        true
    }

    fn take_note(&mut self, _note: &()) {}

    fn note(&self) -> Option<()> {
        if self.history().is_empty() {
            return None;
        }
        Some(())
    }

    fn place(&self) -> u64 {
        self.history().len() as u64
    }

    // Nobody else makes any.
    fn made(&self) -> u64 {
        self.history().len() as u64
    }

    fn last(&self) -> u64 {
        self.place()
    }

    fn seat(&self) -> u8 {
        SeqBus::seat(self)
    }
}
