//! The registry as it is, where rules that are tested are counted.

ghost use Rattle.std.specs.Prelude.{◌≡◌};

use crate::registry::Registry;
use audience::Audience;
use match_index::Steps;
use match_rules::{Facts, Owners};
use seq_bus_core::{Conn, Recipients};
use std::marker::PhantomData;
use std::sync::ledger::Ledger;

/// The registry as it is, asked who gets a message. Each rule that is tested is a step.
#[derive(Drop)]
pub struct Current<'a, L: Ledger> {
    registry: &'a Registry,
    counter: PhantomData<L>,
}

impl<'a, L: Ledger> Current<'a, L> {
    pub fn new(registry: &'a Registry) -> Current<'a, L>
        ensures { result.registry.now ≡ registry.now }
    {
        Current {
            registry,
            counter: PhantomData,
        }
    }
}

impl<'a, L: Ledger> Owners for Current<'a, L> {
    ghost use Rattle.seq_bus_core.specs.BusState.{head_of};

    ghost heads = { λ c. head_of c.registry.now };

    fn head(&self, name: &str) -> Option<u64> {
        self.registry.head(name)
    }
}

impl<'a, L: Ledger> Audience for Current<'a, L> {
    ghost use Rattle.std.specs.Prelude.{◌≤◌, ◌+◌, refl};
    ghost use Rattle.match_index.specs.Near.{near_rules};

    type Count = Steps<L>;

    ghost state = { λ c. c.registry.now };

    ghost spends = { λ c facts old new. new ≤ old + near_rules facts c.registry.now.rules };

    ghost owns = { λ c. refl };

    fn add_wanting(&self, facts: &Facts<'_>, to: &mut Recipients, count: &mut Steps<L>) {
        self.registry.add_all_that_want(facts, self, to, count);
    }

    fn add_shown(&self, facts: &Facts<'_>, shown: &mut Recipients) {
        self.registry.add_monitors_shown(facts, self, shown);
    }

    fn has_monitors(&self) -> bool {
        self.registry.has_monitors()
    }

    fn has_rules(&self) -> bool {
        self.registry.has_rules()
    }

    fn conn(&self, number: u64) -> Option<Conn> {
        self.registry.only_conn(number)
    }

    fn is_client(&self, number: u64) -> bool {
        self.registry.is_client(number)
    }

    fn is_service(&self, name: &str) -> bool {
        self.registry.is_service(name)
    }
}
