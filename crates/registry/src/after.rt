//! The registry as it will be once a change is made.

ghost use Rattle.std.specs.Prelude.{◌≡◌};
ghost use Rattle.registry.specs.Pendings.{leaver_of};

use crate::registry::Registry;
use audience::Audience;
use match_rules::{Facts, Owners, Rule};
use names::BusName;
use owner_queues::Queue;
use seq_bus_core::{Conn, Recipients};
use std::marker::Model;

/// A change that is about to be made, by what becomes of connections, names and rules.
#[derive(Drop)]
pub enum Pending<'a> {
    /// A connection says Hello.
    Joined { conn: Conn, privileged: bool },
    /// A name has another queue.
    Requeued { name: &'a BusName, queue: &'a Queue },
    /// A connection leaves.
    Left { connection: u64 },
    /// A connection becomes a monitor.
    Becoming { connection: u64, rules: &'a [Rule] },
}

impl<'a> Pending<'a> {
    /// The connection whose rules go.
    fn leaver(&self) -> Option<u64>
        ensures { result ≡ leaver_of self.now }
    {
        match self {
            Pending::Left { connection } => Some(*connection),
            Pending::Becoming { connection, .. } => Some(*connection),
            Pending::Joined { .. } => None,
            Pending::Requeued { .. } => None,
        }
    }
}

/// The registry as it will be once a change is made.
///
/// Contracts see the state after the change.
#[derive(Drop)]
pub struct After<'a> {
    pub registry: &'a Registry,
    pub pending: Pending<'a>,
}

impl<'a> Model for After<'a> {
    ghost use Rattle.seq_bus_core.specs.BusState.{BusState};
    ghost use Rattle.registry.specs.Pendings.{IsDue, state_after};

    ghost Value = { BusState };

    ghost view = { λ a. state_after a.pending a.registry.now };

    ghost invariant = { λ a. IsDue a.pending a.registry.now };
}

impl<'a> Owners for After<'a> {
    ghost use Rattle.seq_bus_core.specs.BusState.{head_of};

    ghost heads = { head_of };

    fn head(&self, name: &str) -> Option<u64> {
        match &self.pending {
            Pending::Joined { conn, .. } => self.registry.head_joined(*conn, name),
            Pending::Requeued {
                name: changed,
                queue,
            } => self.registry.head_requeued(changed, queue, name),
            Pending::Left { connection } => self.registry.head_without(*connection, name),
            Pending::Becoming { connection, .. } => self.registry.head_without(*connection, name),
        }
    }
}

impl<'a> Audience for After<'a> {
    ghost use Rattle.std.specs.Prelude.{refl};

    type Count = ();

    ghost state = { λ s. s };

    ghost spends = { λ s facts old new. Unit {0} };

    ghost owns = { λ s. refl };

    fn add_wanting(&self, facts: &Facts<'_>, to: &mut Recipients, count: &mut ()) {
        self.registry
            .add_those_that_want(facts, self, self.pending.leaver(), to);
    }

    fn add_shown(&self, facts: &Facts<'_>, shown: &mut Recipients) {
        match &self.pending {
            Pending::Joined { .. } => self.registry.add_monitors_shown(facts, self, shown),
            Pending::Requeued { .. } => { self.registry.add_monitors_shown(facts, self, shown) }
            Pending::Left { .. } => { self.registry.add_monitors_shown(facts, self, shown) }
            Pending::Becoming { connection, rules } => self
                .registry
                .add_shown_with(facts, self, *connection, rules, shown),
        }
    }

    fn has_monitors(&self) -> bool {
        match &self.pending {
            Pending::Becoming { .. } => true,
            Pending::Joined { .. } => self.registry.has_monitors(),
            Pending::Requeued { .. } => self.registry.has_monitors(),
            Pending::Left { .. } => self.registry.has_monitors(),
        }
    }

    fn has_rules(&self) -> bool {
        self.registry.has_rules()
    }

    fn conn(&self, number: u64) -> Option<Conn> {
        let there = self.registry.only_conn(number);
        match &self.pending {
            Pending::Left { connection } => { if *connection == number { None } else { there } }
            Pending::Joined { conn, .. } => {
                if conn.number == number {
                    Some(*conn)
                } else {
                    there
                }
            }
            Pending::Requeued { .. } => there,
            Pending::Becoming { .. } => there,
        }
    }

    fn is_client(&self, number: u64) -> bool {
        match &self.pending {
            Pending::Left { connection } => self.registry.is_client_without(*connection, number),
            Pending::Becoming { connection, .. } => {
                self.registry.is_client_without(*connection, number)
            }
            Pending::Joined { conn, .. } => {
                conn.number == number || self.registry.is_client(number)
            }
            Pending::Requeued { .. } => self.registry.is_client(number),
        }
    }

    fn is_service(&self, name: &str) -> bool {
        self.registry.is_service(name)
    }
}
