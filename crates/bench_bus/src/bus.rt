//! A seat of the registry, and what is done at it.

use crate::samples::{BATCH, TICKETS, release, request, rule_change};
use match_rules::{Facts, Rule};
use names::BusName;
use owner_queues::Reply as QueueReply;
use registry_snapshots::{Naming, Seat, Shared};
use seq_bus_core::{CallHead, Change, MonitorRules, Outcome, Reply};
use std::alloc::Global;
use std::sync::Wait;

/// Whether a change is answered so: 1 or 0.
fn is_told(outcome: &Option<Outcome>, reply: Reply) -> u64 {
    match outcome {
        Some(outcome) => u64::from(outcome.reply == reply),
        None => 0,
    }
}

/// A seat, with what it takes to make changes.
#[derive(Drop)]
pub struct Bus<'a, J: Naming, R> {
    pub rt: &'a R,
    pub alloc: Global,
    pub shared: &'a Shared<J>,
    pub seat: Seat<J>,
}

impl<J: Naming, R: Wait> Bus<'_, J, R> {
    /// Makes a change; none where it is refused.
    pub fn make(&mut self, change: Change) -> Option<Outcome> {
        match self.seat.change(self.rt, self.shared, change) {
            Ok((outcome, _)) => Some(outcome),
            Err(_) => None,
        }
    }

    /// How many get a message of connection 1, and one.
    pub fn route(&mut self, facts: &Facts<'_>) -> u64 {
        match self.seat.route(1, facts) {
            Ok(verdict) => 1 + verdict.to.as_slice().len() as u64,
            Err(_) => 0,
        }
    }

    /// So many AddMatch or RemoveMatch of a connection, one by one: how many are done.
    pub fn change_rules(&mut self, of: u64, rule: &Rule, is_added: bool, count: usize) -> u64 {
        let mut done = 0u64;
        for _ in 0..count {
            let told = self.make(rule_change(of, rule, is_added));
            done = done.wrapping_add(is_told(&told, Reply::Done));
        }
        done
    }

    /// So many AddMatch and as many RemoveMatch, one by one: how many are done.
    pub fn change_in_turn(&mut self, rule: &Rule, count: usize) -> u64 {
        let added = self.change_rules(1, rule, true, count);
        added.wrapping_add(self.change_rules(1, rule, false, count))
    }

    /// 64 AddMatch in one batch and 64 RemoveMatch in another: how many are done.
    pub fn change_at_once(&mut self, rule: &Rule) -> Option<u64> {
        let mut done = 0u64;
        for is_added in [true, false] {
            let mut changes = Vec::new(self.alloc);
            for _ in 0..BATCH {
                changes.push(rule_change(1, rule, is_added)).ok()?;
            }
            let (outcomes, _) = self.seat.change_all(self.rt, self.shared, changes).ok()?;
            for outcome in outcomes.as_slice() {
                done = done.wrapping_add(u64::from(outcome.reply == Reply::Done));
            }
        }
        Some(done)
    }

    /// RequestName of a name that nobody has, and ReleaseName: how many are answered so.
    pub fn own(&mut self, name: BusName) -> u64 {
        let owned = self.make(request(1, name));
        let released = self.make(release(1, name));
        is_told(&owned, Reply::OfQueue(QueueReply::PrimaryOwner)).wrapping_add(is_told(
            &released,
            Reply::OfQueue(QueueReply::Released),
        ))
    }

    /// Hello, BecomeMonitor and Leave of one connection: how many of the last two are done.
    pub fn watch(&mut self) -> Option<u64> {
        let Reply::Welcome(conn) = self.make(Change::Hello { privileged: true })?.reply else {
            return None;
        };
        let connection = conn.number;
        let rules = MonitorRules::new(self.alloc);
        let watches = self.make(Change::BecomeMonitor { connection, rules });
        let left = self.make(Change::Leave { connection });
        Some(is_told(&watches, Reply::Done).wrapping_add(is_told(&left, Reply::Done)))
    }

    /// 100 StartServiceByName of connection 1, RequestName of connection 2, and its ReleaseName:
    /// 1,000 for each call that waits, and one for each that RequestName releases.
    pub fn start(&mut self, name: BusName) -> Option<u64> {
        let (connection, call) = (
            1,
            CallHead {
                serial: 1,
                flags: 0,
            },
        );
        let mut sum = 0u64;
        for _ in 0..TICKETS {
            let outcome = self.make(Change::Start {
                connection,
                name,
                call,
            })?;
            if let Reply::Held(_) = outcome.reply {
                sum = sum.wrapping_add(1_000);
            }
        }
        let owned = self.make(request(2, name))?;
        self.make(release(2, name))?;
        Some(sum.wrapping_add(owned.tickets.as_slice().len() as u64))
    }
}
