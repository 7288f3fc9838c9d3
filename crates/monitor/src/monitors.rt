//! The monitors of a bus.

ghost use Rattle.std.specs.Prelude.{◌≡◌, ◌==◌, ◌<◌, ◌≤◌, ◌↔◌, [], length, insert, nat_lt};
ghost use Rattle.std.specs.Prelude.{IfOk, IsTrue};
ghost use Rattle.std.specs.List.{position};
ghost use Rattle.monitor.specs.Monitors.{inserted, without, conns_shown};

use crate::Monitor;
use match_rules::{Facts, Owners, Rule};
use seq_bus_core::limits::{MAX_CONNECTIONS, MAX_RULES_OF_MONITOR};
use seq_bus_core::{Conn, MonitorRules, Recipients};
use std::alloc::{AllocError, Global};
use std::marker::Model;

/// The monitors of a bus, by rising number, each with its rules. Their room is made with the table.
#[derive(Drop)]
pub struct Monitors {
    monitors: Vec<Monitor>,
    /// Room for further monitors.
    spare: Vec<Monitor>,
}

impl Model for Monitors {
    ghost use Rattle.std.specs.Prelude.{◌≡◌, ◌+◌, ◌≤◌, List, length, vec_capacity};
    ghost use Rattle.monitor.specs.Monitors.{Monitor};
    ghost use Rattle.seq_bus_core.specs.declared.limits.TheConstants.{MAX_CONNECTIONS};

    ghost Value = { List Monitor };

    ghost view = { λ t. t.monitors.items };

    ghost invariant = { λ t.
        (length t.monitors.items + length t.spare.items ≡ MAX_CONNECTIONS)
        × (MAX_CONNECTIONS ≤ vec_capacity t.monitors)
        × (MAX_CONNECTIONS ≤ vec_capacity t.spare) };
}

impl Monitors {
    /// The most monitors of a bus.
    pub const MAX: usize = MAX_CONNECTIONS;

    /// No monitors, and room for as many as a bus can have.
    pub fn new(alloc: Global) -> Result<Monitors, AllocError>
        ensures { IfOk result (λ monitors. monitors ≡ []) }
    {
        let mut spare = Vec::with_capacity(alloc, Self::MAX)?;
        for _monitor in 0..Self::MAX {
            spare.push_reserved(Monitor::new(alloc)?);
        }
        Ok(Monitors {
            monitors: Vec::with_capacity(alloc, Self::MAX)?,
            spare,
        })
    }

    /// Whether one more fits.
    pub fn has_room(&self) -> bool
        ensures { IsTrue result ↔ (length self.now < Self.MAX) }
    {
        self.monitors.len() < Self::MAX
    }

    /// Whether there are none.
    pub fn is_empty(&self) -> bool
        ensures { result ≡ (length self.now == 0) }
    {
        self.monitors.is_empty()
    }

    /// The monitors, by rising number.
    pub fn as_slice(&self) -> &[Monitor]
        ensures value { result.now ≡ self.now }
        ensures few { length self.now ≤ Self.MAX }
    {
        self.monitors.as_slice()
    }

    /// One more monitor, before the first with a higher number.
    pub fn add(&mut self, conn: Conn, rules: &MonitorRules)
        requires { length self.old < Self.MAX }
        ensures { self.new ≡ inserted (record { conn = conn; rules = rules.now }) self.old }
    {
        let end = self.monitors.len();
        let place = place_above(&self.monitors, conn.number).unwrap_or(end);
        self.insert(place, conn, rules.as_slice());
    }

    /// The connection of this number is no monitor any longer.
    pub fn drop_owner(&mut self, number: u64)
        ensures { self.new ≡ without number self.old }
    {
        while let Some(place) = place_of(&self.monitors, number) {
            let monitor = self.monitors.remove(place);
            self.spare.push_reserved(monitor);
        }
    }

    /// Adds those that are shown a message, by rising number: each that has no rules, or one that
    /// fits. A monitor's own rules are looked at, and nobody else's.
    pub fn shown<O: Owners>(&self, facts: &Facts<'_>, owners: &O, to: &mut Recipients)
        requires { to.old ≡ [] }
        ensures { to.new ≡ conns_shown (O.heads owners.now) facts.now self.now }
    {
        for monitor in &self.monitors {
            if monitor.watches(facts, owners) {
                to.push(monitor.conn());
            }
        }
    }

    /// The same monitors as there, with the same rules.
    pub fn copy_from(&mut self, other: &Monitors)
        ensures { self.new ≡ other.now }
    {
        self.clear();
        for (place, monitor) in other.as_slice().iter().enumerate() {
            self.insert(place, monitor.conn(), monitor.rules());
        }
    }

    /// One more monitor at this place.
    fn insert(&mut self, place: usize, conn: Conn, rules: &[Rule])
        requires there { place ≤ length self.old }
        requires has_room { length self.old < Self.MAX }
        requires few { length rules.now ≤ MAX_RULES_OF_MONITOR }
        ensures { self.new ≡ insert self.old place (record { conn = conn; rules = rules.now }) }
    {
        let mut monitor = self.spare.take_last();
        monitor.set(conn, rules);
        let _ = self.monitors.insert(place, monitor);
    }

    /// No monitors any longer.
    fn clear(&mut self)
        ensures { self.new ≡ [] }
    {
        let _ = self.spare.append(&mut self.monitors);
    }
}

/// The place of the first monitor with a higher number.
fn place_above(monitors: &[Monitor], number: u64) -> Option<usize>
    ensures { result ≡ position (λ m. nat_lt number m.conn.number) monitors.now }
{
    monitors
        .iter()
        .position(|monitor| monitor.conn().number > number)
}

/// The place of a monitor.
fn place_of(monitors: &[Monitor], number: u64) -> Option<usize>
    ensures { result ≡ position (λ m. m.conn.number == number) monitors.now }
{
    monitors
        .iter()
        .position(|monitor| monitor.conn().number == number)
}
