//! Connections in a table, of which some are monitors.

ghost use Rattle.std.specs.Prelude.{◌≡◌, ◌==◌, ◌<◌, ◌≤◌, ◌↔◌, ◌++◌, ◌∷◌, [], false, length, map};
ghost use Rattle.std.specs.Prelude.{option_map, IfOk, IsTrue};
ghost use Rattle.std.specs.List.{AllByRecursion, find, list_any};
ghost use Rattle.std.specs.Option.{option_map_or};
ghost use Rattle.monitor.specs.Laws.{monitors_of};
ghost use Rattle.seq_bus_core.specs.BusState.{conn_of, is_client, is_monitor};
ghost use Rattle.seq_bus_core.specs.Steps.{monitor_if};
ghost use Rattle.seq_bus_core.specs.Recipients.{conns_that, watches_by};
ghost use Rattle.registry_core.specs.ConnectionTables.{entry_of, newcomer, those_without};

use crate::connection_entry::{ConnectionEntry, find_place};
use match_rules::{Facts, Owners};
use monitor::{Monitor, Monitors};
use seq_bus_core::limits::MAX_CONNECTIONS;
use seq_bus_core::{Conn, MonitorRules, Recipients};
use std::alloc::{AllocError, Global};
use std::marker::Model;

/// The connections of a bus, by rising number, and the rules of those that are monitors. All room
/// is made with the table.
#[derive(Drop)]
pub struct ConnectionTable {
    entries: Vec<ConnectionEntry>,
    /// Those of them that are monitors.
    monitors: Monitors,
}

impl Model for ConnectionTable {
    ghost use Rattle.std.specs.Prelude.{List, vec_capacity};
    ghost use Rattle.seq_bus_core.specs.BusState.{Connection};
    ghost use Rattle.registry_core.specs.ConnectionTables.{connections_in, AreEntries};

    ghost Value = { List Connection };

    ghost view = { λ t. connections_in t.monitors t.entries.items };

    ghost invariant = { λ t. AreEntries t.entries.items t.monitors (vec_capacity t.entries) };
}

impl ConnectionTable {
    /// No connections, and room for as many as a bus can have.
    pub fn new(alloc: Global) -> Result<ConnectionTable, AllocError>
        ensures { IfOk result (λ table. table ≡ []) }
    {
        Ok(ConnectionTable {
            entries: Vec::with_capacity(alloc, MAX_CONNECTIONS)?,
            monitors: Monitors::new(alloc)?,
        })
    }

    /// How many connections there are, monitors included.
    pub fn len(&self) -> usize
        ensures value { result ≡ length self.now }
        ensures few { length self.now ≤ MAX_CONNECTIONS }
    {
        self.entries.len()
    }

    /// Whether one more fits.
    pub fn has_room(&self) -> bool
        ensures { IsTrue result ↔ (length self.now < MAX_CONNECTIONS) }
    {
        self.entries.len() < MAX_CONNECTIONS
    }

    /// The connections, by rising number.
    pub fn as_slice(&self) -> &[ConnectionEntry]
        ensures { result.now ≡ map entry_of self.now }
    {
        self.entries.as_slice()
    }

    /// The connection of this number.
    pub fn entry(&self, number: u64) -> Option<&ConnectionEntry>
        ensures { option_map (λ m. m.now) result
            ≡ option_map entry_of (find (λ c. c.number == number) self.now) }
    {
        match find_place(&self.entries, number) {
            Some(place) => Some(&self.entries[place]),
            None => None,
        }
    }

    /// Where the connection of this number is reached.
    pub fn conn(&self, number: u64) -> Option<Conn>
        ensures { result ≡ option_map conn_of (find (λ c. c.number == number) self.now) }
    {
        match self.entry(number) {
            Some(entry) => Some(entry.conn),
            None => None,
        }
    }

    /// Whether there is a connection of this number that is no monitor.
    pub fn is_client(&self, number: u64) -> bool
        ensures { result ≡ is_client self.now number }
    {
        let _ = &self.entries;
        match self.entry(number) {
            Some(entry) => !entry.is_monitor,
            None => false,
        }
    }

    /// Whether there is a connection of this number that proved to be its user's.
    pub fn is_privileged(&self, number: u64) -> bool
        ensures { result ≡ option_map_or (λ c. c.privileged)
            (find (λ c. c.number == number) self.now) false }
    {
        match self.entry(number) {
            Some(entry) => entry.privileged,
            None => false,
        }
    }

    /// Whether a connection has this slot.
    pub fn is_taken(&self, slot: u16) -> bool
        ensures { result ≡ list_any (λ c. c.slot == slot) self.now }
    {
        has_slot(self.as_slice(), slot)
    }

    /// The monitors, by rising number, with their rules.
    pub fn monitors(&self) -> &[Monitor]
        ensures { result.now ≡ monitors_of self.now }
    {
        self.monitors.as_slice()
    }

    /// Whether any connection is a monitor.
    pub fn has_monitors(&self) -> bool
        ensures { result ≡ list_any is_monitor self.now }
    {
        !self.monitors.is_empty()
    }

    /// Adds the monitors that are shown a message, by rising number: each that has no rules, or one
    /// that fits.
    pub fn shown<O: Owners>(&self, facts: &Facts<'_>, owners: &O, to: &mut Recipients)
        requires { to.old ≡ [] }
        ensures { to.new ≡ conns_that (watches_by (O.heads owners.now) facts.now) self.now }
    {
        self.monitors.shown(facts, owners, to);
    }

    /// A connection with a higher number than all others, which is no monitor.
    pub fn join(&mut self, conn: Conn, privileged: bool)
        requires has_room { length self.old < MAX_CONNECTIONS }
        requires above { AllByRecursion (λ c. c.number < conn.number) self.old }
        ensures { self.new ≡ self.old ++ newcomer conn privileged ∷ [] }
    {
        self.entries.push_reserved(ConnectionEntry {
            conn,
            privileged,
            is_monitor: false,
        });
    }

    /// The connection of this number is there no longer.
    pub fn leave(&mut self, number: u64)
        ensures { self.new ≡ those_without number self.old }
    {
        self.entries.retain(|entry| entry.conn.number != number);
        self.monitors.drop_owner(number);
    }

    /// From now on the connection of this number is a monitor with these rules.
    pub fn become_monitor(&mut self, number: u64, rules: &MonitorRules)
        ensures { self.new ≡ map (monitor_if number rules.now) self.old }
    {
        if let Some(place) = find_place(&self.entries, number) {
            let entry = &mut self.entries[place];
            entry.is_monitor = true;
            let conn = entry.conn;
            self.monitors.drop_owner(number);
            self.monitors.add(conn, rules);
        }
    }

    /// The same connections as there, and their rules.
    pub fn copy_from(&mut self, other: &ConnectionTable)
        ensures { self.new ≡ other.now }
    {
        self.entries.clear();
        let _ = self.entries.extend_from_slice(&other.entries);
        self.monitors.copy_from(&other.monitors);
    }
}

fn has_slot(entries: &[ConnectionEntry], slot: u16) -> bool
    ensures { result ≡ list_any (λ m. m.conn.slot == slot) entries.now }
{
    entries.iter().any(|entry| entry.conn.slot == slot)
}
