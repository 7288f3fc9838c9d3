//! The registry.

ghost use Rattle.std.specs.Prelude.{◌≡◌, ◌≤◌, IfOk, OnErr, length, is_some, map, option_map};
ghost use Rattle.std.specs.List.{list_any};
ghost use Rattle.match_rules.specs.OwnedRules.{rules_by};
ghost use Rattle.match_index.specs.RulesOf.{rules_left};
ghost use Rattle.monitor.specs.Laws.{monitors_of};
ghost use Rattle.seq_bus_core.specs.BusState.{connection_of, conn_of, head_of, is_client, is_monitor, queue_of};
ghost use Rattle.seq_bus_core.specs.Consistency.{IsConsistent, IsWithinLimits};
ghost use Rattle.seq_bus_core.specs.Histories.{CanOpen, max_services, opening};
ghost use Rattle.seq_bus_core.specs.Steps.{step};
ghost use Rattle.registry_core.specs.ConnectionTables.{entry_of};
ghost use Rattle.registry_core.specs.NameTables.{owned_name};
ghost use Rattle.registry.specs.PreparedChanges.{prepared_on};

use crate::prepared::{Act, Prepared};
use crate::services::ServiceTable;
use match_index::{Index, RulesOf};
use match_rules::Owners;
use monitor::Monitor;
use names::{BusName, WellKnown};
use owner_queues::{Profile, Queue, QueuedOwner};
use registry_core::{ConnectionEntry, ConnectionTable, NameEntry, NameTable, StartTable};
use seq_bus_core::{Change, Conn};
use std::alloc::{AllocError, Global};
use std::marker::Model;

/// The state of a message bus, in tables whose room is made when the bus is opened.
///
/// Contracts see the state that the definitions speak of.
pub struct Registry {
    pub(crate) profile: Profile,
    pub(crate) routers: u8,
    /// By rising bytes.
    pub(crate) services: ServiceTable,
    /// By rising number.
    pub(crate) connections: ConnectionTable,
    pub(crate) names: NameTable,
    pub(crate) rules: Index,
    pub(crate) starts: StartTable,
    pub(crate) next_number: u64,
    pub(crate) next_ticket: u64,
    pub(crate) next_start: u64,
    /// Room for the queue that a name is about to have. It is large, and is not made for each
    /// change.
    pub(crate) room: Box<Queue>,
}

impl Model for Registry {
    ghost use Rattle.seq_bus_core.specs.BusState.{BusState};

    ghost Value = { BusState };

    ghost use Rattle.registry.specs.Tables.{state_of, IsKept};

    ghost view = { state_of };

    ghost invariant = { IsKept };
}

impl Drop for Registry {
    fn drop(self) {
        let Registry {
            profile: _,
            routers: _,
            services,
            connections,
            names,
            rules,
            starts,
            next_number: _,
            next_ticket: _,
            next_start: _,
            room,
        } = self;
        drop(services);
        drop(connections);
        drop(names);
        drop(rules);
        drop(starts);
        drop(room);
    }
}

impl Registry {
    /// The registry of a bus that was just opened: with these services and so many routers, and
    /// nothing else.
    ///
    /// All room that it ever needs is made here. The services are names that programs can be
    /// started for.
    pub fn new(
        alloc: Global,
        services: &[WellKnown],
        routers: u8,
        profile: Profile,
    ) -> Result<Registry, AllocError>
        requires { CanOpen routers services.now }
        ensures { IfOk result (λ registry. registry ≡ opening profile routers services.now) }
    {
        Ok(Registry {
            profile,
            routers,
            services: ServiceTable::new(alloc, services)?,
            connections: ConnectionTable::new(alloc)?,
            names: NameTable::new(alloc)?,
            rules: Index::new(alloc)?,
            starts: StartTable::new(alloc)?,
            next_number: 1,
            next_ticket: 1,
            next_start: 1,
            room: Box::new(alloc, Queue::new())?,
        })
    }

    /// Prepares a change of a seat: says what it would be told, and makes all that needs memory.
    /// Nothing changes.
    ///
    /// Seat 0 is the main thread's, the others are those of the routers, from 1.
    pub fn prepare(&self, alloc: Global, seat: u8, change: &Change) -> Result<Prepared, AllocError>
        ensures { IfOk result (λ prepared. prepared ≡ prepared_on self.now seat change.now) }
    {
        match change {
            Change::Hello { privileged } => self.prepare_hello(alloc, seat, *privileged),
            Change::Leave { connection } => self.prepare_leave(alloc, seat, *connection),
            Change::Request {
                connection,
                name,
                flags,
            } => self.prepare_request(alloc, seat, *connection, name, *flags),
            Change::Release { connection, name } => {
                self.prepare_release(alloc, seat, *connection, name)
            }
            Change::AddMatch { connection, rule } => {
                self.prepare_add_match(alloc, seat, *connection, rule)
            }
            Change::RemoveMatch { connection, rule } => {
                self.prepare_remove_match(alloc, seat, *connection, rule)
            }
            Change::BecomeMonitor { connection, rules } => {
                self.prepare_become_monitor(alloc, seat, *connection, rules)
            }
            Change::Start {
                connection,
                name,
                ..
            } => self.prepare_start(alloc, seat, *connection, name),
            Change::Hold {
                connection,
                name,
                ..
            } => self.prepare_hold(alloc, seat, *connection, name),
            Change::ChildEnded { name, start, how } => {
                self.prepare_child_ended(alloc, seat, name, *start, *how)
            }
            Change::StartTimedOut { name, start } => {
                self.prepare_start_timed_out(alloc, seat, name, *start)
            }
        }
    }

    /// Prepares a change of a seat, and makes it here. Where memory is refused, nothing changes.
    ///
    /// It does what `prepare` and then `absorb` do, but looks for a name once, and makes the queue
    /// of a name in the one that is lent: a queue is large, and is cleared where one is made.
    pub fn make(
        &mut self,
        queue: &mut Queue,
        alloc: Global,
        seat: u8,
        change: &Change,
    ) -> Result<Prepared, AllocError>
        ensures prepared { IfOk result (λ prepared.
            prepared ≡ prepared_on self.old seat change.now) }
        ensures made { IfOk result (λ prepared.
            self.new ≡ (step self.old prepared.seat prepared.change).0) }
        ensures same { OnErr result (self.new ≡ self.old) }
    {
        match change {
            Change::Request {
                connection,
                name,
                flags,
            } => self.make_request(queue, alloc, seat, *connection, name, *flags),
            Change::Release { connection, name } => {
                self.make_release(queue, alloc, seat, *connection, name)
            }
            _ => {
                let prepared = self.prepare(alloc, seat, change);
                if let Ok(prepared) = &prepared {
                    self.absorb(prepared);
                }
                prepared
            }
        }
    }

    /// Makes a prepared change, whatever state the registry is in. It takes no memory, and can't be
    /// refused.
    pub fn absorb(&mut self, prepared: &Prepared)
        ensures { self.new ≡ (step self.old prepared.now.seat prepared.now.change).0 }
    {
        match &prepared.act {
            Act::Hello { privileged } => self.say_hello(prepared.seat, *privileged),
            Act::Leave { connection } => self.leave(prepared.seat, *connection),
            Act::Request {
                connection,
                name,
                flags,
            } => self.request(prepared.seat, *connection, name, *flags),
            Act::Release { connection, name } => self.release(prepared.seat, *connection, name),
            Act::AddMatch { connection, rule } => {
                self.add_match(prepared.seat, *connection, rule);
            }
            Act::RemoveMatch { connection, rule } => {
                self.remove_match(prepared.seat, *connection, rule);
            }
            Act::BecomeMonitor { connection, rules } => {
                self.become_monitor(prepared.seat, *connection, rules);
            }
            Act::Start { connection, name } => self.start(prepared.seat, *connection, name),
            Act::Hold { connection, name } => self.hold(prepared.seat, *connection, name),
            Act::ChildEnded { name, start, how } => {
                self.child_ended(prepared.seat, name, *start, *how);
            }
            Act::StartTimedOut { name, start } => self.fail(name, *start),
        }
    }

    /// Becomes a copy of another registry. It takes no memory.
    pub fn copy_from(&mut self, other: &Registry)
        ensures { self.new ≡ other.now }
    {
        self.profile = other.profile;
        self.routers = other.routers;
        self.services.copy_from(&other.services);
        self.connections.copy_from(&other.connections);
        self.names.copy_from(&other.names);
        self.rules.copy_from(&other.rules);
        self.starts.copy_from(&other.starts);
        self.next_number = other.next_number;
        self.next_ticket = other.next_ticket;
        self.next_start = other.next_start;
    }

    /// Where a connection is reached.
    pub fn conn(&self, number: u64) -> Option<Conn>
        ensures { result ≡ option_map conn_of (connection_of self.now number) }
    {
        self.connections.conn(number)
    }

    /// Whether there is a connection of this number.
    pub fn present(&self, number: u64) -> bool
        ensures { result ≡ is_some (connection_of self.now number) }
    {
        self.conn(number).is_some()
    }

    /// Whether there is a connection of this number that is no monitor.
    pub fn is_client(&self, number: u64) -> bool
        ensures { result ≡ is_client self.now.connections number }
    {
        self.connections.is_client(number)
    }

    /// Whether any connection is a monitor.
    pub fn has_monitors(&self) -> bool
        ensures { result ≡ list_any is_monitor self.now.connections }
    {
        self.connections.has_monitors()
    }

    /// The connection that messages to a name are delivered to: the owner of a well-known name, the
    /// holder of a unique name. The bus itself is no connection.
    pub fn owner(&self, name: &BusName) -> Option<u64>
        ensures { result ≡ head_of self.now name.now }
    {
        self.head(name.as_str())
    }

    /// The names that have an owner, by rising bytes, each with its queue.
    pub fn names(&self) -> &[Box<NameEntry>]
        ensures { map (λ b. owned_name b.value) result.now ≡ self.now.names }
    {
        self.names.as_slice()
    }

    /// Who owns a well-known name and who waits for it, in order. It is empty where the name has no
    /// owner.
    pub fn queue(&self, name: &str) -> &[QueuedOwner]
        ensures { result.now ≡ queue_of self.now.names name.now }
    {
        match self.names.queue(name) {
            Some(queue) => queue.as_slice(),
            None => &[],
        }
    }

    /// The rules that a connection added, in order of arrival.
    pub fn rules(&self, connection: u64) -> RulesOf<'_>
        ensures { rules_left result ≡ rules_by connection self.now.rules }
    {
        self.rules.of(connection)
    }

    /// The connections, by rising number.
    pub fn connections(&self) -> &[ConnectionEntry]
        ensures { result.now ≡ map entry_of self.now.connections }
    {
        self.connections.as_slice()
    }

    /// The monitors, by rising number, with their rules.
    pub fn monitors(&self) -> &[Monitor]
        ensures { result.now ≡ monitors_of self.now.connections }
    {
        self.connections.monitors()
    }

    /// The names that programs can be started for, by rising bytes.
    pub fn services(&self) -> &[WellKnown]
        ensures value { result.now ≡ self.now.services }
        ensures few { length result.now ≤ max_services }
    {
        self.services.as_slice()
    }

    /// The number of routers.
    pub fn routers(&self) -> u8
        ensures value { result ≡ self.now.routers }
        ensures consistent { IsConsistent self.now }
        ensures within_limits { IsWithinLimits self.now }
    {
        self.routers
    }
}
