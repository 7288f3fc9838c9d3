//! Leave: a connection is closed.

ghost use Rattle.std.specs.Prelude.{◌≡◌, ◌==◌, ◌<◌, ◌+◌, ◌&&◌, ◌++◌, not, true, None, [], flat_map, map, IfOk, OnOk, if◌then◌else◌};
ghost use Rattle.names.specs.BusName.{is_bus};
ghost use Rattle.owner_queues.specs.Queues.{is_in, queue_head, without};
ghost use Rattle.seq_bus_core.specs.BusState.{head_of, is_client, queue_of};
ghost use Rattle.seq_bus_core.specs.Steps.{addressed, names_owned, signals_of_leave, step, without_connection};
ghost use Rattle.seq_bus_core.specs.declared.change.Change.TheVariants.{Leave};
ghost use Rattle.registry_core.specs.NameTables.{owned_name};
ghost use Rattle.registry.specs.Departures.{signals_of_name, told_of_name};
ghost use Rattle.registry.specs.PreparedChanges.{prepared_on};

use crate::after::{After, Pending};
use crate::owners::is_unique;
use crate::prepared::{Act, Prepared, replied};
use crate::registry::Registry;
use audience::{is_owner, push_left_name, push_owner_signals};
use names::{BUS_NAME, BusName, UniqueName};
use owner_queues::Queue;
use registry_core::{NameEntry, number_of};
use seq_bus_core::{NumberedOutcome, Reply, Signals};
use std::alloc::{AllocError, Global};

/// How a connection gives up its names.
#[derive(Clone, Copy)]
pub enum Departure {
    /// It leaves, and is told nothing.
    Leaves,
    /// It becomes a monitor, and is told what it loses.
    BecomesMonitor,
}

impl Registry {
    pub(crate) fn prepare_leave(
        &self,
        alloc: Global,
        seat: u8,
        connection: u64,
    ) -> Result<Prepared, AllocError>
        ensures { IfOk result (λ prepared. prepared
            ≡ prepared_on self.now seat (Leave connection)) }
    {
        Ok(Prepared {
            seat,
            act: Act::Leave { connection },
            outcome: self.outcome_of_leave(alloc, seat, connection)?,
            caller: None,
        })
    }

    fn outcome_of_leave(
        &self,
        alloc: Global,
        seat: u8,
        connection: u64,
    ) -> Result<NumberedOutcome, AllocError>
        ensures { IfOk result (λ outcome. outcome ≡ (step self.now seat (Leave connection)).1) }
    {
        let _ = &self.connections;
        if !self.present(connection) {
            return Ok(replied(alloc, Reply::Gone));
        }
        let mut outcome = replied(alloc, Reply::Done);
        if !self.is_client(connection) {
            return Ok(outcome);
        }
        self.tell_of_leave(alloc, connection, &mut outcome.signals)?;
        Ok(outcome)
    }

    /// The signals of a connection that leaves: those of the names that it owns, and of its unique
    /// name.
    fn tell_of_leave(
        &self,
        alloc: Global,
        connection: u64,
        signals: &mut Signals,
    ) -> Result<(), AllocError>
        requires client { is_client self.now.connections connection ≡ true }
        requires empty { signals.old ≡ [] }
        ensures { OnOk result (signals.new
            ≡ map (addressed (without_connection self.now connection))
            (signals_of_leave self.now connection)) }
    {
        let after = After {
            registry: self,
            pending: Pending::Left { connection },
        };
        self.tell_of_names(alloc, &after, Departure::Leaves, connection, signals)?;
        let name = BusName::from(UniqueName::of(connection));
        push_left_name(&after, alloc, signals, &name, connection, None, &mut ())
    }

    /// The signals of the names that a connection owns and gives up. No other name is looked at
    /// than those that it owns or waits for.
    pub(crate) fn tell_of_names(
        &self,
        alloc: Global,
        after: &After<'_>,
        departure: Departure,
        connection: u64,
        signals: &mut Signals,
    ) -> Result<(), AllocError>
        requires { signals.old ≡ [] }
        ensures { OnOk result (signals.new ≡ map (addressed after.now)
            (flat_map (signals_of_name departure connection)
            (names_owned connection self.now.names))) }
    {
        for n in 0..self.names.count_of(connection) {
            let place = self.names.place_of_nth(connection, n);
            let entry = &self.names.as_slice()[place];
            tell_of_name(alloc, after, departure, connection, entry, signals)?;
        }
        Ok(())
    }

    /// A connection leaves.
    pub(crate) fn leave(&mut self, seat: u8, connection: u64)
        ensures { self.new ≡ (step self.old seat (Leave connection)).0 }
    {
        if !self.present(connection) {
            return;
        }
        self.connections.leave(connection);
        self.names.leave(connection);
        self.rules.drop_owner(connection);
    }

    /// The head of a name once a connection has left.
    pub(crate) fn head_without(&self, leaver: u64, name: &str) -> Option<u64>
        ensures { result ≡ head_of (without_connection self.now leaver) name.now }
    {
        let _ = &self.connections;
        if !is_unique(name) {
            return self.owner_without(leaver, name);
        }
        match number_of(name) {
            Some(number) => {
                if self.is_client_without(leaver, number) {
                    Some(number)
                } else {
                    None
                }
            }
            None => None,
        }
    }

    /// The owner of a well-known name once a connection has left.
    fn owner_without(&self, leaver: u64, name: &str) -> Option<u64>
        ensures { result ≡ (if is_bus name.now then None else queue_head (without leaver
            (queue_of self.now.names name.now))) }
    {
        if name == BUS_NAME {
            return None;
        }
        match self.names.queue(name) {
            Some(queue) => next_owner(queue, leaver),
            None => None,
        }
    }

    pub(crate) fn is_client_without(&self, leaver: u64, number: u64) -> bool
        ensures { result ≡ (not (number == leaver) && is_client self.now.connections number) }
    {
        number != leaver && self.is_client(number)
    }
}

/// The signals of a name, where the connection that gives it up owns it.
fn tell_of_name(
    alloc: Global,
    after: &After<'_>,
    departure: Departure,
    connection: u64,
    entry: &NameEntry,
    signals: &mut Signals,
) -> Result<(), AllocError>
    ensures { OnOk result (signals.new
        ≡ signals.old ++ told_of_name after.now departure connection (owned_name entry.now)) }
{
    let owner = Some(connection);
    if !is_owner(entry.queue.head(), owner) {
        return Ok(());
    }
    let next = next_owner(&entry.queue, connection);
    let name = &entry.name;
    match departure {
        Departure::Leaves => push_left_name(after, alloc, signals, name, connection, next, &mut ()),
        Departure::BecomesMonitor => {
            push_owner_signals(after, alloc, signals, name, owner, next, &mut ())
        }
    }
}

/// Who owns a name once a connection stands in its queue no longer.
fn next_owner(queue: &Queue, leaver: u64) -> Option<u64>
    ensures { result ≡ queue_head (without leaver queue.now) }
{
    for place in queue.as_slice() {
        if place.connection != leaver {
            return Some(place.connection);
        }
    }
    None
}
