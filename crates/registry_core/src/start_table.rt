//! Starts of services in a table.

ghost use Rattle.std.specs.Prelude.{◌≡◌, ◌<◌, ◌≤◌, ◌++◌, [], filter, find, length, map, not, option_map, vec_capacity, IfOk, OnOk};
ghost use Rattle.names.specs.Texts.{text_eq};
ghost use Rattle.seq_bus_core.specs.BusState.{max_tickets, tickets_in};
ghost use Rattle.seq_bus_core.specs.Steps.{settled};
ghost use Rattle.registry_core.specs.StartTables.{numbers_of, run_of, with_ticket};

use names::BusName;
use seq_bus_core::limits::MAX_TICKETS;
use seq_bus_core::{Fate, SettledNumber, TicketNumbers};
use std::alloc::{AllocError, Global};
use std::marker::Model;

/// A ticket that waits for the start of a service.
#[derive(Clone, Copy)]
pub struct WaitingTicket {
    /// The name of the service.
    pub name: BusName,
    /// The number of the start, if this is the first ticket that waits for it.
    pub start: u64,
    /// The number of the ticket.
    pub number: u64,
}

/// The starts that run, by rising number. Their room is made with the table.
///
/// A start runs while a ticket waits for it, so there are no more starts than tickets, and the
/// tickets alone, in order of arrival, say which they are.
#[derive(Drop)]
pub struct StartTable {
    tickets: Vec<WaitingTicket>,
}

impl Model for StartTable {
    ghost use Rattle.std.specs.Prelude.{List, [], vec_capacity};
    ghost use Rattle.seq_bus_core.specs.BusState.{RunningStart};
    ghost use Rattle.registry_core.specs.StartTables.{IsStartTable, starts_of};

    ghost Value = { List RunningStart };

    ghost view = { λ t. starts_of [] t.tickets.items };

    ghost invariant = { λ t. IsStartTable t.tickets.items (vec_capacity t.tickets) };
}

impl StartTable {
    /// No starts.
    pub fn new(alloc: Global) -> Result<StartTable, AllocError>
        ensures { IfOk result (λ table. table ≡ []) }
    {
        let tickets = Vec::with_capacity(alloc, MAX_TICKETS)?;
        Ok(StartTable { tickets })
    }

    /// How many tickets wait.
    pub fn waiting(&self) -> usize
        ensures { result ≡ tickets_in self.now }
    {
        self.tickets.len()
    }

    /// The number of the start of a name, if one runs.
    pub fn start_of(&self, name: &BusName) -> Option<u64>
        ensures { result ≡ option_map (λ r. r.number) (run_of self.now name.now) }
    {
        first_start(&self.tickets, name)
    }

    /// One more ticket waits: for the start of its name that runs, or else for a new one.
    pub fn wait(&mut self, ticket: WaitingTicket)
        requires { tickets_in self.old < max_tickets }
        ensures { self.new ≡ with_ticket self.old ticket }
    {
        self.tickets.push_reserved(ticket);
    }

    /// The start of a name ends, if one runs, and its tickets wait no longer.
    pub fn end(&mut self, name: &BusName)
        ensures { self.new ≡ filter (λ r. not (text_eq r.name name.now)) self.old }
    {
        self.tickets.retain(|ticket| ticket.name != *name);
    }

    /// Adds the tickets that wait for the start of a name, in order of arrival.
    pub fn settle(
        &self,
        name: &BusName,
        fate: Fate,
        numbers: &mut TicketNumbers,
    ) -> Result<(), AllocError>
        ensures { OnOk result (numbers.new ≡
            numbers.old ++ settled fate (run_of self.now name.now)) }
    {
        for ticket in &self.tickets {
            if ticket.name == *name {
                let number = ticket.number;
                numbers.push(SettledNumber { fate, number })?;
            }
        }
        Ok(())
    }

    /// Becomes a copy of another table. It takes no memory.
    pub fn copy_from(&mut self, other: &StartTable)
        ensures { self.new ≡ other.now }
    {
        self.tickets.clear();
        let _ = self.tickets.extend_from_slice(&other.tickets);
    }
}

/// What the first ticket of a name has for a start.
fn first_start(tickets: &[WaitingTicket], name: &BusName) -> Option<u64>
    ensures { result ≡ option_map (λ t. t.start) (find (λ t. text_eq t.name name.now) tickets.now) }
{
    tickets
        .iter()
        .find(|ticket| ticket.name == *name)
        .map(|ticket| ticket.start)
}
