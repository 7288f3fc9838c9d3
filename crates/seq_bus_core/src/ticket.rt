//! Calls that wait for a name to get an owner.

ghost use Rattle.std.specs.Prelude.{◌≡◌, ◌<◌, ◌≤◌, [], ◌∷◌, ◌++◌, length, IfOk, OnOk, OnErr};

use crate::{CallHead, Conn, SharedBytes};
use std::alloc::{AllocError, Global};
use std::marker::Model;
use std::vec;

/// A call that waits for a name to get an owner.
#[derive(Debug, Drop)]
pub struct Ticket {
    /// Its number among all tickets of the bus, from 1.
    pub number: u64,
    /// The connection that called.
    pub caller: Conn,
    pub call: CallHead,
    /// The call itself, where it is to be delivered to the name; none where it is
    /// StartServiceByName.
    pub message: Option<SharedBytes>,
}

/// What became of a ticket.
#[derive(Clone, Copy, Debug, PartialEq, Eq)]
pub enum Fate {
    /// Its name got an owner.
    Served,
    /// The start of its name's service failed.
    Failed,
}

/// A ticket that waits no longer.
#[derive(Debug, Drop)]
pub struct SettledTicket {
    pub fate: Fate,
    pub ticket: Ticket,
}

/// The tickets that a change settled, in order of arrival.
#[derive(Debug, Drop)]
pub struct Tickets {
    tickets: Vec<SettledTicket>,
}

impl Model for Tickets {
    ghost use Rattle.std.specs.Prelude.{List};
    ghost use Rattle.seq_bus_core.specs.declared.ticket.SettledTicket.{SettledTicket};

    ghost Value = { List SettledTicket };

    ghost view = { λ t. t.tickets.items };
}

impl Tickets {
    /// No tickets.
    pub fn new(alloc: Global) -> Self
        ensures { result ≡ [] }
    {
        Tickets {
            tickets: Vec::new(alloc),
        }
    }

    /// One more ticket, behind the others.
    pub fn push(&mut self, ticket: SettledTicket) -> Result<(), AllocError>
        ensures ok { OnOk result (self.new ≡ self.old ++ ticket ∷ []) }
        ensures err { OnErr result (self.new ≡ self.old) }
    {
        self.tickets.push(ticket)?;
        Ok(())
    }

    /// The tickets, in order.
    pub fn as_slice(&self) -> &[SettledTicket]
        ensures { result.now ≡ self.now }
    {
        self.tickets.as_slice()
    }
}

impl IntoIterator for Tickets {
    ghost use Rattle.seq_bus_core.specs.HandedOut.{IsHandedOut};

    type Item = SettledTicket;

    type IntoIter = vec::IntoIter<SettledTicket>;

    ghost into_iter_gives = { IsHandedOut };

    /// The tickets themselves, in order. It takes no memory.
    fn into_iter(self) -> vec::IntoIter<SettledTicket> {
        self.tickets.into_iter()
    }
}

/// Room for the tickets that a change settles, made before it is known which they are.
#[derive(Drop)]
pub struct TicketRoom {
    tickets: Vec<SettledTicket>,
}

impl Model for TicketRoom {
    ghost use Rattle.std.specs.Prelude.{vec_capacity};
    ghost use Rattle.seq_bus_core.specs.TicketRooms.{TicketRoom as Filled};

    ghost Value = { Filled };

    ghost view = { λ r. record { tickets = r.tickets.items; room = vec_capacity r.tickets } };
}

impl TicketRoom {
    /// Room for so many tickets, none of which is there yet. It takes memory.
    pub fn new(alloc: Global, room: usize) -> Result<TicketRoom, AllocError>
        ensures { IfOk result (λ made. (made.tickets ≡ []) × (room ≤ made.room)) }
    {
        let tickets = Vec::with_capacity(alloc, room)?;
        Ok(TicketRoom { tickets })
    }

    /// One more ticket, behind the others. It takes no memory.
    pub fn push(&mut self, ticket: SettledTicket)
        requires { length self.old.tickets < self.old.room }
        ensures tickets { self.new.tickets ≡ self.old.tickets ++ ticket ∷ [] }
        ensures room { self.new.room ≡ self.old.room }
    {
        self.tickets.push_reserved(ticket);
    }

    /// The tickets that are there.
    pub fn into_tickets(self) -> Tickets
        ensures { result ≡ self.tickets }
    {
        Tickets {
            tickets: self.tickets,
        }
    }
}

/// A ticket that waits no longer, by its number alone.
#[derive(Clone, Copy, Debug, PartialEq, Eq)]
pub struct SettledNumber {
    pub fate: Fate,
    pub number: u64,
}

/// The numbers of the tickets that a change settled, in order of arrival.
#[derive(Debug, Drop)]
pub struct TicketNumbers {
    numbers: Vec<SettledNumber>,
}

impl Model for TicketNumbers {
    ghost use Rattle.std.specs.Prelude.{List};
    ghost use Rattle.seq_bus_core.specs.declared.ticket.SettledNumber.{SettledNumber};

    ghost Value = { List SettledNumber };

    ghost view = { λ t. t.numbers.items };
}

impl TicketNumbers {
    /// No tickets.
    pub fn new(alloc: Global) -> Self
        ensures { result ≡ [] }
    {
        TicketNumbers {
            numbers: Vec::new(alloc),
        }
    }

    /// One more ticket, behind the others.
    pub fn push(&mut self, ticket: SettledNumber) -> Result<(), AllocError>
        ensures ok { OnOk result (self.new ≡ self.old ++ ticket ∷ []) }
        ensures err { OnErr result (self.new ≡ self.old) }
    {
        self.numbers.push(ticket)?;
        Ok(())
    }

    /// The tickets, in order.
    pub fn as_slice(&self) -> &[SettledNumber]
        ensures { result.now ≡ self.now }
    {
        self.numbers.as_slice()
    }
}
