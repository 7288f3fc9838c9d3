//! What takes memory, once each with enough of it.

use names::{BusName, UniqueName};
use seq_bus_core::{
    AddressedSignal, BusSignal, CallHead, Conn, Fate, Outcome, Recipients, Reply, SettledNumber,
    SettledTicket, SharedBytes, Signals, Ticket, TicketNumbers, TicketRoom,
};
use std::alloc::{AllocError, Global};
use std::sync::Arc;

fn at(number: u64) -> Conn {
    Conn {
        number,
        slot: 0,
        router: 1,
    }
}

fn acquired(alloc: Global, owner: u64) -> Result<AddressedSignal, AllocError> {
    let name = BusName::from(UniqueName::of(owner));
    let signal = BusSignal::NameAcquired { name, owner };
    AddressedSignal::new(alloc, signal, &[at(owner)], &[])
}

/// How many of three signals to one recipient each are there, first where they stand, then handed
/// out.
pub fn signals(alloc: Global) -> Result<(usize, usize), AllocError> {
    let mut signals = Signals::new(alloc);
    for owner in 1..4 {
        signals.push(acquired(alloc, owner)?)?;
    }
    let to_one = signals
        .as_slice()
        .iter()
        .filter(|signal| signal.to.as_slice().len() == 1);
    let standing = to_one.count();
    let handed_out = signals
        .into_iter()
        .filter(|signal| signal.to.as_slice().len() == 1);
    Ok((standing, handed_out.count()))
}

/// Whether connections that are put at their places, one by one, stand by rising number.
pub fn recipients() -> bool {
    let mut recipients = Recipients::new();
    recipients.insert(at(5));
    recipients.insert(at(1));
    recipients.insert(at(3));
    recipients.contains(3)
        && !recipients.contains(2)
        && recipients.as_slice() == [at(1), at(3), at(5)].as_slice()
}

/// How many bytes the message of a ticket has, how many tickets an outcome has, and how many
/// numbers of tickets there are.
pub fn tickets(alloc: Global) -> Result<(usize, usize, usize), AllocError> {
    let message = SharedBytes::new(Arc::new(alloc, vec![in alloc; 108, 1, 0, 1]?)?);
    let length = message.as_slice().len();
    let mut outcome = Outcome::new(alloc, Reply::Done);
    let mut room = TicketRoom::new(alloc, 1)?;
    room.push(SettledTicket {
        fate: Fate::Served,
        ticket: Ticket {
            number: 1,
            caller: Conn::default(),
            call: CallHead {
                serial: 7,
                flags: 0,
            },
            message: Some(message.try_clone()?),
        },
    });
    outcome.tickets = room.into_tickets();
    let mut numbers = TicketNumbers::new(alloc);
    numbers.push(SettledNumber {
        fate: Fate::Failed,
        number: 1,
    })?;
    Ok((
        length,
        outcome.tickets.as_slice().len(),
        numbers.as_slice().len(),
    ))
}
