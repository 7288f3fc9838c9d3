//! The calls that a bus holds.

ghost use Rattle.std.specs.Prelude.{◌≡◌, ℕ, ◌<◌, ◌≤◌, ◌+◌, true, [], ◌++◌, is_some, length, map, IfOk};
ghost use Rattle.activation.specs.Holding.{Holding};
ghost use Rattle.seq_bus_core.specs.declared.limits.TheConstants.{MAX_TICKETS};
ghost use Rattle.seq_bus_core.specs.declared.ticket.Ticket.{Ticket};
ghost use Rattle.activation.specs.Rooms.{IsRoomFor, message_of};
ghost use Rattle.activation.specs.Settling.{IsSettled, IsSomeStep, caller_of, let_go, new_call, once_told, settled_as};
ghost use Rattle.seq_bus_core.specs.declared.outcome.Reply.TheVariants.{Held};

use crate::Holder;
use crate::room::CallRoom;
use seq_bus_core::{
    Change, Conn, NumberedOutcome, Outcome, Reply, SettledTicket, SharedBytes, Ticket,
    TicketNumbers, TicketRoom,
};
use std::alloc::{AllocError, Global};
use std::marker::Model;

/// The calls that a bus holds, each with the name that it waits for, in order of arrival.
///
/// A call waits until its name gets an owner or the start of the name's service fails, also where
/// its caller has left.
#[derive(Drop)]
pub struct HeldCalls {
    holder: Holder<Ticket>,
}

impl Model for HeldCalls {
    ghost use Rattle.std.specs.Prelude.{◌≡◌, []};
    ghost use Rattle.activation.specs.Holdings.{Calls};

    ghost Value = { Calls };

    ghost view = { λ h. h.holder.held };

    ghost invariant = { λ h. h.holder.given ≡ [] };
}

impl HeldCalls {
    /// No calls. It takes the memory for all calls that it can ever hold.
    pub fn new(alloc: Global) -> Result<HeldCalls, AllocError>
        ensures { IfOk result (λ calls. calls ≡ []) }
    {
        Ok(HeldCalls {
            holder: Holder::new(alloc)?,
        })
    }

    /// Makes what settling a change needs of memory, where the change is told this.
    ///
    /// The bytes of a message are shared, and not copied. It fails for want of memory, or where too
    /// many share the message already.
    pub fn room_for(
        alloc: Global,
        change: &Change,
        told: &NumberedOutcome,
    ) -> Result<CallRoom, AllocError>
        ensures { IfOk result (λ room. IsRoomFor change.now told.now room) }
    {
        CallRoom::new(alloc, change, told)
    }

    /// Settles a change: calls that it lets go wait no longer, and a call that it makes wait does
    /// from now on. Gives what the change is told, each of its tickets with what it carries.
    ///
    /// The caller is where the connection of a Start or a Hold is reached, and what the change is
    /// told is what the bus says of it. It takes no memory, and can't be refused.
    pub fn settle(
        &mut self,
        change: &Change,
        caller: Option<Conn>,
        told: NumberedOutcome,
        room: CallRoom,
    ) -> Outcome
        requires step { IsSomeStep change.now caller told self.old }
        requires room { IsRoomFor change.now told room }
        ensures { IsSettled change.now caller told self.old self.new result }
    {
        let NumberedOutcome {
            reply,
            signals,
            tickets,
            start,
        } = told;
        let CallRoom {
            mut settled,
            message,
        } = room;
        let_go_told(&mut self.holder, change, &tickets, &mut settled);
        hold(&mut self.holder, change, caller, reply, message);
        Outcome {
            reply,
            signals,
            tickets: settled.into_tickets(),
            start,
        }
    }
}

/// Lets go the calls that wait for the name that a change is about.
fn let_go(holder: &mut Holder<Ticket>, change: &Change)
    requires { holder.old.given ≡ [] }
    ensures { holder.new ≡ let_go change.now holder.old.held }
{
    match change {
        Change::Request { name, .. } => holder.release_all(name),
        Change::ChildEnded { name, .. } => holder.fail_all(name),
        Change::StartTimedOut { name, .. } => holder.fail_all(name),
        _ => {}
    }
}

/// Lets go the calls that a change is told of by their numbers, and hands them out as settled
/// tickets.
fn let_go_told(
    holder: &mut Holder<Ticket>,
    change: &Change,
    numbers: &TicketNumbers,
    settled: &mut TicketRoom,
)
    requires none { holder.old.given ≡ [] }
    requires room { length settled.old.tickets
        + length (once_told change.now numbers.now holder.old.held).given ≤ settled.old.room }
    ensures left { holder.new ≡ record {
      held = (once_told change.now numbers.now holder.old.held).held;
      given = [];
    } }
    ensures tickets { settled.new.tickets ≡ settled.old.tickets
        ++ map settled_as (once_told change.now numbers.now holder.old.held).given }
{
    if numbers.as_slice().is_empty() {
        return;
    }
    let_go(holder, change);
    hand_out(holder, settled);
}

/// Hands out the calls that were let go, as settled tickets.
fn hand_out(holder: &mut Holder<Ticket>, settled: &mut TicketRoom)
    requires { length settled.old.tickets + length holder.old.given ≤ settled.old.room }
    ensures calls { holder.new ≡ record holder.old { given = [] } }
    ensures tickets { settled.new.tickets ≡
        settled.old.tickets ++ map settled_as holder.old.given }
{
    while let Some(given) = holder.next_given() {
        settled.push(SettledTicket {
            fate: given.fate,
            ticket: given.what,
        });
    }
}

/// From now on a call waits, if the change is one that may make it wait and is told so.
fn hold(
    holder: &mut Holder<Ticket>,
    change: &Change,
    caller: Option<Conn>,
    reply: Reply,
    message: Option<SharedBytes>,
)
    requires room { is_some (caller_of change.now) ≡ true → (number : ℕ) →
        reply ≡ Held number → length holder.old.held + length holder.old.given < MAX_TICKETS }
    requires message { message ≡ message_of change.now }
    ensures { holder.new ≡ record holder.old {
      held = holder.old.held ++ new_call change.now reply caller;
    } }
{
    let Some(caller) = caller else {
        return;
    };
    let Reply::Held(number) = reply else {
        return;
    };
    match change {
        Change::Start { name, call, .. } => holder.hold(
            *name,
            Ticket {
                number,
                caller,
                call: *call,
                message,
            },
        ),
        Change::Hold { name, call, .. } => holder.hold(
            *name,
            Ticket {
                number,
                caller,
                call: *call,
                message,
            },
        ),
        _ => {}
    }
}
