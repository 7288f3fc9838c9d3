//! What settling a change needs of memory.

ghost use Rattle.std.specs.Prelude.{◌≡◌, IfOk};
ghost use Rattle.activation.specs.Rooms.{IsRoomFor, message_of};

use seq_bus_core::{Change, NumberedOutcome, SharedBytes, TicketRoom};
use std::alloc::{AllocError, Global};
use std::marker::Model;

/// What settling a change needs of memory: room for the tickets that it settles, and its message
/// once more, where it is a call that may have to wait.
#[derive(Drop)]
pub struct CallRoom {
    pub(crate) settled: TicketRoom,
    pub(crate) message: Option<SharedBytes>,
}

impl Model for CallRoom {
    ghost use Rattle.activation.specs.Rooms.{CallRoom as Made};

    ghost Value = { Made };

    ghost view = { λ r. record { settled = r.settled; message = r.message } };
}

impl CallRoom {
    /// The room for a change that is told this. The bytes of a message are shared, and not copied.
    ///
    /// It fails for want of memory, or where too many share the message already.
    pub fn new(
        alloc: Global,
        change: &Change,
        told: &NumberedOutcome,
    ) -> Result<CallRoom, AllocError>
        ensures { IfOk result (λ room. IsRoomFor change.now told.now room) }
    {
        let settled = TicketRoom::new(alloc, told.tickets.as_slice().len())?;
        let message = message_of(change)?;
        Ok(CallRoom { settled, message })
    }
}

/// The message that a change brings, for one more.
fn message_of(change: &Change) -> Result<Option<SharedBytes>, AllocError>
    ensures { IfOk result (λ message. message ≡ message_of change.now) }
{
    match change {
        Change::Hold { message, .. } => Ok(Some(message.try_clone()?)),
        _ => Ok(None),
    }
}
