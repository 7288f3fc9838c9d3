//! What bytes and calls are read as.

ghost use Rattle.router_core.specs.Readings.{CallsAreOne, CallsAreRead, IncomingIsOne, IncomingStays};

/// What stands at the front of bytes is one thing: a message and what is behind it, or one fault,
/// or the beginning of a message.
#[tactic(auto, using(crate::proofs::Incoming::incoming_is_one))]
pub fn incoming_is_one()
    ensures { IncomingIsOne }
{}

/// More bytes behind a message or a fault make no other of it.
#[tactic(auto, using(crate::proofs::Incoming::incoming_stays))]
pub fn incoming_stays()
    ensures { IncomingStays }
{}

/// A message to the bus is read as one call, or has one fault.
#[tactic(auto, using(crate::proofs::Calls::calls_are_one, crate::proofs::Calls::calls_are_read))]
pub fn calls_have_one_reading()
    ensures one { CallsAreOne }
    ensures read { CallsAreRead }
{}
