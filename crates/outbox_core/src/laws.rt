//! Laws of the definitions. Each function does nothing: what it ensures is the law.

ghost use Rattle.outbox_core.specs.Deliveries.{EachGetsItOnce, NobodyElseGetsIt};
ghost use Rattle.outbox_core.specs.Signals.{SignalsAreTestedAsWritten};

/// Where no recipient and no monitor is named twice, each of them gets a message once.
pub fn each_gets_it_once()
    ensures { EachGetsItOnce }
{}

/// A message goes to its recipients and the monitors, and to nobody else.
pub fn nobody_else_gets_it()
    ensures { NobodyElseGetsIt }
{}

/// A signal of the bus is tested against match rules before it is written. What they see of it is
/// what stands in the message that is written of it, whatever its serial.
pub fn signals_are_tested_as_written()
    ensures { SignalsAreTestedAsWritten }
{}
