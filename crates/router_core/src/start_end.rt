//! Starts of services that end without their names.

use names::BusName;
use seq_bus_core::Ending;

/// How a start ended.
#[derive(Clone, Copy, Debug, PartialEq, Eq)]
pub enum HowEnded {
    /// Its program ended, or could not be run.
    Program(Ending),
    /// Its program did not take the name in time.
    TimedOut,
}

/// The end of a start. (D-Bus Specification: "Message Bus Starting Services (Activation)")
#[derive(Clone, Copy, Debug, PartialEq, Eq)]
pub struct StartEnd {
    /// The name of the service.
    pub name: BusName,
    /// The number of the start, which the bus gave it.
    pub start: u64,
    pub how: HowEnded,
}
