//! What is to be done about started programs.

use names::BusName;
use seq_bus_core::Change;

/// What is to be done.
#[derive(Drop)]
pub enum Deed {
    /// The program of the service of this name is to be run, as the start of this number.
    Run { name: BusName, start: u64 },
    /// The change is to be made on the bus.
    Report(Change),
}
