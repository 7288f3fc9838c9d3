//! Faults of a bus in the words of `busd serve`.

use busd_core::{Device, ServeFault, device_fault};
use routers::Fault;
use std::io;

/// The fault of a poll.
pub(crate) fn poll_fault(error: io::Error) -> ServeFault {
    device_fault(error, Device::Poll)
}

/// The fault of the socket that clients connect to.
pub(crate) fn listen_fault(error: io::Error) -> ServeFault {
    device_fault(error, Device::Listen)
}

/// The fault of routers.
pub(crate) fn fault_of(fault: Fault) -> ServeFault {
    match fault {
        Fault::Poll => ServeFault::Device(Device::Poll),
        Fault::Random => ServeFault::Device(Device::Random),
        Fault::Trace => ServeFault::Device(Device::Trace),
        Fault::Memory => ServeFault::Memory,
    }
}
