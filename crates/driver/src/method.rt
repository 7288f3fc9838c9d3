//! Methods of the bus.

ghost use Rattle.std.specs.Prelude.{◌≡◌, Option};
ghost use Rattle.names.specs.Texts.{Text};
ghost use Rattle.message_core.specs.Said.{said};
ghost use Rattle.message_core.specs.Whole.{Lends};
ghost use Rattle.driver.specs.Methods.{interface_of, is_bus_interface, method_in, method_named, method_of, method_within, signature_of};

use crate::fault::DriverFault;
use message_core::Message;
use names::BUS_NAME;

/// The interface of the bus for monitors.
const MONITORING: &str = "org.freedesktop.DBus.Monitoring";

/// A method of the bus ("Message Bus Messages" of the D-Bus Specification).
#[derive(Clone, Copy, Debug, PartialEq, Eq)]
pub enum Method {
    Hello,
    RequestName,
    ReleaseName,
    GetNameOwner,
    NameHasOwner,
    ListNames,
    ListActivatableNames,
    ListQueuedOwners,
    AddMatch,
    RemoveMatch,
    StartServiceByName,
    BecomeMonitor,
}

impl Method {
    fn interface(self) -> &'static str
        ensures { result.now ≡ interface_of self }
    {
        match self {
            Method::BecomeMonitor => MONITORING,
            _ => BUS_NAME,
        }
    }

    /// The types of its arguments.
    fn signature(self) -> &'static [u8]
        ensures { result.now ≡ signature_of self }
    {
        match self {
            Method::Hello | Method::ListNames | Method::ListActivatableNames => b"",
            Method::RequestName | Method::StartServiceByName => b"su",
            Method::ReleaseName
            | Method::GetNameOwner
            | Method::NameHasOwner
            | Method::ListQueuedOwners
            | Method::AddMatch
            | Method::RemoveMatch => b"s",
            Method::BecomeMonitor => b"asu",
        }
    }
}

fn method_named(member: Option<&str>) -> Result<Method, DriverFault>
    ensures { (name : Option Text) → Lends member.entry name → result ≡ method_named name }
{
    match member {
        Some("Hello") => Ok(Method::Hello),
        Some("RequestName") => Ok(Method::RequestName),
        Some("ReleaseName") => Ok(Method::ReleaseName),
        Some("GetNameOwner") => Ok(Method::GetNameOwner),
        Some("NameHasOwner") => Ok(Method::NameHasOwner),
        Some("ListNames") => Ok(Method::ListNames),
        Some("ListActivatableNames") => Ok(Method::ListActivatableNames),
        Some("ListQueuedOwners") => Ok(Method::ListQueuedOwners),
        Some("AddMatch") => Ok(Method::AddMatch),
        Some("RemoveMatch") => Ok(Method::RemoveMatch),
        Some("StartServiceByName") => Ok(Method::StartServiceByName),
        Some("BecomeMonitor") => Ok(Method::BecomeMonitor),
        _ => Err(DriverFault::UnknownMethod),
    }
}

fn is_bus_interface(interface: &str) -> bool
    ensures { result ≡ is_bus_interface interface.now }
{
    interface == BUS_NAME || interface == MONITORING
}

fn method_within(interface: &str, member: Option<&str>) -> Result<Method, DriverFault>
    ensures { (name : Option Text) → Lends member.entry name
        → result ≡ method_within interface.now name }
{
    if !is_bus_interface(interface) {
        return Err(DriverFault::UnknownInterface);
    }
    let method = method_named(member)?;
    if interface == method.interface() {
        Ok(method)
    } else {
        Err(DriverFault::UnknownMethod)
    }
}

fn method_in(interface: Option<&str>, member: Option<&str>) -> Result<Method, DriverFault>
    ensures { (in_interface name : Option Text) → Lends interface.entry in_interface
        → Lends member.entry name → result ≡ method_in in_interface name }
{
    match interface {
        Some(interface) => method_within(interface, member),
        None => method_named(member),
    }
}

/// The method that a call to the bus calls, or the fault of its interface, its member or its
/// signature, in this order.
pub fn method_of(message: &Message) -> Result<Method, DriverFault>
    ensures { result ≡ method_of (said message.now) }
{
    let method = method_in(message.interface(), message.member())?;
    if message.signature() == method.signature() {
        Ok(method)
    } else {
        Err(DriverFault::InvalidArgs)
    }
}
