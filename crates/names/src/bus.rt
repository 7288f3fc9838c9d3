//! What the bus itself is called. (D-Bus Specification: "Message Bus Messages".)

/// The name of the bus, and of the interface that its methods and signals are of.
pub const BUS_NAME: &str = "org.freedesktop.DBus";

/// The path of the object that the bus is.
pub const BUS_PATH: &str = "/org/freedesktop/DBus";
