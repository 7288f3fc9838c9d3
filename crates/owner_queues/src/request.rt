//! What a request of a name asks for.

ghost use Rattle.std.specs.Prelude.{◌≡◌};

/// The flag `DBUS_NAME_FLAG_ALLOW_REPLACEMENT`.
pub const ALLOW_REPLACEMENT: u32 = 0x1;
/// The flag `DBUS_NAME_FLAG_REPLACE_EXISTING`.
pub const REPLACE_EXISTING: u32 = 0x2;
/// The flag `DBUS_NAME_FLAG_DO_NOT_QUEUE`.
pub const DO_NOT_QUEUE: u32 = 0x4;

/// The flags of a request.
/// (D-Bus Specification: `org.freedesktop.DBus.RequestName`.)
#[derive(Clone, Copy, Debug, Default, PartialEq, Eq)]
pub struct RequestFlags {
    /// Another connection may take the name away.
    pub allow_replacement: bool,
    /// Take the name from its owner, if that allows it.
    pub replace_existing: bool,
    /// Do not wait for the name where it can't be had now.
    pub do_not_queue: bool,
}

impl RequestFlags {
    ghost use Rattle.owner_queues.specs.Requests.{flags_of};

    /// The flags that stand in a message as a number. Bits that are no flag are ignored.
    pub fn from_bits(bits: u32) -> RequestFlags
        ensures { result ≡ flags_of bits }
    {
        RequestFlags {
            allow_replacement: bits & ALLOW_REPLACEMENT != 0,
            replace_existing: bits & REPLACE_EXISTING != 0,
            do_not_queue: bits & DO_NOT_QUEUE != 0,
        }
    }
}

/// Where a request waits that would replace the owner and can't.
#[derive(Clone, Copy, Debug, PartialEq, Eq)]
pub enum Profile {
    /// Like any other: behind all who wait, or in the place that its connection has.
    One,
    /// Before all who wait.
    Two,
}
