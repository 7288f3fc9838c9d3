//! The messages of a first conversation with the bus, put together from the wire format by hand.

/// Hello, little-endian, serial 1.
pub const HELLO: &[u8] =
    b"l\x01\0\x01\0\0\0\0\x01\0\0\0m\0\0\0\x01\x01o\0\x15\0\0\0/org/freedesktop/DBus\0\0\0\x02\x01s\0\x14\0\0\0org.freedesktop.DBus\0\0\0\0\x03\x01s\0\x05\0\0\0Hello\0\0\0\x06\x01s\0\x14\0\0\0org.freedesktop.DBus\0\0\0\0";

/// Its reply to the first connection: `:1.1`.
pub const WELCOME: &[u8] =
    b"l\x02\x01\x01\x09\0\0\0\x01\0\0\0?\0\0\0\x05\x01u\0\x01\0\0\0\x06\x01s\0\x04\0\0\0:1.1\0\0\0\0\x07\x01s\0\x14\0\0\0org.freedesktop.DBus\0\0\0\0\x08\x01g\0\x01s\0\0\x04\0\0\0:1.1\0";

/// NameAcquired of `:1.1`, serial 2.
pub const ACQUIRED: &[u8] =
    b"l\x04\x01\x01\x09\0\0\0\x02\0\0\0\x8f\0\0\0\x01\x01o\0\x15\0\0\0/org/freedesktop/DBus\0\0\0\x02\x01s\0\x14\0\0\0org.freedesktop.DBus\0\0\0\0\x03\x01s\0\x0c\0\0\0NameAcquired\0\0\0\0\x06\x01s\0\x04\0\0\0:1.1\0\0\0\0\x07\x01s\0\x14\0\0\0org.freedesktop.DBus\0\0\0\0\x08\x01g\0\x01s\0\0\x04\0\0\0:1.1\0";

/// GetNameOwner of `:1.1`, big-endian, serial 2.
pub const GET_NAME_OWNER: &[u8] =
    b"B\x01\0\x01\0\0\0\x09\0\0\0\x02\0\0\0\x7f\x01\x01o\0\0\0\0\x15/org/freedesktop/DBus\0\0\0\x02\x01s\0\0\0\0\x14org.freedesktop.DBus\0\0\0\0\x03\x01s\0\0\0\0\x0cGetNameOwner\0\0\0\0\x06\x01s\0\0\0\0\x14org.freedesktop.DBus\0\0\0\0\x08\x01g\0\x01s\0\0\0\0\0\x04:1.1\0";

/// Its reply, serial 3.
pub const OWNER: &[u8] =
    b"l\x02\x01\x01\x09\0\0\0\x03\0\0\0?\0\0\0\x05\x01u\0\x02\0\0\0\x06\x01s\0\x04\0\0\0:1.1\0\0\0\0\x07\x01s\0\x14\0\0\0org.freedesktop.DBus\0\0\0\0\x08\x01g\0\x01s\0\0\x04\0\0\0:1.1\0";
