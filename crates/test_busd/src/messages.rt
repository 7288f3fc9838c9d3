//! Messages of a client and of the bus, put together from the wire format by hand.

/// Hello with serial 2.
pub const HELLO_AGAIN: &[u8] =
    b"l\x01\0\x01\0\0\0\0\x02\0\0\0m\0\0\0\x01\x01o\0\x15\0\0\0/org/freedesktop/DBus\0\0\0\x02\x01s\0\x14\0\0\0org.freedesktop.DBus\0\0\0\0\x03\x01s\0\x05\0\0\0Hello\0\0\0\x06\x01s\0\x14\0\0\0org.freedesktop.DBus\0\0\0\0";

/// The error that a second Hello gets.
pub const FAILED: &[u8] =
    b"l\x03\x01\x01\x16\0\0\0\x03\0\0\0o\0\0\0\x04\x01s\0!\0\0\0org.freedesktop.DBus.Error.Failed\0\0\0\0\0\0\0\x05\x01u\0\x02\0\0\0\x06\x01s\0\x04\0\0\0:1.1\0\0\0\0\x07\x01s\0\x14\0\0\0org.freedesktop.DBus\0\0\0\0\x08\x01g\0\x01s\0\0\x11\0\0\0Not possible here\0";

/// A call without interface and destination.
pub const OTHER_METHOD: &[u8] =
    b"l\x01\0\x01\0\0\0\0\x02\0\0\0-\0\0\0\x01\x01o\0\x15\0\0\0/org/freedesktop/DBus\0\0\0\x03\x01s\0\x04\0\0\0Ping\0\0\0\0";

/// A call of BecomeMonitor without its arguments.
pub const MONITOR_METHOD: &[u8] =
    b"l\x01\0\x01\0\0\0\0\x02\0\0\0}\0\0\0\x01\x01o\0\x15\0\0\0/org/freedesktop/DBus\0\0\0\x02\x01s\0\x1f\0\0\0org.freedesktop.DBus.Monitoring\0\x03\x01s\0\x0d\0\0\0BecomeMonitor\0\0\0\x06\x01s\0\x14\0\0\0org.freedesktop.DBus\0\0\0\0";

pub const UNKNOWN_METHOD: &[u8] =
    b"l\x03\x01\x01\x13\0\0\0\x03\0\0\0w\0\0\0\x04\x01s\0(\0\0\0org.freedesktop.DBus.Error.UnknownMethod\0\0\0\0\0\0\0\0\x05\x01u\0\x02\0\0\0\x06\x01s\0\x04\0\0\0:1.1\0\0\0\0\x07\x01s\0\x14\0\0\0org.freedesktop.DBus\0\0\0\0\x08\x01g\0\x01s\0\0\x0e\0\0\0No such method\0";

/// A call of another interface.
pub const OTHER_INTERFACE: &[u8] =
    b"l\x01\0\x01\0\0\0\0\x02\0\0\0u\0\0\0\x01\x01o\0\x15\0\0\0/org/freedesktop/DBus\0\0\0\x02\x01s\0\x19\0\0\0org.freedesktop.DBus.Peer\0\0\0\0\0\0\0\x03\x01s\0\x04\0\0\0Ping\0\0\0\0\x06\x01s\0\x14\0\0\0org.freedesktop.DBus\0\0\0\0";

pub const UNKNOWN_INTERFACE: &[u8] =
    b"l\x03\x01\x01\x16\0\0\0\x03\0\0\0w\0\0\0\x04\x01s\0+\0\0\0org.freedesktop.DBus.Error.UnknownInterface\0\0\0\0\0\x05\x01u\0\x02\0\0\0\x06\x01s\0\x04\0\0\0:1.1\0\0\0\0\x07\x01s\0\x14\0\0\0org.freedesktop.DBus\0\0\0\0\x08\x01g\0\x01s\0\0\x11\0\0\0No such interface\0";

/// GetNameOwner of nothing.
pub const NO_ARGUMENT: &[u8] =
    b"l\x01\0\x01\0\0\0\0\x02\0\0\0u\0\0\0\x01\x01o\0\x15\0\0\0/org/freedesktop/DBus\0\0\0\x02\x01s\0\x14\0\0\0org.freedesktop.DBus\0\0\0\0\x03\x01s\0\x0c\0\0\0GetNameOwner\0\0\0\0\x06\x01s\0\x14\0\0\0org.freedesktop.DBus\0\0\0\0";

/// GetNameOwner of a text that is no bus name.
pub const NO_NAME: &[u8] =
    b"l\x01\0\x01\x0c\0\0\0\x02\0\0\0\x7f\0\0\0\x01\x01o\0\x15\0\0\0/org/freedesktop/DBus\0\0\0\x02\x01s\0\x14\0\0\0org.freedesktop.DBus\0\0\0\0\x03\x01s\0\x0c\0\0\0GetNameOwner\0\0\0\0\x06\x01s\0\x14\0\0\0org.freedesktop.DBus\0\0\0\0\x08\x01g\0\x01s\0\0\x07\0\0\0no_name\0";

/// GetNameOwner of an object path.
pub const OBJECT_PATH: &[u8] =
    b"l\x01\0\x01\x07\0\0\0\x02\0\0\0\x7f\0\0\0\x01\x01o\0\x15\0\0\0/org/freedesktop/DBus\0\0\0\x02\x01s\0\x14\0\0\0org.freedesktop.DBus\0\0\0\0\x03\x01s\0\x0c\0\0\0GetNameOwner\0\0\0\0\x06\x01s\0\x14\0\0\0org.freedesktop.DBus\0\0\0\0\x08\x01g\0\x01o\0\0\x02\0\0\0/a\0";

pub const INVALID_ARGS: &[u8] =
    b"l\x03\x01\x01\x16\0\0\0\x03\0\0\0o\0\0\0\x04\x01s\0&\0\0\0org.freedesktop.DBus.Error.InvalidArgs\0\0\x05\x01u\0\x02\0\0\0\x06\x01s\0\x04\0\0\0:1.1\0\0\0\0\x07\x01s\0\x14\0\0\0org.freedesktop.DBus\0\0\0\0\x08\x01g\0\x01s\0\0\x11\0\0\0Invalid arguments\0";

/// GetNameOwner of a name without owner.
pub const OTHER_OWNER: &[u8] =
    b"l\x01\0\x01\x12\0\0\0\x02\0\0\0\x7f\0\0\0\x01\x01o\0\x15\0\0\0/org/freedesktop/DBus\0\0\0\x02\x01s\0\x14\0\0\0org.freedesktop.DBus\0\0\0\0\x03\x01s\0\x0c\0\0\0GetNameOwner\0\0\0\0\x06\x01s\0\x14\0\0\0org.freedesktop.DBus\0\0\0\0\x08\x01g\0\x01s\0\0\x0d\0\0\0com.example.A\0";

pub const NO_OWNER: &[u8] =
    b"l\x03\x01\x01\x1a\0\0\0\x03\0\0\0w\0\0\0\x04\x01s\0)\0\0\0org.freedesktop.DBus.Error.NameHasNoOwner\0\0\0\0\0\0\0\x05\x01u\0\x02\0\0\0\x06\x01s\0\x04\0\0\0:1.1\0\0\0\0\x07\x01s\0\x14\0\0\0org.freedesktop.DBus\0\0\0\0\x08\x01g\0\x01s\0\0\x15\0\0\0The name has no owner\0";

/// GetNameOwner of the bus.
pub const BUS_OWNER: &[u8] =
    b"l\x01\0\x01\x19\0\0\0\x02\0\0\0\x7f\0\0\0\x01\x01o\0\x15\0\0\0/org/freedesktop/DBus\0\0\0\x02\x01s\0\x14\0\0\0org.freedesktop.DBus\0\0\0\0\x03\x01s\0\x0c\0\0\0GetNameOwner\0\0\0\0\x06\x01s\0\x14\0\0\0org.freedesktop.DBus\0\0\0\0\x08\x01g\0\x01s\0\0\x14\0\0\0org.freedesktop.DBus\0";

pub const BUS_REPLY: &[u8] =
    b"l\x02\x01\x01\x19\0\0\0\x03\0\0\0?\0\0\0\x05\x01u\0\x02\0\0\0\x06\x01s\0\x04\0\0\0:1.1\0\0\0\0\x07\x01s\0\x14\0\0\0org.freedesktop.DBus\0\0\0\0\x08\x01g\0\x01s\0\0\x14\0\0\0org.freedesktop.DBus\0";

/// GetNameOwner that expects no reply.
pub const SILENT: &[u8] =
    b"l\x01\x01\x01\x09\0\0\0\x02\0\0\0\x7f\0\0\0\x01\x01o\0\x15\0\0\0/org/freedesktop/DBus\0\0\0\x02\x01s\0\x14\0\0\0org.freedesktop.DBus\0\0\0\0\x03\x01s\0\x0c\0\0\0GetNameOwner\0\0\0\0\x06\x01s\0\x14\0\0\0org.freedesktop.DBus\0\0\0\0\x08\x01g\0\x01s\0\0\x04\0\0\0:1.1\0";

/// Hello that expects no reply.
pub const SILENT_HELLO: &[u8] =
    b"l\x01\x01\x01\0\0\0\0\x01\0\0\0m\0\0\0\x01\x01o\0\x15\0\0\0/org/freedesktop/DBus\0\0\0\x02\x01s\0\x14\0\0\0org.freedesktop.DBus\0\0\0\0\x03\x01s\0\x05\0\0\0Hello\0\0\0\x06\x01s\0\x14\0\0\0org.freedesktop.DBus\0\0\0\0";

/// NameAcquired of `:1.1`, serial 1.
pub const ACQUIRED_FIRST: &[u8] =
    b"l\x04\x01\x01\x09\0\0\0\x01\0\0\0\x8f\0\0\0\x01\x01o\0\x15\0\0\0/org/freedesktop/DBus\0\0\0\x02\x01s\0\x14\0\0\0org.freedesktop.DBus\0\0\0\0\x03\x01s\0\x0c\0\0\0NameAcquired\0\0\0\0\x06\x01s\0\x04\0\0\0:1.1\0\0\0\0\x07\x01s\0\x14\0\0\0org.freedesktop.DBus\0\0\0\0\x08\x01g\0\x01s\0\0\x04\0\0\0:1.1\0";

/// A signal that no rule asks for.
pub const SIGNAL: &[u8] =
    b"l\x04\0\x01\0\0\0\0\x02\0\0\0*\0\0\0\x01\x01o\0\x02\0\0\0/a\0\0\0\0\0\0\x02\x01s\0\x03\0\0\0a.b\0\0\0\0\0\x03\x01s\0\x01\0\0\0C\0\0\0\0\0\0\0";

/// A call to a name that has no owner.
pub const ELSEWHERE: &[u8] =
    b"l\x01\0\x01\0\0\0\0\x02\0\0\0f\0\0\0\x01\x01o\0\x15\0\0\0/org/freedesktop/DBus\0\0\0\x02\x01s\0\x14\0\0\0org.freedesktop.DBus\0\0\0\0\x03\x01s\0\x04\0\0\0Ping\0\0\0\0\x06\x01s\0\x0d\0\0\0com.example.A\0\0\0";

/// A message of a type that the standard does not name.
pub const UNKNOWN_KIND: &[u8] = b"l\x05\0\x01\0\0\0\0\x02\0\0\0\0\0\0\0";

/// Hello with an argument.
pub const HELLO_WITH_ARGUMENT: &[u8] =
    b"l\x01\0\x01\x06\0\0\0\x01\0\0\0w\0\0\0\x01\x01o\0\x15\0\0\0/org/freedesktop/DBus\0\0\0\x02\x01s\0\x14\0\0\0org.freedesktop.DBus\0\0\0\0\x03\x01s\0\x05\0\0\0Hello\0\0\0\x06\x01s\0\x14\0\0\0org.freedesktop.DBus\0\0\0\0\x08\x01g\0\x01s\0\0\x01\0\0\0a\0";

/// The error where a Hello found no memory.
pub const MEMORY_AT_HELLO: &[u8] =
    b"l\x03\x01\x01\x12\0\0\0\x01\0\0\0_\0\0\0\x04\x01s\0#\0\0\0org.freedesktop.DBus.Error.NoMemory\0\0\0\0\0\x05\x01u\0\x01\0\0\0\x07\x01s\0\x14\0\0\0org.freedesktop.DBus\0\0\0\0\x08\x01g\0\x01s\0\0\x0d\0\0\0Out of memory\0";

/// The error where the call after Hello found no memory.
pub const NO_MEMORY: &[u8] =
    b"l\x03\x01\x01\x12\0\0\0\x03\0\0\0o\0\0\0\x04\x01s\0#\0\0\0org.freedesktop.DBus.Error.NoMemory\0\0\0\0\0\x05\x01u\0\x02\0\0\0\x06\x01s\0\x04\0\0\0:1.1\0\0\0\0\x07\x01s\0\x14\0\0\0org.freedesktop.DBus\0\0\0\0\x08\x01g\0\x01s\0\0\x0d\0\0\0Out of memory\0";

/// NameHasOwner of `:1.1`.
pub const NAME_HAS_OWNER: &[u8] =
    b"l\x01\0\x01\x09\0\0\0\x02\0\0\0\x7f\0\0\0\x01\x01o\0\x15\0\0\0/org/freedesktop/DBus\0\0\0\x02\x01s\0\x14\0\0\0org.freedesktop.DBus\0\0\0\0\x03\x01s\0\x0c\0\0\0NameHasOwner\0\0\0\0\x06\x01s\0\x14\0\0\0org.freedesktop.DBus\0\0\0\0\x08\x01g\0\x01s\0\0\x04\0\0\0:1.1\0";

pub const HAS_OWNER: &[u8] =
    b"l\x02\x01\x01\x04\0\0\0\x03\0\0\0?\0\0\0\x05\x01u\0\x02\0\0\0\x06\x01s\0\x04\0\0\0:1.1\0\0\0\0\x07\x01s\0\x14\0\0\0org.freedesktop.DBus\0\0\0\0\x08\x01g\0\x01b\0\0\x01\0\0\0";

/// AddMatch of `type='signal'`.
pub const ADD_MATCH: &[u8] =
    b"l\x01\0\x01\x12\0\0\0\x02\0\0\0\x7f\0\0\0\x01\x01o\0\x15\0\0\0/org/freedesktop/DBus\0\0\0\x02\x01s\0\x14\0\0\0org.freedesktop.DBus\0\0\0\0\x03\x01s\0\x08\0\0\0AddMatch\0\0\0\0\0\0\0\0\x06\x01s\0\x14\0\0\0org.freedesktop.DBus\0\0\0\0\x08\x01g\0\x01s\0\0\x0d\0\0\0type='signal'\0";

/// The reply to `ADD_MATCH`.
pub const ADDED: &[u8] =
    b"l\x02\x01\x01\0\0\0\0\x03\0\0\x005\0\0\0\x05\x01u\0\x02\0\0\0\x06\x01s\0\x04\0\0\0:1.1\0\0\0\0\x07\x01s\0\x14\0\0\0org.freedesktop.DBus\0\0\0\0";

/// AddMatch of a text that is no match rule.
pub const ADD_NO_RULE: &[u8] =
    b"l\x01\0\x01\x0d\0\0\0\x02\0\0\0\x7f\0\0\0\x01\x01o\0\x15\0\0\0/org/freedesktop/DBus\0\0\0\x02\x01s\0\x14\0\0\0org.freedesktop.DBus\0\0\0\0\x03\x01s\0\x08\0\0\0AddMatch\0\0\0\0\0\0\0\0\x06\x01s\0\x14\0\0\0org.freedesktop.DBus\0\0\0\0\x08\x01g\0\x01s\0\0\x08\0\0\0type='x'\0";

pub const RULE_INVALID: &[u8] =
    b"l\x03\x01\x01\x17\0\0\0\x03\0\0\0w\0\0\0\x04\x01s\0+\0\0\0org.freedesktop.DBus.Error.MatchRuleInvalid\0\0\0\0\0\x05\x01u\0\x02\0\0\0\x06\x01s\0\x04\0\0\0:1.1\0\0\0\0\x07\x01s\0\x14\0\0\0org.freedesktop.DBus\0\0\0\0\x08\x01g\0\x01s\0\0\x12\0\0\0Invalid match rule\0";

/// RemoveMatch of `type='signal'`.
pub const REMOVE_MATCH: &[u8] =
    b"l\x01\0\x01\x12\0\0\0\x02\0\0\0\x7f\0\0\0\x01\x01o\0\x15\0\0\0/org/freedesktop/DBus\0\0\0\x02\x01s\0\x14\0\0\0org.freedesktop.DBus\0\0\0\0\x03\x01s\0\x0b\0\0\0RemoveMatch\0\0\0\0\0\x06\x01s\0\x14\0\0\0org.freedesktop.DBus\0\0\0\0\x08\x01g\0\x01s\0\0\x0d\0\0\0type='signal'\0";

/// The reply to `REMOVE_MATCH`, serial 4.
pub const REMOVED: &[u8] =
    b"l\x02\x01\x01\0\0\0\0\x04\0\0\x005\0\0\0\x05\x01u\0\x02\0\0\0\x06\x01s\0\x04\0\0\0:1.1\0\0\0\0\x07\x01s\0\x14\0\0\0org.freedesktop.DBus\0\0\0\0";

pub const RULE_NOT_FOUND: &[u8] =
    b"l\x03\x01\x01\x17\0\0\0\x03\0\0\0w\0\0\0\x04\x01s\0,\0\0\0org.freedesktop.DBus.Error.MatchRuleNotFound\0\0\0\0\x05\x01u\0\x02\0\0\0\x06\x01s\0\x04\0\0\0:1.1\0\0\0\0\x07\x01s\0\x14\0\0\0org.freedesktop.DBus\0\0\0\0\x08\x01g\0\x01s\0\0\x12\0\0\0No such match rule\0";

/// The error that `ELSEWHERE` gets.
pub const SERVICE_UNKNOWN: &[u8] =
    b"l\x03\x01\x01)\0\0\0\x03\0\0\0w\0\0\0\x04\x01s\0)\0\0\0org.freedesktop.DBus.Error.ServiceUnknown\0\0\0\0\0\0\0\x05\x01u\0\x02\0\0\0\x06\x01s\0\x04\0\0\0:1.1\0\0\0\0\x07\x01s\0\x14\0\0\0org.freedesktop.DBus\0\0\0\0\x08\x01g\0\x01s\0\0$\0\0\0The name has no owner and no service\0";

/// A call to a name that has no owner, which expects no reply.
pub const ELSEWHERE_SILENT: &[u8] =
    b"l\x01\x01\x01\0\0\0\0\x02\0\0\0f\0\0\0\x01\x01o\0\x15\0\0\0/org/freedesktop/DBus\0\0\0\x02\x01s\0\x14\0\0\0org.freedesktop.DBus\0\0\0\0\x03\x01s\0\x04\0\0\0Ping\0\0\0\0\x06\x01s\0\x0d\0\0\0com.example.A\0\0\0";

/// A call of the connection to itself, big-endian, with an unknown field and the name of another
/// sender.
pub const TO_ITSELF: &[u8] =
    b"B\x01\0\x01\0\0\0\x06\0\0\0\x02\0\0\0O\xc8\x01y\0\x07\0\0\0\x01\x01o\0\0\0\0\x02/a\0\0\0\0\0\0\x03\x01s\0\0\0\0\x04Ping\0\0\0\0\x06\x01s\0\0\0\0\x04:1.1\0\0\0\0\x07\x01s\0\0\0\0\x04:1.9\0\0\0\0\x08\x01g\0\x01s\0\0\0\0\0\x01x\0";

/// The same as it is relayed.
pub const TO_ITSELF_RELAYED: &[u8] =
    b"B\x01\0\x01\0\0\0\x06\0\0\0\x02\0\0\0G\x01\x01o\0\0\0\0\x02/a\0\0\0\0\0\0\x03\x01s\0\0\0\0\x04Ping\0\0\0\0\x06\x01s\0\0\0\0\x04:1.1\0\0\0\0\x07\x01s\0\0\0\0\x04:1.1\0\0\0\0\x08\x01g\0\x01s\0\0\0\0\0\x01x\0";

/// A reply to a connection that is not there.
pub const TO_NOBODY: &[u8] =
    b"l\x02\x01\x01\0\0\0\0\x02\0\0\0\x15\0\0\0\x05\x01u\0\x09\0\0\0\x06\x01s\0\x04\0\0\0:1.7\0\0\0\0";

/// A signal to the bus.
pub const SIGNAL_TO_BUS: &[u8] =
    b"l\x04\0\x01\0\0\0\0\x02\0\0\0M\0\0\0\x01\x01o\0\x02\0\0\0/a\0\0\0\0\0\0\x02\x01s\0\x03\0\0\0a.b\0\0\0\0\0\x03\x01s\0\x01\0\0\0C\0\0\0\0\0\0\0\x06\x01s\0\x14\0\0\0org.freedesktop.DBus\0\0\0\0";

/// A signal, serial 3.
pub const BROADCAST: &[u8] =
    b"l\x04\0\x01\0\0\0\0\x03\0\0\0*\0\0\0\x01\x01o\0\x02\0\0\0/a\0\0\0\0\0\0\x02\x01s\0\x03\0\0\0a.b\0\0\0\0\0\x03\x01s\0\x01\0\0\0C\0\0\0\0\0\0\0";

/// The same as it is relayed.
pub const BROADCAST_RELAYED: &[u8] =
    b"l\x04\0\x01\0\0\0\0\x03\0\0\0=\0\0\0\x01\x01o\0\x02\0\0\0/a\0\0\0\0\0\0\x02\x01s\0\x03\0\0\0a.b\0\0\0\0\0\x03\x01s\0\x01\0\0\0C\0\0\0\0\0\0\0\x07\x01s\0\x04\0\0\0:1.1\0\0\0\0";

/// ListNames.
pub const LIST_NAMES: &[u8] =
    b"l\x01\0\x01\0\0\0\0\x02\0\0\0u\0\0\0\x01\x01o\0\x15\0\0\0/org/freedesktop/DBus\0\0\0\x02\x01s\0\x14\0\0\0org.freedesktop.DBus\0\0\0\0\x03\x01s\0\x09\0\0\0ListNames\0\0\0\0\0\0\0\x06\x01s\0\x14\0\0\0org.freedesktop.DBus\0\0\0\0";

/// The bus and `:1.1`.
pub const NAMES: &[u8] =
    b"l\x02\x01\x01)\0\0\0\x03\0\0\0@\0\0\0\x05\x01u\0\x02\0\0\0\x06\x01s\0\x04\0\0\0:1.1\0\0\0\0\x07\x01s\0\x14\0\0\0org.freedesktop.DBus\0\0\0\0\x08\x01g\0\x02as\0%\0\0\0\x14\0\0\0org.freedesktop.DBus\0\0\0\0\x04\0\0\0:1.1\0";

/// ListActivatableNames.
pub const LIST_ACTIVATABLE_NAMES: &[u8] =
    b"l\x01\0\x01\0\0\0\0\x02\0\0\0}\0\0\0\x01\x01o\0\x15\0\0\0/org/freedesktop/DBus\0\0\0\x02\x01s\0\x14\0\0\0org.freedesktop.DBus\0\0\0\0\x03\x01s\0\x14\0\0\0ListActivatableNames\0\0\0\0\x06\x01s\0\x14\0\0\0org.freedesktop.DBus\0\0\0\0";

/// The bus alone.
pub const ACTIVATABLE_NAMES: &[u8] =
    b"l\x02\x01\x01\x1d\0\0\0\x03\0\0\0@\0\0\0\x05\x01u\0\x02\0\0\0\x06\x01s\0\x04\0\0\0:1.1\0\0\0\0\x07\x01s\0\x14\0\0\0org.freedesktop.DBus\0\0\0\0\x08\x01g\0\x02as\0\x19\0\0\0\x14\0\0\0org.freedesktop.DBus\0";

/// ListQueuedOwners of `:1.1`.
pub const LIST_OWN_QUEUE: &[u8] =
    b"l\x01\0\x01\x09\0\0\0\x02\0\0\0\x87\0\0\0\x01\x01o\0\x15\0\0\0/org/freedesktop/DBus\0\0\0\x02\x01s\0\x14\0\0\0org.freedesktop.DBus\0\0\0\0\x03\x01s\0\x10\0\0\0ListQueuedOwners\0\0\0\0\0\0\0\0\x06\x01s\0\x14\0\0\0org.freedesktop.DBus\0\0\0\0\x08\x01g\0\x01s\0\0\x04\0\0\0:1.1\0";

/// `:1.1` alone.
pub const OWN_QUEUE: &[u8] =
    b"l\x02\x01\x01\x0d\0\0\0\x03\0\0\0@\0\0\0\x05\x01u\0\x02\0\0\0\x06\x01s\0\x04\0\0\0:1.1\0\0\0\0\x07\x01s\0\x14\0\0\0org.freedesktop.DBus\0\0\0\0\x08\x01g\0\x02as\0\x09\0\0\0\x04\0\0\0:1.1\0";

/// ListQueuedOwners of a name without owner.
pub const LIST_NO_QUEUE: &[u8] =
    b"l\x01\0\x01\x12\0\0\0\x02\0\0\0\x87\0\0\0\x01\x01o\0\x15\0\0\0/org/freedesktop/DBus\0\0\0\x02\x01s\0\x14\0\0\0org.freedesktop.DBus\0\0\0\0\x03\x01s\0\x10\0\0\0ListQueuedOwners\0\0\0\0\0\0\0\0\x06\x01s\0\x14\0\0\0org.freedesktop.DBus\0\0\0\0\x08\x01g\0\x01s\0\0\x0d\0\0\0com.example.A\0";

/// RequestName of `com.example.A` without flags.
pub const REQUEST_NAME: &[u8] =
    b"l\x01\0\x01\x18\0\0\0\x02\0\0\0\x80\0\0\0\x01\x01o\0\x15\0\0\0/org/freedesktop/DBus\0\0\0\x02\x01s\0\x14\0\0\0org.freedesktop.DBus\0\0\0\0\x03\x01s\0\x0b\0\0\0RequestName\0\0\0\0\0\x06\x01s\0\x14\0\0\0org.freedesktop.DBus\0\0\0\0\x08\x01g\0\x02su\0\x0d\0\0\0com.example.A\0\0\0\0\0\0\0";

/// NameAcquired of `com.example.A`.
pub const NAME_ACQUIRED: &[u8] =
    b"l\x04\x01\x01\x12\0\0\0\x03\0\0\0\x8f\0\0\0\x01\x01o\0\x15\0\0\0/org/freedesktop/DBus\0\0\0\x02\x01s\0\x14\0\0\0org.freedesktop.DBus\0\0\0\0\x03\x01s\0\x0c\0\0\0NameAcquired\0\0\0\0\x06\x01s\0\x04\0\0\0:1.1\0\0\0\0\x07\x01s\0\x14\0\0\0org.freedesktop.DBus\0\0\0\0\x08\x01g\0\x01s\0\0\x0d\0\0\0com.example.A\0";

/// The reply to `REQUEST_NAME`: the caller owns the name.
pub const PRIMARY_OWNER: &[u8] =
    b"l\x02\x01\x01\x04\0\0\0\x04\0\0\0?\0\0\0\x05\x01u\0\x02\0\0\0\x06\x01s\0\x04\0\0\0:1.1\0\0\0\0\x07\x01s\0\x14\0\0\0org.freedesktop.DBus\0\0\0\0\x08\x01g\0\x01u\0\0\x01\0\0\0";

/// The reply where the caller owned the name before.
pub const ALREADY_OWNER: &[u8] =
    b"l\x02\x01\x01\x04\0\0\0\x05\0\0\0?\0\0\0\x05\x01u\0\x02\0\0\0\x06\x01s\0\x04\0\0\0:1.1\0\0\0\0\x07\x01s\0\x14\0\0\0org.freedesktop.DBus\0\0\0\0\x08\x01g\0\x01u\0\0\x04\0\0\0";

/// ReleaseName of `com.example.A`.
pub const RELEASE_NAME: &[u8] =
    b"l\x01\0\x01\x12\0\0\0\x03\0\0\0\x7f\0\0\0\x01\x01o\0\x15\0\0\0/org/freedesktop/DBus\0\0\0\x02\x01s\0\x14\0\0\0org.freedesktop.DBus\0\0\0\0\x03\x01s\0\x0b\0\0\0ReleaseName\0\0\0\0\0\x06\x01s\0\x14\0\0\0org.freedesktop.DBus\0\0\0\0\x08\x01g\0\x01s\0\0\x0d\0\0\0com.example.A\0";

/// NameLost of `com.example.A`.
pub const NAME_LOST: &[u8] =
    b"l\x04\x01\x01\x12\0\0\0\x05\0\0\0\x8f\0\0\0\x01\x01o\0\x15\0\0\0/org/freedesktop/DBus\0\0\0\x02\x01s\0\x14\0\0\0org.freedesktop.DBus\0\0\0\0\x03\x01s\0\x08\0\0\0NameLost\0\0\0\0\0\0\0\0\x06\x01s\0\x04\0\0\0:1.1\0\0\0\0\x07\x01s\0\x14\0\0\0org.freedesktop.DBus\0\0\0\0\x08\x01g\0\x01s\0\0\x0d\0\0\0com.example.A\0";

/// The reply to `RELEASE_NAME`: the name is released.
pub const RELEASED: &[u8] =
    b"l\x02\x01\x01\x04\0\0\0\x06\0\0\0?\0\0\0\x05\x01u\0\x03\0\0\0\x06\x01s\0\x04\0\0\0:1.1\0\0\0\0\x07\x01s\0\x14\0\0\0org.freedesktop.DBus\0\0\0\0\x08\x01g\0\x01u\0\0\x01\0\0\0";

/// The reply to `RELEASE_NAME`: the name has no owner.
pub const NON_EXISTENT: &[u8] =
    b"l\x02\x01\x01\x04\0\0\0\x03\0\0\0?\0\0\0\x05\x01u\0\x03\0\0\0\x06\x01s\0\x04\0\0\0:1.1\0\0\0\0\x07\x01s\0\x14\0\0\0org.freedesktop.DBus\0\0\0\0\x08\x01g\0\x01u\0\0\x02\0\0\0";

/// NameOwnerChanged of `com.example.A` from nobody to `:1.1`.
pub const OWNER_CHANGED: &[u8] =
    b"l\x04\x01\x01%\0\0\0\x04\0\0\0\x89\0\0\0\x01\x01o\0\x15\0\0\0/org/freedesktop/DBus\0\0\0\x02\x01s\0\x14\0\0\0org.freedesktop.DBus\0\0\0\0\x03\x01s\0\x10\0\0\0NameOwnerChanged\0\0\0\0\0\0\0\0\x07\x01s\0\x14\0\0\0org.freedesktop.DBus\0\0\0\0\x08\x01g\0\x03sss\0\0\0\0\0\0\0\0\x0d\0\0\0com.example.A\0\0\0\0\0\0\0\0\0\0\0\x04\0\0\0:1.1\0";

/// NameOwnerChanged of `com.example.A` from `:1.1` to nobody.
pub const OWNER_GONE: &[u8] =
    b"l\x04\x01\x01%\0\0\0\x04\0\0\0\x89\0\0\0\x01\x01o\0\x15\0\0\0/org/freedesktop/DBus\0\0\0\x02\x01s\0\x14\0\0\0org.freedesktop.DBus\0\0\0\0\x03\x01s\0\x10\0\0\0NameOwnerChanged\0\0\0\0\0\0\0\0\x07\x01s\0\x14\0\0\0org.freedesktop.DBus\0\0\0\0\x08\x01g\0\x03sss\0\0\0\0\0\0\0\0\x0d\0\0\0com.example.A\0\0\0\x04\0\0\0:1.1\0\0\0\0\0\0\0\0\0";

/// The bus, `:1.1` and `com.example.A`.
pub const NAMES_WITH_OWNED: &[u8] =
    b"l\x02\x01\x01>\0\0\0\x05\0\0\0@\0\0\0\x05\x01u\0\x02\0\0\0\x06\x01s\0\x04\0\0\0:1.1\0\0\0\0\x07\x01s\0\x14\0\0\0org.freedesktop.DBus\0\0\0\0\x08\x01g\0\x02as\0:\0\0\0\x14\0\0\0org.freedesktop.DBus\0\0\0\0\x04\0\0\0:1.1\0\0\0\0\x0d\0\0\0com.example.A\0";

/// RequestName of `:1.1`.
pub const REQUEST_UNIQUE: &[u8] =
    b"l\x01\0\x01\x10\0\0\0\x02\0\0\0\x80\0\0\0\x01\x01o\0\x15\0\0\0/org/freedesktop/DBus\0\0\0\x02\x01s\0\x14\0\0\0org.freedesktop.DBus\0\0\0\0\x03\x01s\0\x0b\0\0\0RequestName\0\0\0\0\0\x06\x01s\0\x14\0\0\0org.freedesktop.DBus\0\0\0\0\x08\x01g\0\x02su\0\x04\0\0\0:1.1\0\0\0\0\0\0\0\0";
