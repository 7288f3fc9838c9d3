//! Headers to be written.

use marshal_core::Order;
use match_rules::MessageKind;
use names::{BusName, ErrorName, Interface, Member, ObjectPath};

/// The method was called without wish for a reply ("Message Format" of the D-Bus Specification,
/// its table of flags).
pub const NO_REPLY_EXPECTED: u8 = 1;

/// The message starts no service.
pub const NO_AUTO_START: u8 = 2;

/// The caller can wait for an interactive authorization.
pub const ALLOW_INTERACTIVE_AUTHORIZATION: u8 = 4;

/// The header of a message, but for what its body tells ("Message Format" and "Header Fields" of
/// the D-Bus Specification).
#[derive(Drop)]
pub struct Header<'a> {
    pub order: Order,
    pub kind: MessageKind,
    pub flags: u8,
    pub serial: u32,
    pub path: Option<ObjectPath<'a>>,
    pub interface: Option<Interface>,
    pub member: Option<Member>,
    pub error_name: Option<ErrorName>,
    pub reply_serial: Option<u32>,
    pub destination: Option<BusName>,
    pub sender: Option<BusName>,
}
