//! What the first bytes of a message announce.

ghost use Rattle.std.specs.Prelude.{◌≡◌, ◌≢◌, ◌<◌, ◌≤◌, ◌+◌, ◌^◌, length, IfOk, IfErr};
ghost use Rattle.message_core.specs.declared.fault.FrameFault.TheVariants.{NoMemory};
ghost use Rattle.message_core.specs.Announcements.{announced, announced_in, number as number_at, whole_length as length_of};

use crate::fault::FrameFault;
use byteorder::{BigEndian, LittleEndian};
use marshal::parts::Endian;
use marshal_core::Order;
use marshal_core::limits::MAX_ARRAY_LENGTH;

/// The bytes before the elements of the field array.
pub const FIXED_LENGTH: usize = 16;

/// The longest message that there is, in bytes ("Message Format" of the D-Bus Specification).
pub const MAXIMUM_LENGTH: usize = 134_217_728;

/// The longest field array, in bytes: as long as an array may be.
pub const MAXIMUM_FIELDS: usize = MAX_ARRAY_LENGTH;

fn number_in<E: Endian>(place: usize, bytes: &[u8]) -> u32
    requires { place + 4 ≤ length bytes.now }
    ensures value { result ≡ number_at E.order place bytes.now }
    ensures fits { result < 2 ^ 32 }
{
    E::read_u32(&bytes[place..place + 4])
}

/// The number in the four bytes at a place.
pub fn number(order: Order, place: usize, bytes: &[u8]) -> u32
    requires { place + 4 ≤ length bytes.now }
    ensures value { result ≡ number_at order place bytes.now }
    ensures fits { result < 2 ^ 32 }
{
    match order {
        Order::Little => number_in::<LittleEndian>(place, bytes),
        Order::Big => number_in::<BigEndian>(place, bytes),
    }
}

fn whole_length<E: Endian>(bytes: &[u8]) -> usize
    requires { 16 ≤ length bytes.now }
    ensures { result ≡ length_of E.order bytes.now }
{
    let fields = number_in::<E>(12, bytes) as usize;
    let body = number_in::<E>(4, bytes) as usize;
    FIXED_LENGTH + (fields + (8 - fields % 8) % 8) + body
}

fn announced_in_order<E: Endian>(limit: usize, bytes: &[u8]) -> Result<usize, FrameFault>
    requires { 16 ≤ length bytes.now }
    ensures announced { result ≡ announced_in limit E.order bytes.now }
    ensures memory { IfErr result (λ f. f ≢ NoMemory) }
{
    if bytes[1] == 0 {
        return Err(FrameFault::Kind);
    }
    if bytes[3] != 1 {
        return Err(FrameFault::Version);
    }
    if number_in::<E>(8, bytes) == 0 {
        return Err(FrameFault::Serial);
    }
    if number_in::<E>(12, bytes) as usize > MAXIMUM_FIELDS {
        return Err(FrameFault::TooLong);
    }
    let length = whole_length::<E>(bytes);
    if length > limit {
        return Err(FrameFault::TooLong);
    }
    Ok(length)
}

/// The length of the message that begins here, in bytes, as its first sixteen bytes announce it
/// ("Message Format" of the D-Bus Specification). Their faults come in the order byte order, type,
/// version, serial, length; a message longer than the limit is `TooLong`.
#[tactic(auto, unfolding(crate::specs::Announcements::announced))]
pub fn announced_length(limit: usize, bytes: &[u8]) -> Result<usize, FrameFault>
    requires { 16 ≤ length bytes.now }
    ensures announced { result ≡ announced limit bytes.now }
    ensures fixed { IfOk result (λ length. 16 ≤ length) }
    ensures memory { IfErr result (λ f. f ≢ NoMemory) }
{
    match bytes[0] {
        b'l' => announced_in_order::<LittleEndian>(limit, bytes),
        b'B' => announced_in_order::<BigEndian>(limit, bytes),
        _ => Err(FrameFault::Order),
    }
}
