//! Writing a message again.

ghost use Rattle.std.specs.Prelude.{◌≡◌, ◌+◌, ◌-◌, ◌++◌, ◌^◌, ◌<◌, ◌≤◌, ◌↔◌, length, take, vec_capacity, nat_lt, Ok, Err, OnOk, OnErr, IsErrOf, IsTrue, if◌then◌else◌};
ghost use Rattle.std.specs.Int.{w32};
ghost use Rattle.names.specs.UniqueName.{IsUniqueName};
ghost use Rattle.marshal_core.specs.Spelling.{pads, number_bytes};
ghost use Rattle.message_core.specs.Messages.{IsWritten};
ghost use Rattle.message_core.specs.Said.{said};
ghost use Rattle.message.specs.declared.fault.RelayFault.TheVariants.{TooLong, NoMemory};
ghost use Rattle.message.specs.MessageBytes.{message_bytes, is_too_long};
ghost use Rattle.message_core.specs.Announcements.{max_message_length};
ghost use Rattle.message.specs.Senders.{sent_by};
ghost use Rattle.message.specs.Layout.{AreWithin, behind, fields_end, copied, sender_bytes, last_end};

use crate::fault::RelayFault;
use crate::layout::{Layout, behind, fields_end, layout_of};
use crate::parts::parts_of;
use crate::putting::{put_fields, put_sender};
use byteorder::{BigEndian, LittleEndian};
use marshal_core::Order;
use message_core::in_room::{put, put_body, put_number};
use message_core::{FIXED_LENGTH, MAXIMUM_LENGTH, Message};
use names::{ConnectionName, UniqueName};

/// The length of a message whose fields end at a place, and whose body has so many bytes.
fn whole_length(end: usize, body: usize) -> Result<usize, RelayFault>
    requires begins { end ≤ last_end }
    requires small { body < 2 ^ 33 }
    ensures { result
        ≡ (if nat_lt max_message_length (behind end body) then Err TooLong else Ok
        (behind end body)) }
{
    let length = behind(end, body);
    if length > MAXIMUM_LENGTH {
        return Err(RelayFault::TooLong);
    }
    Ok(length)
}

/// Makes room for a message whose fields end at a place, and whose body has so many bytes.
fn make_room(output: &mut Vec<u8>, end: usize, body: usize) -> Result<(), RelayFault>
    requires begins { end ≤ last_end }
    requires small { body < 2 ^ 33 }
    ensures kept { output.new.items ≡ output.old.items }
    ensures room { OnOk result (length output.old.items + behind end body
        ≤ vec_capacity output.new) }
    ensures too_long { IsErrOf result TooLong ↔ (max_message_length < behind end body) }
    ensures memory { IsErrOf result NoMemory
        → vec_capacity output.old < length output.old.items + behind end body }
{
    let length = whole_length(end, body)?;
    output.reserve(length)?;
    Ok(())
}

/// Puts the fixed part of a message, and how long its array of fields is.
fn put_fixed_part(output: &mut Vec<u8>, order: Order, bytes: &[u8], end: usize)
    requires long { 12 ≤ length bytes.now }
    requires begins { 16 ≤ end }
    requires small { end ≤ last_end }
    requires room { length output.old.items + 16 ≤ vec_capacity output.old }
    ensures items { output.new.items
        ≡ output.old.items ++ (take 12 bytes.now ++ number_bytes order w32 (end - 16)) }
    ensures capacity { vec_capacity output.old ≤ vec_capacity output.new }
{
    put(output, &bytes[..12]);
    let length = (end - FIXED_LENGTH) as u32;
    match order {
        Order::Little => put_number::<LittleEndian>(output, length),
        Order::Big => put_number::<BigEndian>(output, length),
    }
}

/// Puts the fields with SENDER among them.
fn put_sent_fields(
    output: &mut Vec<u8>,
    order: Order,
    bytes: &[u8],
    layout: &Layout<'_>,
    name: &str,
)
    requires before { AreWithin (length bytes.now) layout.now.before.now }
    requires after { AreWithin (length bytes.now) layout.now.after.now }
    requires sender_place { layout.now.sender ≡ fields_end 16 layout.now.before.now }
    requires next_place { layout.now.next ≡ behind layout.now.sender (9 + length name.now) }
    requires end_place { layout.now.end ≡ fields_end layout.now.next layout.now.after.now }
    requires small { layout.now.end ≤ last_end }
    requires short { length name.now ≤ 255 }
    requires room { length output.old.items + layout.now.end ≤ vec_capacity output.old + 16 }
    ensures items { output.new.items
        ≡ output.old.items ++ (copied bytes.now 16 layout.now.before.now
        ++ ((pads 8 layout.now.sender ++ sender_bytes order name.now)
        ++ copied bytes.now layout.now.next layout.now.after.now)) }
    ensures capacity { vec_capacity output.old ≤ vec_capacity output.new }
{
    put_fields(output, bytes, layout.before, FIXED_LENGTH);
    put_sender(output, order, name, layout.sender);
    put_fields(output, bytes, layout.after, layout.next);
}

/// Appends the message with its fields by rising code, and all else as it was ("Message Format" of
/// the D-Bus Specification). `TooLong` where that would have more than 134,217,728 bytes or a field
/// array of more than 67,108,864. Refused, the output is as before.
pub fn write(message: &Message, output: &mut Vec<u8>) -> Result<(), RelayFault>
    // What is appended is the message, its fields by rising code.
    ensures appended { OnOk result (output.new.items
        ≡ output.old.items ++ message_bytes (said message.now)) }
    ensures written { OnOk result
        (IsWritten (message_bytes (said message.now)) (said message.now)) }
    ensures kept { OnErr result (output.new.items ≡ output.old.items) }
    // It is refused where it is too long; memory is wanted only where there is no room for it.
    ensures too_long { IsErrOf result TooLong ↔ IsTrue (is_too_long (said message.now)) }
    ensures memory { IsErrOf result NoMemory
        → vec_capacity output.old < length output.old.items
        + length (message_bytes (said message.now)) }
{
    let parts = parts_of(message);
    let end = fields_end(FIXED_LENGTH, parts.fields)?;
    make_room(output, end, parts.body.len())?;
    put_fixed_part(output, parts.order, parts.bytes, end);
    put_fields(output, parts.bytes, parts.fields, FIXED_LENGTH);
    put_body(output, end, parts.body);
    Ok(())
}

/// Appends the message with SENDER set to this name, whatever stood there, without its fields of
/// unknown codes (10 to 255), its fields by rising code, and all else as it was ("Header Fields" of
/// the D-Bus Specification). `TooLong` where that would have more than 134,217,728 bytes or a field
/// array of more than 67,108,864. Refused, the output is as before.
pub fn with_sender(
    message: &Message,
    sender: &UniqueName,
    output: &mut Vec<u8>,
) -> Result<(), RelayFault>
    // What is appended is the message with that sender, its fields by rising code.
    ensures appended { OnOk result (output.new.items
        ≡ output.old.items ++ message_bytes (sent_by sender.now (said message.now))) }
    ensures written { OnOk result
        (IsWritten (message_bytes (sent_by sender.now (said message.now)))
        (sent_by sender.now (said message.now))) }
    ensures kept { OnErr result (output.new.items ≡ output.old.items) }
    // It is refused where it is too long; memory is wanted only where there is no room for it.
    ensures too_long { IsErrOf result TooLong
        ↔ IsTrue (is_too_long (sent_by sender.now (said message.now))) }
    ensures memory { IsErrOf result NoMemory
        → vec_capacity output.old < length output.old.items
        + length (message_bytes (sent_by sender.now (said message.now))) }
{
    put_sent(message, sender.as_str(), output)
}

/// The same as `with_sender`, for a name that the bus gave.
pub fn relay(
    message: &Message,
    sender: &ConnectionName,
    output: &mut Vec<u8>,
) -> Result<(), RelayFault>
    ensures appended { OnOk result (output.new.items
        ≡ output.old.items ++ message_bytes (sent_by sender.now (said message.now))) }
    ensures written { OnOk result
        (IsWritten (message_bytes (sent_by sender.now (said message.now)))
        (sent_by sender.now (said message.now))) }
    ensures kept { OnErr result (output.new.items ≡ output.old.items) }
    ensures too_long { IsErrOf result TooLong
        ↔ IsTrue (is_too_long (sent_by sender.now (said message.now))) }
    ensures memory { IsErrOf result NoMemory
        → vec_capacity output.old < length output.old.items
        + length (message_bytes (sent_by sender.now (said message.now))) }
{
    put_sent(message, sender.as_str(), output)
}

/// How many bytes `relay` appends, or why it refuses.
pub fn relayed_length(message: &Message, sender: &ConnectionName) -> Result<usize, RelayFault>
    ensures { result
        ≡ (if is_too_long (sent_by sender.now (said message.now)) then Err TooLong else Ok
        (length (message_bytes (sent_by sender.now (said message.now))))) }
{
    let parts = parts_of(message);
    let layout = layout_of(parts.fields, sender.as_str())?;
    whole_length(layout.end, parts.body.len())
}

/// Appends the message with SENDER set to this text, which is a unique name.
fn put_sent(message: &Message, name: &str, output: &mut Vec<u8>) -> Result<(), RelayFault>
    requires { IsUniqueName name.now }
    ensures appended { OnOk result (output.new.items
        ≡ output.old.items ++ message_bytes (sent_by name.now (said message.now))) }
    ensures written { OnOk result
        (IsWritten (message_bytes (sent_by name.now (said message.now)))
        (sent_by name.now (said message.now))) }
    ensures kept { OnErr result (output.new.items ≡ output.old.items) }
    ensures too_long { IsErrOf result TooLong
        ↔ IsTrue (is_too_long (sent_by name.now (said message.now))) }
    ensures memory { IsErrOf result NoMemory
        → vec_capacity output.old < length output.old.items
        + length (message_bytes (sent_by name.now (said message.now))) }
{
    let parts = parts_of(message);
    let layout = layout_of(parts.fields, name)?;
    make_room(output, layout.end, parts.body.len())?;
    put_fixed_part(output, parts.order, parts.bytes, layout.end);
    put_sent_fields(output, parts.order, parts.bytes, &layout, name);
    put_body(output, layout.end, parts.body);
    Ok(())
}
