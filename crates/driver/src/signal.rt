//! Signals of the bus.

ghost use Rattle.std.specs.Prelude.{◌≡◌, ◌<◌, [], OnOk, OnErr};
ghost use Rattle.std.specs.List.{AllByRecursion};
ghost use Rattle.marshal_core.specs.Signatures.{codes as signature_text};
ghost use Rattle.marshal_core.specs.Spelling.{IsString};
ghost use Rattle.driver.specs.OwnMessages.{signal_destination, signal_member, signal_message, signal_texts, string_types, Writes};
ghost use Rattle.driver.specs.Layout.{spelled_strings};

use crate::fields::{ROOM, put_end, put_path, put_string};
use crate::layout::append_message;
use crate::strings;
use arrayvec::ArrayVec;
use match_rules::MessageKind;
use message_core::HeaderField;
use names::BUS_NAME;
use seq_bus_core::BusSignal;
use std::alloc::AllocError;

fn member_of(signal: &BusSignal) -> &'static str
    ensures { result.now ≡ signal_member signal.now }
{
    match signal {
        BusSignal::NameOwnerChanged { .. } => "NameOwnerChanged",
        BusSignal::NameLost { .. } => "NameLost",
        BusSignal::NameAcquired { .. } => "NameAcquired",
    }
}

/// The connection that the signal is for, where it is for one.
fn destination_of(signal: &BusSignal) -> Option<u64>
    ensures { result ≡ signal_destination signal.now }
{
    match signal {
        BusSignal::NameOwnerChanged { .. } => None,
        BusSignal::NameLost { owner, .. } => Some(*owner),
        BusSignal::NameAcquired { owner, .. } => Some(*owner),
    }
}

/// The signature of the body.
fn signature_of(signal: &BusSignal) -> &'static str
    ensures { result.now ≡ signature_text (string_types (signal_texts signal.now)) }
{
    match signal {
        BusSignal::NameOwnerChanged { .. } => "sss",
        BusSignal::NameLost { .. } => "s",
        BusSignal::NameAcquired { .. } => "s",
    }
}

/// Puts the body.
fn put_body(body: &mut ArrayVec<u8, { strings::ROOM }>, signal: &BusSignal)
    requires { body.old.items ≡ [] }
    ensures put { body.new.items ≡ spelled_strings 0 (signal_texts signal.now) }
    ensures strings { AllByRecursion IsString (signal_texts signal.now) }
{
    match signal {
        BusSignal::NameOwnerChanged {
            name,
            old_owner,
            new_owner,
        } => {
            strings::put_name(body, name);
            strings::put_owner(body, *old_owner);
            strings::put_owner(body, *new_owner);
        }
        BusSignal::NameLost { name, .. } => strings::put_name(body, name),
        BusSignal::NameAcquired { name, .. } => strings::put_name(body, name),
    }
}

/// Appends a signal of the bus ("Message Bus Messages" of the D-Bus Specification), with the serial
/// that it has among the messages of the bus to its recipient. NameLost and NameAcquired name the
/// one concerned as their destination.
///
/// # Errors
///
/// Where there is not enough memory, `out` is as it was.
pub fn write_signal(serial: u32, signal: &BusSignal, out: &mut Vec<u8>) -> Result<(), AllocError>
    requires { 0 < serial }
    ensures ok { OnOk result (Writes out.old.items out.new.items
        (signal_message serial signal.now)) }
    ensures err { OnErr result (out.new.items ≡ out.old.items) }
{
    let mut fields = Vec::with_capacity(*out.allocator(), ROOM)?;
    put_path(&mut fields);
    put_string(&mut fields, HeaderField::Interface, BUS_NAME);
    put_string(&mut fields, HeaderField::Member, member_of(signal));
    put_end(&mut fields, destination_of(signal), signature_of(signal));
    let mut body = ArrayVec::<u8, { strings::ROOM }>::new();
    put_body(&mut body, signal);
    append_message(MessageKind::Signal, serial, &fields, body.as_slice(), out)
}
