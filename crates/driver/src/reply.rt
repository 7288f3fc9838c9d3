//! Replies and errors.

ghost use Rattle.std.specs.Prelude.{◌≡◌, ◌<◌, ◌≤◌, [], ◌∷◌, length, OnOk, OnErr};
ghost use Rattle.names.specs.UniqueName.{unique_text};
ghost use Rattle.marshal_core.specs.Types.{Tys};
ghost use Rattle.marshal_core.specs.Values.{Vals};
ghost use Rattle.marshal_core.specs.Signatures.{codes as signature_text};
ghost use Rattle.marshal_core.specs.Spelling.{Spells};
ghost use Rattle.marshal_core.specs.declared.order.Order.TheVariants.{Little};
ghost use Rattle.message_core.specs.Headers.{message_of};
ghost use Rattle.driver.specs.OwnMessages.{error_message, number_types, number_values, of_strings, reply_header, types_for, IsReplyBody, Writes};

use crate::error_words::{error_name, error_text};
use crate::fields::{ROOM, put_end, put_string};
use crate::layout::append_message;
use crate::strings;
use arrayvec::ArrayVec;
use byteorder::{ByteOrder, LittleEndian};
use match_rules::MessageKind;
use message_core::HeaderField;
use message_core::in_room::put_reply_serial;
use seq_bus_core::ErrorKind;
use std::alloc::AllocError;
use std::marker::Model;

/// The call that a reply or an error answers. Its serial is not 0, as that of each message.
#[derive(Clone, Copy, Debug, PartialEq, Eq)]
pub struct ReplyTo {
    caller: Option<u64>,
    call: u32,
}

impl Model for ReplyTo {
    ghost use Rattle.std.specs.Prelude.{◌<◌};
    ghost use Rattle.driver.specs.Answered.{ReplyTo as Answered};

    ghost Value = { Answered };

    ghost view = { λ to. record { caller = to.caller; call = to.call } };

    ghost invariant = { λ to. 0 < to.call };

    ghost inverse = { λ to. record { caller = to.caller; call = to.call } };
}

impl ReplyTo {
    /// The call of this caller with this serial.
    pub fn new(caller: Option<u64>, call: u32) -> Self
        requires { 0 < call }
        ensures { result ≡ record { caller = caller; call = call } }
    {
        ReplyTo { caller, call }
    }

    /// The number of the caller, `n` in its unique name `:1.n`. It has none before its Hello is
    /// answered.
    pub fn caller(self) -> Option<u64>
        ensures { result ≡ self.caller }
    {
        self.caller
    }

    /// The serial of the call.
    pub fn call(self) -> u32
        ensures value { result ≡ self.call }
        ensures positive { 0 < result }
    {
        self.call
    }
}

/// What a body says that comes in bytes, as the bus answers queries.
#[derive(Clone, Copy, Debug, PartialEq, Eq)]
pub enum BodyKind {
    /// One string.
    String,
    /// One boolean.
    Boolean,
    /// One array of strings.
    Strings,
}

/// A body in bytes, in little-endian order as from offset 0 on.
#[derive(Clone, Copy, Debug)]
pub struct SpelledBody<'a> {
    pub kind: BodyKind,
    pub bytes: &'a [u8],
}

/// What a reply carries. The answer to a query is a [`SpelledBody`] where it is written; on its way
/// it may be a body that several share.
#[derive(Debug, Drop)]
pub enum ReplyBody<A: Drop> {
    Empty,
    Number(u32),
    /// The unique name of the connection of this number, as a string.
    UniqueName(u64),
    /// The answer to a query.
    Answer(A),
}

/// The signature of a body.
fn signature_for(kind: BodyKind) -> &'static str
    ensures types { result.now ≡ signature_text (types_for kind) }
    ensures short { length result.now ≤ 16 }
{
    match kind {
        BodyKind::String => "s",
        BodyKind::Boolean => "b",
        BodyKind::Strings => "as",
    }
}

/// Appends a reply with a body of this signature.
fn put_reply(
    serial: u32,
    to: ReplyTo,
    signature: &str,
    body: &[u8],
    out: &mut Vec<u8>,
) -> Result<(), AllocError>
    requires serial { 0 < serial }
    requires short { length signature.now ≤ 16 }
    ensures ok { (types : Tys) (values : Vals) → signature.now ≡ signature_text types
        → Spells Little 0 types values body.now
        → OnOk result (Writes out.old.items out.new.items
        (message_of (reply_header serial to) types values)) }
    ensures err { OnErr result (out.new.items ≡ out.old.items) }
{
    let mut fields = Vec::with_capacity(*out.allocator(), ROOM)?;
    put_reply_serial::<LittleEndian>(&mut fields, to.call());
    put_end(&mut fields, to.caller(), signature);
    append_message(MessageKind::MethodReturn, serial, &fields, body, out)
}

/// Appends a reply with a number.
fn put_number(serial: u32, to: ReplyTo, number: u32, out: &mut Vec<u8>) -> Result<(), AllocError>
    requires serial { 0 < serial }
    ensures ok { OnOk result (Writes out.old.items out.new.items
        (message_of (reply_header serial to) number_types (number_values number))) }
    ensures err { OnErr result (out.new.items ≡ out.old.items) }
{
    let mut body = [0; 4];
    LittleEndian::write_u32(&mut body, number);
    put_reply(serial, to, "u", &body, out)
}

/// Appends a reply with the unique name of a connection.
fn put_unique_name(
    serial: u32,
    to: ReplyTo,
    number: u64,
    out: &mut Vec<u8>,
) -> Result<(), AllocError>
    requires serial { 0 < serial }
    ensures ok { OnOk result (Writes out.old.items out.new.items
        (of_strings (reply_header serial to) (unique_text number ∷ []))) }
    ensures err { OnErr result (out.new.items ≡ out.old.items) }
{
    let mut text = ArrayVec::<u8, { strings::ROOM }>::new();
    strings::put_owner(&mut text, Some(number));
    put_reply(serial, to, "s", text.as_slice(), out)
}

/// Appends the reply to a call ("Message Bus Messages" of the D-Bus Specification), with the serial
/// that it has among the messages of the bus to its caller.
///
/// # Errors
///
/// Where there is not enough memory, `out` is as it was.
pub fn write_reply(
    serial: u32,
    to: ReplyTo,
    body: ReplyBody<SpelledBody<'_>>,
    out: &mut Vec<u8>,
) -> Result<(), AllocError>
    requires serial { 0 < serial }
    ensures ok { (types : Tys) (values : Vals) → IsReplyBody body.entry types values
        → OnOk result (Writes out.old.items out.new.items
        (message_of (reply_header serial to) types values)) }
    ensures err { OnErr result (out.new.items ≡ out.old.items) }
{
    match body {
        ReplyBody::Empty => put_reply(serial, to, "", &[], out),
        ReplyBody::Number(number) => put_number(serial, to, number, out),
        ReplyBody::UniqueName(number) => put_unique_name(serial, to, number, out),
        ReplyBody::Answer(answer) => {
            put_reply(serial, to, signature_for(answer.kind), answer.bytes, out)
        }
    }
}

/// Appends the error that a call is answered in place of a reply ("Message Bus Messages" of the
/// D-Bus Specification). Its body is the text of the error.
///
/// # Errors
///
/// Where there is not enough memory, `out` is as it was.
pub fn write_error(
    serial: u32,
    to: ReplyTo,
    error: ErrorKind,
    out: &mut Vec<u8>,
) -> Result<(), AllocError>
    requires serial { 0 < serial }
    ensures ok { OnOk result (Writes out.old.items out.new.items (error_message serial to error)) }
    ensures err { OnErr result (out.new.items ≡ out.old.items) }
{
    let mut fields = Vec::with_capacity(*out.allocator(), ROOM)?;
    put_string(&mut fields, HeaderField::ErrorName, error_name(error));
    put_reply_serial::<LittleEndian>(&mut fields, to.call());
    put_end(&mut fields, to.caller(), "s");
    let mut text = ArrayVec::<u8, { strings::ROOM }>::new();
    strings::put_string(&mut text, error_text(error));
    append_message(MessageKind::Error, serial, &fields, text.as_slice(), out)
}
