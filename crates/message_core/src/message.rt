//! Whole messages.

ghost use Rattle.std.specs.Prelude.{◌≡◌, ◌≢◌, ◌≤◌, ℕ, List, [], Ok, IfOk, IfErr, OnOk, OnErr, length, true};
ghost use Rattle.marshal_core.specs.Signatures.{codes};
ghost use Rattle.marshal_core.specs.declared.fault.MarshalFault.TheVariants.{NoMemory};
ghost use Rattle.marshal_core.specs.Spelling.{Spells};
ghost use Rattle.marshal_core.specs.Types.{Tys};
ghost use Rattle.marshal_core.specs.Values.{Vals, values_of};
ghost use Rattle.match_rules.specs.Kinds.{kind_of};
ghost use Rattle.message_core.specs.declared.fault.FrameFault.TheVariants.{NoMemory as WithoutMemory};
ghost use Rattle.message_core.specs.declared.header_field.HeaderField.TheVariants as field_of;
ghost use Rattle.message_core.specs.Announcements.{announced};
ghost use Rattle.message_core.specs.HeaderFields.{text_field, number_field};
ghost use Rattle.message_core.specs.Messages.{Message as Record, IsMessage};
ghost use Rattle.message_core.specs.Places.{ArePlaced};
ghost use Rattle.message_core.specs.Refusals.{IsRefused, IsNoMessage};
ghost use Rattle.message_core.specs.Said.{said};
ghost use Rattle.message_core.specs.Whole.{is_text, Lends};

use crate::announcement::{FIXED_LENGTH, MAXIMUM_LENGTH, number};
use crate::fault::FrameFault;
use crate::field_place::FieldPlace;
use crate::header_field::HeaderField;
use crate::reading::{number_at, order_of, place_of, places_of, signature_text, text_at};
use marshal::decode;
use marshal_core::{MarshalFault, Order, Signature, Value};
use match_rules::MessageKind;
use std::alloc::Global;
use std::marker::Model;

/// A message: its bytes, which are checked, and the places of its header fields by rising code
/// ("Message Format" of the D-Bus Specification).
#[derive(Drop)]
pub struct Message {
    bytes: Vec<u8>,
    fields: Vec<FieldPlace>,
}

impl Model for Message {
    ghost use Rattle.std.specs.Prelude.{ℕ, List};
    ghost use Rattle.message_core.specs.Whole.{IsWhole};

    ghost Value = { List ℕ };

    ghost view = { λ m. m.bytes.items };

    ghost invariant = { λ m. IsWhole m.bytes.items m.fields.items };
}

impl Message {
    /// Reads one whole message, of the length that its first bytes announce. The header fields are
    /// checked from the left, then the padding behind them, the required fields, and the body.
    pub fn read(alloc: Global, bytes: Vec<u8>) -> Result<Message, FrameFault>
        requires fixed { FIXED_LENGTH ≤ length bytes.items }
        requires whole { announced MAXIMUM_LENGTH bytes.items ≡ Ok (length bytes.items) }
        ensures bytes { IfOk result (λ m. m ≡ bytes.items) }
        ensures message { IfOk result (λ m. IsMessage m (said m)) }
        ensures fault { IfErr result (λ f. f ≢ WithoutMemory → IsRefused bytes.items f) }
        ensures none { IfErr result (λ f. f ≢ WithoutMemory → IsNoMessage bytes.items) }
    {
        let mut bytes = bytes;
        Message::take(alloc, &mut bytes)
    }

    /// Takes one whole message out of a buffer that holds nothing else and is left empty, without
    /// copying its bytes. It is checked as [`read`](Message::read) does; what is refused stays in
    /// the buffer.
    pub fn take(alloc: Global, buffer: &mut Vec<u8>) -> Result<Message, FrameFault>
        requires fixed { FIXED_LENGTH ≤ length buffer.old.items }
        requires whole { announced MAXIMUM_LENGTH buffer.old.items ≡ Ok (length buffer.old.items) }
        ensures bytes { IfOk result (λ m. m ≡ buffer.old.items) }
        ensures emptied { OnOk result (buffer.new.items ≡ []) }
        ensures message { IfOk result (λ m. IsMessage m (said m)) }
        ensures fault { IfErr result (λ f. f ≢ WithoutMemory → IsRefused buffer.old.items f) }
        ensures none { IfErr result (λ f. f ≢ WithoutMemory → IsNoMessage buffer.old.items) }
        ensures refused { OnErr result (buffer.new ≡ buffer.old) }
    {
        let fields = places_of(alloc, buffer)?;
        let bytes = std::mem::replace(buffer, Vec::new(alloc));
        Ok(Message { bytes, fields })
    }

    /// What the message was made with.
    pub(crate) fn allocator(&self) -> Global {
        *self.bytes.allocator()
    }

    /// The bytes of the message.
    pub fn as_bytes(&self) -> &[u8]
        ensures value { result.now ≡ self.now }
        ensures message { IsMessage self.now (said self.now) }
    {
        self.bytes.as_slice()
    }

    /// The places of the header fields, by rising code, equal codes in the order in which they
    /// stand.
    pub fn fields(&self) -> &[FieldPlace]
        ensures { ArePlaced (said self.now).order self.now result.now (said self.now).fields }
    {
        self.fields.as_slice()
    }

    /// The byte order of all numbers of the message.
    pub fn order(&self) -> Order
        ensures { result ≡ (said self.now).order }
    {
        order_of(&self.bytes)
    }

    /// The type of the message.
    pub fn kind(&self) -> MessageKind
        ensures { result ≡ kind_of (said self.now).kind }
    {
        MessageKind::from(self.bytes[1])
    }

    /// The flags, unknown ones among them.
    pub fn flags(&self) -> u8
        ensures { result ≡ (said self.now).flags }
    {
        self.bytes[2]
    }

    /// The serial, which is not 0.
    pub fn serial(&self) -> u32
        ensures { result ≡ (said self.now).serial }
    {
        number(self.order(), 8, &self.bytes)
    }

    fn text(&self, field: HeaderField) -> Option<&str>
        requires { is_text field ≡ true }
        ensures { Lends result (text_field field (said self.now).fields) }
    {
        text_at(place_of(&self.fields, field.code()), &self.bytes)
    }

    /// The object that a call is made to, or that a signal comes from.
    pub fn path(&self) -> Option<&str>
        ensures { Lends result (text_field field_of.Path (said self.now).fields) }
    {
        self.text(HeaderField::Path)
    }

    /// The interface of the method or signal.
    pub fn interface(&self) -> Option<&str>
        ensures { Lends result (text_field field_of.Interface (said self.now).fields) }
    {
        self.text(HeaderField::Interface)
    }

    /// The name of the method or signal.
    pub fn member(&self) -> Option<&str>
        ensures { Lends result (text_field field_of.Member (said self.now).fields) }
    {
        self.text(HeaderField::Member)
    }

    /// The name of the error.
    pub fn error_name(&self) -> Option<&str>
        ensures { Lends result (text_field field_of.ErrorName (said self.now).fields) }
    {
        self.text(HeaderField::ErrorName)
    }

    /// The connection that the message is for.
    pub fn destination(&self) -> Option<&str>
        ensures { Lends result (text_field field_of.Destination (said self.now).fields) }
    {
        self.text(HeaderField::Destination)
    }

    /// The connection that sent the message, as it wrote itself.
    pub fn sender(&self) -> Option<&str>
        ensures { Lends result (text_field field_of.Sender (said self.now).fields) }
    {
        self.text(HeaderField::Sender)
    }

    /// The serial of the message that this one replies to.
    pub fn reply_serial(&self) -> Option<u32>
        ensures { result ≡ number_field field_of.ReplySerial (said self.now).fields }
    {
        number_at(
            self.order(),
            place_of(&self.fields, HeaderField::ReplySerial.code()),
            &self.bytes,
        )
    }

    /// The signature of the body as text, empty where there is none.
    pub fn signature(&self) -> &[u8]
        ensures { result.now ≡ codes (said self.now).types }
    {
        signature_text(&self.fields, &self.bytes)
    }

    /// The bytes of the body.
    pub fn body(&self) -> &[u8]
        ensures { Spells (said self.now).order 0 (said self.now).types
            (said self.now).body result.now }
    {
        let length = number(self.order(), 12, &self.bytes) as usize;
        &self.bytes[FIXED_LENGTH + (length + (8 - length % 8) % 8)..]
    }

    /// The values of the body. Want of memory is the only fault.
    pub fn arguments(&self, alloc: Global) -> Result<Vec<Value>, MarshalFault>
        ensures values { IfOk result (λ arguments. values_of arguments.items
            ≡ (said self.now).body) }
        ensures memory { IfErr result (λ fault. fault ≡ NoMemory) }
    {
        let body = self.body();
        let signature = match Signature::from_bytes(alloc, self.signature()) {
            Ok(signature) => signature,
            Err(fault) => return Err(fault),
        };
        match decode(alloc, self.order(), 0, &signature, body) {
            Ok((values, _)) => Ok(values),
            Err(fault) => Err(fault),
        }
    }
}

/// Bytes are one message at most, the one that they say.
pub fn one_reading()
    ensures { (bytes : List ℕ) (m : Record) → IsMessage bytes m → said bytes ≡ m }
{}
