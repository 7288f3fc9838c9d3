//! The parts of a message as they lie in its bytes.

ghost use Rattle.std.specs.Prelude.{◌≡◌};
ghost use Rattle.message_core.specs.Said.{said};
ghost use Rattle.message.specs.Parts.{Lies};

use marshal_core::Order;
use message_core::{FieldPlace, Message};

/// The bytes of a message, the places of its fields by rising code, and the bytes of its body.
#[derive(Drop)]
pub struct Parts<'a> {
    pub order: Order,
    pub bytes: &'a [u8],
    pub fields: &'a [FieldPlace],
    pub body: &'a [u8],
}

/// The parts of a message.
pub fn parts_of(message: &Message) -> Parts<'_>
    ensures order { result.order ≡ (said message.now).order }
    ensures bytes { result.bytes.now ≡ message.now }
    ensures lies { Lies message.now result.body.now result.fields.now }
{
    Parts {
        order: message.order(),
        bytes: message.as_bytes(),
        fields: message.fields(),
        body: message.body(),
    }
}
