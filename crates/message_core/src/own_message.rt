//! Messages of one's own: a header and a body, put together.

ghost use Rattle.std.specs.Prelude.{◌≡◌, ◌≢◌, ℕ, List, Ok, Err, IfOk, IfErr, MatchResult};
ghost use Rattle.marshal_core.specs.declared.fault.MarshalFault.{MarshalFault};
ghost use Rattle.marshal_core.specs.Signatures.{codes};
ghost use Rattle.marshal_core.specs.Spelling.{Spells};
ghost use Rattle.marshal_core.specs.Types.{Tys};
ghost use Rattle.marshal_core.specs.Values.{Vals, values_of};
ghost use Rattle.marshal.specs.Writing.{encode_at, types_of_values};
ghost use Rattle.message_core.specs.declared.fault.FrameFault.TheVariants.{Body, NoMemory as WithoutMemory};
ghost use Rattle.message_core.specs.Headers.{HasNoWriting, message_of};
ghost use Rattle.message_core.specs.Messages.{Message as Record, IsWritten};
ghost use Rattle.message_core.specs.OwnFaults.{IsFaultOfBytes, IsFaultOfValues, IsOwnFault};

use crate::announcement::{MAXIMUM_LENGTH, announced_length};
use crate::fault::FrameFault;
use crate::header::Header;
use crate::message::Message;
use crate::reading::check_body;
use crate::writing::{put_fields, whole_of};
use marshal::encode;
use marshal::parts::value_codes;
use marshal_core::{MarshalFault, Value};
use std::alloc::Global;

/// Puts a header together with the bytes of a body, which are values of the signature.
fn put_together(
    alloc: Global,
    header: &Header<'_>,
    signature: &[u8],
    body: &[u8],
) -> Result<Message, FrameFault>
    ensures { (types : Tys) (values : Vals) → signature.now ≡ codes types
        → Spells header.now.order 0 types values body.now
        → MatchResult result (λ m. IsWritten m (message_of header.now types values))
        (λ f. f ≢ WithoutMemory → IsOwnFault (message_of header.now types values) f
        × HasNoWriting (message_of header.now types values)) }
{
    if header.kind.number() == 0 {
        return Err(FrameFault::Kind);
    }
    if header.serial == 0 {
        return Err(FrameFault::Serial);
    }
    let mut fields = Vec::new(alloc);
    put_fields(&mut fields, header, signature)?;
    let bytes = whole_of(alloc, header, &fields, body)?;
    announced_length(MAXIMUM_LENGTH, &bytes)?;
    Message::read(alloc, bytes)
}

/// The bytes of values, from the beginning of a body.
fn body_of(alloc: Global, header: &Header<'_>, values: &[Value]) -> Result<Vec<u8>, FrameFault>
    ensures written { IfOk result
        (λ bytes. Spells header.now.order 0 (types_of_values (values_of values.now))
        (values_of values.now) bytes.items) }
    ensures encoded { IfOk result (λ bytes. encode_at header.now.order 0 (values_of values.now)
        ≡ Ok bytes.items) }
    ensures refused { IfErr result (λ f. f ≢ WithoutMemory
        → (e : MarshalFault) × (f ≡ Body e)
        × (encode_at header.now.order 0 (values_of values.now) ≡ Err e)) }
{
    let mut bytes = Vec::new(alloc);
    match encode(alloc, header.order, 0, values, &mut bytes) {
        Ok(()) => Ok(bytes),
        Err(fault) => match fault {
            MarshalFault::NoMemory => Err(FrameFault::NoMemory),
            _ => Err(FrameFault::Body(fault)),
        },
    }
}

impl Message {
    /// A message of one's own: a header, and the values of its body, which are written in the
    /// header's byte order. Its fields stand by rising code, SIGNATURE where there are values.
    ///
    /// # Errors
    ///
    /// The first of: `Body` where the values have no bytes ("Marshaling (Wire Format)" of the D-Bus
    /// Specification), `Kind` for type 0, `Serial` for serial 0, `TooLong` for more than
    /// `MAXIMUM_LENGTH` bytes or more than 67,108,864 of header fields, `Field(5)` for a
    /// REPLY_SERIAL of 0, `Missing` for the first header field that the type requires ("Header
    /// Fields"). `NoMemory` where memory runs out.
    pub fn new(alloc: Global, header: &Header<'_>, values: &[Value]) -> Result<Message, FrameFault>
        // It is the message of this header and these values.
        ensures message { IfOk result
            (λ m. IsWritten m (message_of header.now (types_of_values (values_of values.now))
            (values_of values.now))) }
        // It is refused only where there is no such message, unless memory runs out.
        ensures none { IfErr result (λ f. f ≢ WithoutMemory
            → HasNoWriting (message_of header.now (types_of_values (values_of values.now))
            (values_of values.now))) }
        // Which fault it is.
        ensures fault { IfErr result (λ f. f ≢ WithoutMemory
            → IsFaultOfValues header.now (values_of values.now) f) }
    {
        let body = body_of(alloc, header, values)?;
        let mut signature = Vec::new(alloc);
        value_codes(values, &mut signature)?;
        put_together(alloc, header, &signature, &body)
    }

    /// The same of a body that is in its bytes already: the text of its signature, and the bytes in
    /// the header's byte order, beginning at a multiple of eight.
    ///
    /// # Errors
    ///
    /// The first of: `Field(8)` where the text is no signature ("Valid Signatures" of the D-Bus
    /// Specification), `Body` where the bytes are not what it says, `BodyLength` where bytes
    /// follow, and those of `new` from `Kind` on.
    pub fn with_body(
        alloc: Global,
        header: &Header<'_>,
        signature: &str,
        body: &[u8],
    ) -> Result<Message, FrameFault>
        // It is the message of this header and of the values that the bytes are.
        ensures message { IfOk result (λ m. (types : Tys) × (values : Vals)
            × (signature.now ≡ codes types) × Spells header.now.order 0 types values body.now
            × IsWritten m (message_of header.now types values)) }
        // Where the header and the body make one, want of memory alone refuses it.
        ensures made { (types : Tys) (values : Vals) → signature.now ≡ codes types
            → Spells header.now.order 0 types values body.now
            → MatchResult result (λ m. IsWritten m (message_of header.now types values))
            (λ f. f ≢ WithoutMemory → HasNoWriting (message_of header.now types values)) }
        // Which fault it is.
        ensures fault { IfErr result (λ f. f ≢ WithoutMemory
            → IsFaultOfBytes header.now signature.now body.now f) }
    {
        check_body(header.order, signature.as_bytes(), body)?;
        put_together(alloc, header, signature.as_bytes(), body)
    }
}

/// A message is written in one way: the bytes of one's own message follow from its header and body.
pub fn one_writing()
    ensures { (m : Record) (a b : List ℕ) → IsWritten a m → IsWritten b m → a ≡ b }
{}
