//! The bus's own messages, before they are numbered.

ghost use Rattle.std.specs.Prelude.{◌≡◌, ◌<◌, IfOk, OnOk, OnErr};
ghost use Rattle.driver.specs.OwnMessages.{IsReplyBody, Writes};
ghost use Rattle.outbox_core.specs.Contents.{carried_of, own_of, carried_types, carried_values, bus_message};

use crate::answer::AnswerBody;
use driver::{ReplyBody, ReplyTo, SpelledBody, write_error, write_reply, write_signal};
use seq_bus_core::{ErrorKind, SharedSignal};
use std::alloc::AllocError;

/// What a reply carries, as it is written.
fn lent(body: &ReplyBody<AnswerBody>) -> ReplyBody<SpelledBody<'_>>
    ensures { IsReplyBody result (carried_types (carried_of body.now))
        (carried_values (carried_of body.now)) }
{
    match body {
        ReplyBody::Empty => ReplyBody::Empty,
        ReplyBody::Number(number) => ReplyBody::Number(*number),
        ReplyBody::UniqueName(number) => ReplyBody::UniqueName(*number),
        ReplyBody::Answer(answer) => ReplyBody::Answer(answer.spelled()),
    }
}

/// What a reply carries once more. No bytes are copied; it fails where too many share them already.
fn shared(body: &ReplyBody<AnswerBody>) -> Result<ReplyBody<AnswerBody>, AllocError>
    ensures { IfOk result (λ again. again ≡ body.now) }
{
    match body {
        ReplyBody::Empty => Ok(ReplyBody::Empty),
        ReplyBody::Number(number) => Ok(ReplyBody::Number(*number)),
        ReplyBody::UniqueName(number) => Ok(ReplyBody::UniqueName(*number)),
        ReplyBody::Answer(answer) => {
            let answer = answer.try_clone()?;
            Ok(ReplyBody::Answer(answer))
        }
    }
}

/// A message of the bus itself, which has no serial yet ("Message Bus Messages" of the D-Bus
/// Specification).
#[derive(Debug, Drop)]
pub enum BusMessage {
    Signal(SharedSignal),
    Reply {
        to: ReplyTo,
        body: ReplyBody<AnswerBody>,
    },
    Error {
        to: ReplyTo,
        error: ErrorKind,
    },
}

impl BusMessage {
    /// Appends the message, with the serial that it has among the bus's own messages to its
    /// recipient.
    ///
    /// # Errors
    ///
    /// Where there is not enough memory, `out` is as it was.
    pub fn write(&self, serial: u32, out: &mut Vec<u8>) -> Result<(), AllocError>
        requires { 0 < serial }
        ensures ok { OnOk result (Writes out.old.items out.new.items
            (bus_message serial (own_of self.now))) }
        ensures err { OnErr result (out.new.items ≡ out.old.items) }
    {
        match self {
            BusMessage::Signal(signal) => write_signal(serial, signal.get(), out),
            BusMessage::Reply { to, body } => write_reply(serial, *to, lent(body), out),
            BusMessage::Error { to, error } => write_error(serial, *to, *error, out),
        }
    }

    /// The same once more. No bytes are copied; it fails where too many share them already.
    pub fn try_clone(&self) -> Result<BusMessage, AllocError>
        ensures { IfOk result (λ message. message ≡ self.now) }
    {
        match self {
            BusMessage::Signal(signal) => {
                let signal = signal.try_clone()?;
                Ok(BusMessage::Signal(signal))
            }
            BusMessage::Reply { to, body } => {
                let body = shared(body)?;
                Ok(BusMessage::Reply { to: *to, body })
            }
            BusMessage::Error { to, error } => Ok(BusMessage::Error {
                to: *to,
                error: *error,
            }),
        }
    }
}
