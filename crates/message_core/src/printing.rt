//! Messages as text.

use crate::message::Message;
use marshal_core::{BasicValue, Value};
use match_rules::MessageKind;
use std::fmt;

/// What monitors call a type of message.
fn kind_word(kind: MessageKind) -> &'static str {
    match kind {
        MessageKind::MethodCall => "method call",
        MessageKind::MethodReturn => "method return",
        MessageKind::Error => "error",
        MessageKind::Signal => "signal",
        MessageKind::Unknown(_) => "(unknown message type)",
    }
}

/// What monitors call the type of a value.
fn type_word(value: &Value) -> &'static str {
    match value {
        Value::Basic(basic) => match basic {
            BasicValue::Byte(_) => "byte",
            BasicValue::Boolean(_) => "boolean",
            BasicValue::Int16(_) => "int16",
            BasicValue::Uint16(_) => "uint16",
            BasicValue::Int32(_) => "int32",
            BasicValue::Uint32(_) => "uint32",
            BasicValue::Int64(_) => "int64",
            BasicValue::Uint64(_) => "uint64",
            BasicValue::Double(_) => "double",
            BasicValue::String(_) => "string",
            BasicValue::ObjectPath(_) => "object path",
            BasicValue::Signature(_) => "signature",
        },
        Value::Variant(_) => "variant",
        Value::Array(_, _) => "array",
        Value::Dictionary(_, _, _) => "dict",
        Value::Struct(_) => "struct",
    }
}

/// Writes what the header says, as one line of `dbus-monitor`.
fn put_header<W: fmt::Write>(message: &Message, f: &mut fmt::Formatter<W>) -> fmt::Result {
    let kind = message.kind();
    let sender = message.sender().unwrap_or("(null sender)");
    let destination = message.destination().unwrap_or("(null destination)");
    write!(
        f,
        "{} sender={sender} -> destination={destination}",
        kind_word(kind)
    )?;
    let serial = message.serial();
    let reply_serial = message.reply_serial().unwrap_or(0);
    match kind {
        MessageKind::MethodCall | MessageKind::Signal => {
            let path = message.path().unwrap_or("(null)");
            let interface = message.interface().unwrap_or("(null)");
            let member = message.member().unwrap_or("(null)");
            write!(
                f,
                " serial={serial} path={path}; interface={interface}; member={member}"
            )
        }
        MessageKind::MethodReturn => write!(f, " serial={serial} reply_serial={reply_serial}"),
        MessageKind::Error => {
            let error_name = message.error_name().unwrap_or("(null)");
            write!(f, " error_name={error_name} reply_serial={reply_serial}")
        }
        MessageKind::Unknown(_) => Ok(()),
    }
}

/// Writes an argument with its type.
fn put_argument<W: fmt::Write>(value: &Value, f: &mut fmt::Formatter<W>) -> fmt::Result {
    let word = type_word(value);
    match value {
        Value::Basic(BasicValue::ObjectPath(path)) => write!(f, "{word} \"{path}\""),
        Value::Basic(BasicValue::Signature(signature)) => write!(f, "{word} \"{signature}\""),
        _ => write!(f, "{word} {value}"),
    }
}

/// The message as `dbus-monitor` shows it, but for the time: what the header says, and below it
/// each argument on a line of its own, as `marshal_core::Value` is shown. Without memory for the
/// arguments a line says so.
impl fmt::Display for Message {
    fn fmt<W: fmt::Write>(&self, f: &mut fmt::Formatter<W>) -> fmt::Result {
        put_header(self, f)?;
        let Ok(arguments) = self.arguments(self.allocator()) else {
            return write!(f, "\n   (out of memory)");
        };
        for argument in &arguments {
            write!(f, "\n   ")?;
            put_argument(argument, f)?;
        }
        Ok(())
    }
}

/// The fields of the header that the standard names, the signature and the bytes of the body.
impl fmt::Debug for Message {
    fn fmt<W: fmt::Write>(&self, f: &mut fmt::Formatter<W>) -> fmt::Result {
        f.debug_struct("Message")
            .field("order", &self.order())
            .field("kind", &self.kind())
            .field("flags", &self.flags())
            .field("serial", &self.serial())
            .field("path", &self.path())
            .field("interface", &self.interface())
            .field("member", &self.member())
            .field("error_name", &self.error_name())
            .field("reply_serial", &self.reply_serial())
            .field("destination", &self.destination())
            .field("sender", &self.sender())
            .field("signature", &self.signature())
            .field("body", &self.body())
            .finish()
    }
}
