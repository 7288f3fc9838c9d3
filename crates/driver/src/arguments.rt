//! The arguments of calls.

ghost use Rattle.std.specs.Prelude.{◌≡◌, option_map};
ghost use Rattle.marshal_core.specs.Values.{val_of, values_of};
ghost use Rattle.message_core.specs.Said.{said};
ghost use Rattle.driver.specs.Arguments.{elements_and_number, elements_of, number_of, only_text, text_and_number, text_of};

use marshal_check::{BodyArgument, CheckedArguments, Types};
use marshal_core::{BasicType, BasicValue, DataType, Value};
use message_core::Message;

pub fn text_of(value: &Value) -> Option<&str>
    ensures { option_map (λ s. s.now) result ≡ text_of (val_of value.now) }
{
    match value {
        Value::Basic(BasicValue::String(text)) => Some(text.as_str()),
        _ => None,
    }
}

fn number_of(value: &Value) -> Option<u32>
    ensures { result ≡ number_of (val_of value.now) }
{
    match value {
        Value::Basic(BasicValue::Uint32(number)) => Some(*number),
        _ => None,
    }
}

/// The elements of an array of strings.
fn elements_of(value: &Value) -> Option<&[Value]>
    ensures { option_map (λ s. values_of s.now) result ≡ elements_of (val_of value.now) }
{
    match value {
        Value::Array(DataType::Basic(BasicType::String), elements) => Some(elements.as_slice()),
        _ => None,
    }
}

/// The text of the one argument of a message, where it is a string. It lies in the message's bytes.
pub fn only_text(message: &Message) -> Option<&str>
    ensures { option_map (λ s. s.now) result ≡ only_text (said message.now).body }
{
    let types = Types {
        text: message.signature(),
    };
    let mut arguments = CheckedArguments::new(message.order(), 0, types, message.body());
    match arguments.next() {
        Some(BodyArgument::String(text)) => match arguments.next() {
            None => Some(text),
            Some(_) => None,
        },
        Some(BodyArgument::ObjectPath(_)) => None,
        Some(BodyArgument::Other) => None,
        None => None,
    }
}

/// The text and the number, where these are the arguments.
pub fn text_and_number(arguments: &[Value]) -> Option<(&str, u32)>
    ensures { option_map (λ pair. (pair.0.now, pair.1)) result
        ≡ text_and_number (values_of arguments.now) }
{
    let (first, others) = arguments.split_first()?;
    let (second, none) = others.split_first()?;
    if !none.is_empty() {
        return None;
    }
    let text = text_of(first)?;
    let number = number_of(second)?;
    Some((text, number))
}

/// The elements of an array of strings and the number, where these are the arguments.
pub fn elements_and_number(arguments: &[Value]) -> Option<(&[Value], u32)>
    ensures { option_map (λ pair. (values_of pair.0.now, pair.1)) result
        ≡ elements_and_number (values_of arguments.now) }
{
    let (first, others) = arguments.split_first()?;
    let (second, none) = others.split_first()?;
    if !none.is_empty() {
        return None;
    }
    let elements = elements_of(first)?;
    let number = number_of(second)?;
    Some((elements, number))
}
