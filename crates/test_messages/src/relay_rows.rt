//! Rows of messages that are written again.

use crate::message_rows::only;
use match_rules::Facts;
use message::{
    FrameFault, Message, RelayFault, facts, first_arguments, relay, relayed_length, with_sender,
    write,
};
use names::{ConnectionName, UniqueName};
use std::alloc::Global;
use test_support::{Escaped, Row};

/// `again`: the bytes that the message is written as. `relayed`: the same behind what stands there,
/// as from `:1.1`, and its length; `named`: the same, as from a unique name. `facts`: what rules
/// and routing see of the message.
pub fn relayed(alloc: Global, row: &Row<'_>, bytes: &[u8]) -> Result<String, FrameFault> {
    let Some(message) = only(alloc, bytes)? else {
        return Ok(String::from_str(alloc, "no message")?);
    };
    let told = match row.text(0) {
        "facts" => seen(alloc, &message),
        word => written(alloc, word, &message),
    };
    drop(message);
    told
}

fn written(alloc: Global, word: &str, message: &Message) -> Result<String, FrameFault> {
    let mut output = Vec::new(alloc);
    if word != "again" {
        output.extend_from_slice(b"rest")?;
    }
    let written = match word {
        "again" => write(message, &mut output),
        "named" => with_sender(message, &UniqueName::of(1), &mut output),
        _ => relay(message, &ConnectionName::of(1), &mut output),
    };
    match written {
        Ok(()) => told(
            alloc,
            &output,
            relayed_length(message, &ConnectionName::of(1)),
        ),
        Err(fault) => Ok(format!(in alloc; "{}: {fault}", fault.code())?),
    }
}

fn told(
    alloc: Global,
    output: &[u8],
    length: Result<usize, RelayFault>,
) -> Result<String, FrameFault> {
    Ok(format!(in alloc; "{} {length:?}", Escaped(output))?)
}

fn text_of(alloc: Global, facts: &Facts<'_>) -> Result<String, FrameFault> {
    let mut text = format!(in alloc; "{} {} {}", facts.kind, facts.auto_start, facts.sender)?;
    for part in [facts.path, facts.interface, facts.member, facts.destination] {
        write!(text, " {}", part.unwrap_or("-"))?;
    }
    for argument in facts.arguments {
        write!(text, " {argument:?}")?;
    }
    Ok(text)
}

fn seen(alloc: Global, message: &Message) -> Result<String, FrameFault> {
    let arguments = first_arguments(message);
    text_of(alloc, &facts(message, arguments.as_slice()))
}
