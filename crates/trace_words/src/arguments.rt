//! The arguments of a message.

ghost use Rattle.std.specs.Prelude.{◌≡◌, ◌≤◌, [], length, option_map, map, IfOk, IfSome, string_bytes, option_and_then};
ghost use Rattle.match_rules.specs.Keys.{max_arguments};
ghost use Rattle.trace_words.specs.KeptArguments.{kept_argument};
ghost use Rattle.trace_words.specs.Cutting.{parts_left};
ghost use Rattle.trace_words.specs.Routes.{argument_in, argument_of, arguments_from, arguments_of, is_path, path_in_hex, string_in};
ghost use Rattle.trace_words.specs.Hex.{bytes_of, utf8_of};

use crate::kept::KeptArgument;
use crate::parts::Parts;
use crate::rules::bytes;
use crate::texts::utf8;
use match_rules::MAX_ARGUMENTS;
use names::ObjectPath;
use std::alloc::{AllocError, Global};

/// Whether a word is an object path.
pub(crate) fn is_path(word: &str) -> bool
    ensures { result ≡ is_path word.now }
{
    ObjectPath::check(word.as_bytes()).is_ok()
}

/// Copies bytes that are text.
fn text_in(alloc: Global, bytes: &[u8]) -> Result<Option<String>, AllocError>
    ensures { IfOk result (λ text. option_map (λ t. string_bytes t) text ≡ utf8_of bytes.now) }
{
    match utf8(bytes) {
        Some(text) => Ok(Some(String::from_str(alloc, text)?)),
        None => Ok(None),
    }
}

/// Reads a text in hex.
fn text(alloc: Global, word: &[u8]) -> Result<Option<String>, AllocError>
    ensures { IfOk result (λ text. option_map (λ t. string_bytes t) text
        ≡ option_and_then utf8_of (bytes_of word.now)) }
{
    match bytes(alloc, word)? {
        Some(bytes) => text_in(alloc, bytes.as_slice()),
        None => Ok(None),
    }
}

fn string(alloc: Global, word: &[u8]) -> Result<Option<KeptArgument>, AllocError>
    ensures { IfOk result (λ argument. option_map kept_argument argument ≡ string_in word.now) }
{
    match text(alloc, word)? {
        Some(text) => Ok(Some(KeptArgument::String(text))),
        None => Ok(None),
    }
}

fn object_path(alloc: Global, word: &[u8]) -> Result<Option<KeptArgument>, AllocError>
    ensures { IfOk result (λ argument. option_map kept_argument argument ≡ path_in_hex word.now) }
{
    let Some(text) = text(alloc, word)? else {
        return Ok(None);
    };
    if is_path(text.as_str()) {
        Ok(Some(KeptArgument::ObjectPath(text)))
    } else {
        Ok(None)
    }
}

fn argument_in(alloc: Global, word: &[u8]) -> Result<Option<KeptArgument>, AllocError>
    ensures { IfOk result (λ argument. option_map kept_argument argument ≡ argument_in word.now) }
{
    let Some((kind, word)) = word.split_first() else {
        return Ok(None);
    };
    if *kind == b's' {
        return string(alloc, word);
    }
    if *kind == b'o' {
        return object_path(alloc, word);
    }
    Ok(None)
}

fn argument(alloc: Global, word: &str) -> Result<Option<KeptArgument>, AllocError>
    ensures { IfOk result (λ argument. option_map kept_argument argument ≡ argument_of word.now) }
{
    if word == "-" {
        return Ok(Some(KeptArgument::Other));
    }
    argument_in(alloc, word.as_bytes())
}

fn arguments_in(
    alloc: Global,
    mut words: Parts<'_>,
) -> Result<Option<Vec<KeptArgument>>, AllocError>
    ensures read { IfOk result (λ arguments. option_map (λ a. map kept_argument a.items) arguments
        ≡ arguments_from [] (parts_left words.entry)) }
    ensures few { IfOk result
        (λ arguments. IfSome arguments (λ a. length a.items ≤ max_arguments)) }
{
    let mut arguments = Vec::new(alloc);
    while let Some(word) = words.take() {
        if arguments.len() == MAX_ARGUMENTS {
            return Ok(None);
        }
        let Some(argument) = argument(alloc, word)? else {
            return Ok(None);
        };
        arguments.push(argument)?;
    }
    Ok(Some(arguments))
}

/// Reads the arguments of a message.
pub(crate) fn arguments(alloc: Global, word: &str) -> Result<Option<Vec<KeptArgument>>, AllocError>
    ensures read { IfOk result (λ arguments. option_map (λ a. map kept_argument a.items) arguments
        ≡ arguments_of word.now) }
    ensures few { IfOk result
        (λ arguments. IfSome arguments (λ a. length a.items ≤ max_arguments)) }
{
    if word == "." {
        return Ok(Some(Vec::new(alloc)));
    }
    arguments_in(alloc, Parts::of(word, ','))
}
