//! Bodies of replies to queries, read back. What does not read is taken for want of memory.

ghost use Rattle.std.specs.Prelude.{◌≡◌, ◌<◌, ◌≤◌, ◌+◌, ◌^◌, ◌++◌, ℕ, Bool, List, length, drop, map, IfOk};
ghost use Rattle.names.specs.Texts.{Text};
ghost use Rattle.marshal_core.specs.Spelling.{text_spelling};
ghost use Rattle.marshal_core.specs.declared.order.Order.TheVariants.{Little};
ghost use Rattle.seq_bus_core.specs.Answers.{OneName, HasOwner, NameList};
ghost use Rattle.bus_view.specs.Bodies.{IsBody};
ghost use Rattle.trace_lines.specs.TextViews.{lent_text};

use byteorder::{ByteOrder, LittleEndian};
use std::alloc::{AllocError, Global};

/// The string that stands at a place of a body, behind its padding, and the place after it.
fn read_string(body: &[u8], at: usize) -> Result<(&str, usize), AllocError>
    requires { at ≤ length body.now }
    ensures read { (text : Text) (rest : List ℕ) → length text < 2 ^ 32 →
        drop at body.now ≡ text_spelling Little at text ++ rest →
        IfOk result (λ r. (r.0.now ≡ text)
        × (r.1 ≡ at + length (text_spelling Little at text))) }
    ensures within { IfOk result (λ r. (at < r.1) × (r.1 ≤ length body.now)) }
{
    let start = at + (4 - at % 4) % 4;
    let Some(rest) = body.get(start..) else {
        return Err(AllocError);
    };
    let Some((length, rest)) = rest.split_first_chunk::<4>() else {
        return Err(AllocError);
    };
    let length = LittleEndian::read_u32(length) as usize;
    if rest.len() <= length {
        return Err(AllocError);
    }
    match str::from_utf8(&rest[..length]) {
        Ok(text) => Ok((text, start + 5 + length)),
        Err(_) => Err(AllocError),
    }
}

/// A body that is a string.
pub(crate) fn read_name(body: &[u8]) -> Result<&str, AllocError>
    ensures { (name : Text) → IsBody (OneName name) body.now → IfOk result (λ r. r.now ≡ name) }
{
    let (name, _) = read_string(body, 0)?;
    Ok(name)
}

/// A body that is a boolean.
pub(crate) fn read_whether(body: &[u8]) -> bool
    ensures { (owned : Bool) → IsBody (HasOwner owned) body.now → result ≡ owned }
{
    match body.first() {
        Some(byte) => *byte == 1,
        None => false,
    }
}

/// A body that is an array of strings.
pub(crate) fn read_names(alloc: Global, body: &[u8]) -> Result<Vec<&str>, AllocError>
    ensures { (names : List Text) → IsBody (NameList names) body.now →
        IfOk result (λ r. map lent_text r.items ≡ names) }
{
    let mut names = Vec::new(alloc);
    let mut at = 4;
    while at < body.len() {
        let (name, next) = read_string(body, at)?;
        names.push(name)?;
        at = next;
    }
    Ok(names)
}
