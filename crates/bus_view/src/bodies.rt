//! Bodies of replies.

ghost use Rattle.std.specs.Prelude.{◌≡◌, ◌+◌, ◌-◌, ◌<◌, ◌≤◌, ◌^◌, ◌++◌, ◌∷◌, [], ℕ, List, length, take, drop};
ghost use Rattle.std.specs.Prelude.{option_map, Some, IfOk, IfErr, OnOk, OnErr};
ghost use Rattle.std.specs.Int.{w32, to_le_bytes};
ghost use Rattle.names.specs.Texts.{Text};
ghost use Rattle.marshal_core.specs.Spelling.{pads, text_spelling, number_spelling};
ghost use Rattle.marshal_core.specs.Spelling.{boolean_number};
ghost use Rattle.marshal_core.specs.declared.order.Order.TheVariants.{Little};
ghost use Rattle.seq_bus_core.specs.Answers.{OneName, HasOwner, NameList};
ghost use Rattle.bus_view.specs.Bodies.{Answers, AreListed, HasGrown};
ghost use Rattle.bus_view.specs.declared.answer.AskFault.TheVariants.{NoMemory};

use crate::answer::{AskFault, Asked};
use byteorder::{ByteOrder, LittleEndian};
use names::{BusName, ConnectionName};
use std::alloc::AllocError;

/// Appends a string, which is the whole body.
fn append_string(body: &mut Vec<u8>, text: &str) -> Result<(), AllocError>
    requires { length text.now < 2 ^ 32 }
    ensures ok { OnOk result (body.new.items ≡ body.old.items ++ text_spelling Little 0 text.now) }
    ensures err { OnErr result (body.new.items ≡ body.old.items) }
{
    let bytes = text.as_bytes();
    body.reserve(bytes.len() + 5)?;
    let mut length = [0; 4];
    LittleEndian::write_u32(&mut length, bytes.len() as u32);
    body.extend_from_slice(&length).unwrap();
    body.extend_from_slice(bytes).unwrap();
    body.push(0).unwrap();
    Ok(())
}

/// Appends a boolean, which is the whole body.
fn append_boolean(body: &mut Vec<u8>, value: bool) -> Result<(), AllocError>
    ensures ok { OnOk result (body.new.items ≡
        body.old.items ++ number_spelling Little w32 0 (boolean_number value)) }
    ensures err { OnErr result (body.new.items ≡ body.old.items) }
{
    let mut number = [0; 4];
    LittleEndian::write_u32(&mut number, u32::from(value));
    body.extend_from_slice(&number)?;
    Ok(())
}

/// Begins an array of names behind what stands in the body, and says at which place. Its length is
/// written when it ends.
///
/// The array is the whole body of a reply, which begins where it does. Its names are written by
/// `push_name`.
pub fn begin_names(body: &mut Vec<u8>) -> Result<usize, AllocError>
    ensures place { IfOk result (λ start. start ≡ length body.old.items) }
    ensures begun { OnOk result (AreListed body.old.items [] body.new.items) }
    ensures unanswered { OnErr result (body.new.items ≡ body.old.items) }
{
    let start = body.len();
    let length = [0u8; 4];
    body.extend_from_slice(&length)?;
    Ok(start)
}

/// Writes a name of an array that begins at this place of the body. Where there is no memory for
/// it, a part of it may stand behind what was there, which `undo_names` takes away.
pub fn push_name(body: &mut Vec<u8>, start: usize, name: &BusName) -> Result<(), AllocError>
    requires { start ≤ length body.old.items }
    ensures listed { OnOk result ((before : List ℕ) (names : List Text) → length before ≡ start →
        AreListed before names body.old.items →
        AreListed before (names ++ name.now ∷ []) body.new.items) }
    ensures within { start ≤ length body.new.items }
    ensures kept { take start body.new.items ≡ take start body.old.items }
{
    push_string(body, start, name.as_str())
}

/// Writes the unique name of a connection as a name of such an array.
pub fn push_connection(
    body: &mut Vec<u8>,
    start: usize,
    name: &ConnectionName,
) -> Result<(), AllocError>
    requires { start ≤ length body.old.items }
    ensures listed { OnOk result ((before : List ℕ) (names : List Text) → length before ≡ start →
        AreListed before names body.old.items →
        AreListed before (names ++ name.now ∷ []) body.new.items) }
    ensures within { start ≤ length body.new.items }
    ensures kept { take start body.new.items ≡ take start body.old.items }
{
    push_string(body, start, name.as_str())
}

/// Ends an array of names that begins at this place of the body: writes its length. They take at
/// most 2^20 bytes.
pub fn end_names(body: &mut Vec<u8>, start: usize) -> Asked
    requires begun { start + 4 ≤ length body.old.items }
    requires few { length body.old.items ≤ start + 4 + 2 ^ 20 }
    ensures { (before : List ℕ) (names : List Text) → length before ≡ start →
        AreListed before names body.old.items → length names ≤ 2048 →
        Answers result (Some (NameList names)) before body.new.items }
{
    let count = body.len() - start - 4;
    write_count(body.as_mut_slice(), start, count as u32);
    Asked::Body
}

/// Takes away an array of names that begins at this place of the body, for want of memory.
pub fn undo_names(body: &mut Vec<u8>, start: usize) -> AskFault
    ensures fault { result ≡ NoMemory }
    ensures undone { body.new.items ≡ take start body.old.items }
{
    body.truncate(start);
    AskFault::NoMemory
}

/// Writes the length of an array that begins at this place.
fn write_count(body: &mut [u8], start: usize, count: u32)
    requires { start + 4 ≤ length body.old }
    ensures { body.new ≡ take start body.old ++ to_le_bytes w32 count ++ drop (start + 4) body.old }
{
    LittleEndian::write_u32(&mut body[start..start + 4], count);
}

/// Appends a string to those of an array that begins at this place of the body.
fn push_string(body: &mut Vec<u8>, start: usize, text: &str) -> Result<(), AllocError>
    requires { (start ≤ length body.old.items) × (length text.now < 2 ^ 32) }
    ensures ok { OnOk result (body.new.items ≡
        body.old.items ++ text_spelling Little (length body.old.items - start) text.now) }
    ensures kept { HasGrown body.old.items body.new.items }
{
    push_padding(body, start)?;
    append_string(body, text)
}

/// Appends the zero bytes that stand before a string of an array that begins at this place of the
/// body.
fn push_padding(body: &mut Vec<u8>, start: usize) -> Result<(), AllocError>
    requires { start ≤ length body.old.items }
    ensures ok { OnOk result (body.new.items ≡
        body.old.items ++ pads 4 (length body.old.items - start)) }
    ensures err { OnErr result (body.new.items ≡ body.old.items) }
{
    let zeros = [0u8; 4];
    let place = body.len() - start;
    let count = (4 - place % 4) % 4;
    body.extend_from_slice(&zeros[..count])
}

/// Appends a name that is its own owner.
pub fn append_name(body: &mut Vec<u8>, name: &BusName) -> Result<Asked, AskFault>
    ensures answered { IfOk result (λ asked.
        Answers asked (Some (OneName name.now)) body.old.items body.new.items) }
    ensures fault { IfErr result (λ fault. fault ≡ NoMemory) }
    ensures unanswered { OnErr result (body.new.items ≡ body.old.items) }
{
    append_string(body, name.as_str())?;
    Ok(Asked::Body)
}

/// Appends the owner of a name, which is a connection, or says that there is none.
pub fn append_owner(body: &mut Vec<u8>, owner: Option<ConnectionName>) -> Result<Asked, AskFault>
    ensures answered { IfOk result (λ asked.
        Answers asked (option_map OneName owner) body.old.items body.new.items) }
    ensures fault { IfErr result (λ fault. fault ≡ NoMemory) }
    ensures unanswered { OnErr result (body.new.items ≡ body.old.items) }
{
    let Some(owner) = owner else {
        return Ok(Asked::NameHasNoOwner);
    };
    append_string(body, owner.as_str())?;
    Ok(Asked::Body)
}

/// Appends whether a name has an owner.
pub fn append_whether(body: &mut Vec<u8>, owned: bool) -> Result<Asked, AskFault>
    ensures answered { IfOk result (λ asked.
        Answers asked (Some (HasOwner owned)) body.old.items body.new.items) }
    ensures fault { IfErr result (λ fault. fault ≡ NoMemory) }
    ensures unanswered { OnErr result (body.new.items ≡ body.old.items) }
{
    append_boolean(body, owned)?;
    Ok(Asked::Body)
}
