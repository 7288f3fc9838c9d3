//! Where the parts of a message stand when it is written again.

ghost use Rattle.std.specs.Prelude.{◌≡◌, ◌+◌, ◌^◌, ◌<◌, ◌≤◌, length, nat_lt, Ok, Err, IfOk, MatchResult, if◌then◌else◌};
ghost use Rattle.message.specs.declared.fault.RelayFault.TheVariants.{TooLong};
ghost use Rattle.message.specs.Layout.{AreWithin, count_below, behind, fields_end, last_end, known_places, before_sender, after_sender, before_end, sender_end, sent_end};

use crate::fault::RelayFault;
use message_core::in_room::gap;
use message_core::{FIXED_LENGTH, FieldPlace, HeaderField, MAXIMUM_FIELDS};

/// The least code that the standard names no field of ("Header Fields").
const FIRST_UNKNOWN: u8 = 10;

/// The place behind a text of so many bytes that is put at the next multiple of eight.
pub fn behind(at: usize, length: usize) -> usize
    requires { at + 8 + length < 2 ^ 64 }
    ensures { result ≡ behind at length }
{
    at + gap(at) + length
}

/// How many of the places come before the first of a code that is not below this one.
pub fn count_below(places: &[FieldPlace], code: u8) -> usize
    ensures value { result ≡ count_below code places.now }
    ensures within { result ≤ length places.now }
{
    let mut index = 0;
    for place in places {
        if code <= place.code {
            return index;
        }
        index += 1;
    }
    index
}

/// The place behind the fields that are put one after the other from a place on, unless the array
/// of fields would be too long.
pub fn fields_end(at: usize, fields: &[FieldPlace]) -> Result<usize, RelayFault>
    requires begins { at < 2 ^ 34 }
    requires within { AreWithin (2 ^ 33) fields.now }
    ensures { result
        ≡ (if nat_lt last_end (fields_end at fields.now) then Err TooLong else Ok
        (fields_end at fields.now)) }
{
    let mut end = at;
    for field in fields {
        if end > FIXED_LENGTH + MAXIMUM_FIELDS {
            return Err(RelayFault::TooLong);
        }
        end = behind(end, field.to - field.from);
    }
    if end > FIXED_LENGTH + MAXIMUM_FIELDS {
        return Err(RelayFault::TooLong);
    }
    Ok(end)
}

/// The fields of known codes.
fn known_fields(fields: &[FieldPlace]) -> &[FieldPlace]
    ensures { result.now ≡ known_places fields.now }
{
    &fields[..count_below(fields, FIRST_UNKNOWN)]
}

/// Where the parts of a message stand when it is written with a sender.
#[derive(Drop)]
pub struct Layout<'a> {
    pub before: &'a [FieldPlace],
    pub sender: usize,
    pub next: usize,
    pub after: &'a [FieldPlace],
    pub end: usize,
}

/// Where the parts stand of a message with those of these fields that have known codes, sent by a
/// name.
pub fn layout_of<'a>(fields: &'a [FieldPlace], name: &str) -> Result<Layout<'a>, RelayFault>
    requires within { AreWithin (2 ^ 33) fields.now }
    requires short { length name.now ≤ 255 }
    ensures before { IfOk result (λ layout. layout.before.now
        ≡ before_sender (known_places fields.now)) }
    ensures sender { IfOk result (λ layout. layout.sender ≡ before_end (known_places fields.now)) }
    ensures next { IfOk result (λ layout. layout.next
        ≡ sender_end name.now (known_places fields.now)) }
    ensures after { IfOk result (λ layout. layout.after.now
        ≡ after_sender (known_places fields.now)) }
    ensures end { IfOk result (λ layout. layout.end ≡ sent_end name.now (known_places fields.now)) }
    ensures too_long { MatchResult result (λ _. sent_end name.now (known_places fields.now)
        ≤ last_end) (λ fault. (fault ≡ TooLong)
        × (last_end < sent_end name.now (known_places fields.now))) }
{
    let code = HeaderField::Sender.code();
    let known = known_fields(fields);
    let before = &known[..count_below(known, code)];
    let after = &known[count_below(known, code + 1)..];
    let sender = fields_end(FIXED_LENGTH, before)?;
    let next = behind(sender, 9 + name.len());
    let end = fields_end(next, after)?;
    Ok(Layout {
        before,
        sender,
        next,
        after,
        end,
    })
}
