//! Messages of the bus, laid out in their bytes.

ghost use Rattle.std.specs.Prelude.{◌≡◌, ◌<◌, ◌^◌, ◌++◌, length, OnOk, OnErr};
ghost use Rattle.match_rules.specs.Kinds.{kind_number};
ghost use Rattle.driver.specs.Layout.{own_bytes};

use marshal_core::Order;
use match_rules::MessageKind;
use message_core::{NO_REPLY_EXPECTED, lay_out};
use std::alloc::AllocError;

/// Appends a message of the bus: the fixed part, the header fields, the padding, the body. A body
/// of 2^32 bytes has no room in any message.
pub fn append_message(
    kind: MessageKind,
    serial: u32,
    fields: &[u8],
    body: &[u8],
    out: &mut Vec<u8>,
) -> Result<(), AllocError>
    ensures ok { OnOk result (out.new.items
        ≡ out.old.items ++ own_bytes (kind_number kind) serial fields.now body.now) }
    ensures fits { OnOk result (length body.now < 2 ^ 32) }
    ensures err { OnErr result (out.new.items ≡ out.old.items) }
{
    match lay_out(
        out,
        Order::Little,
        kind,
        NO_REPLY_EXPECTED,
        serial,
        fields,
        body,
    ) {
        Ok(()) => Ok(()),
        Err(_) => Err(AllocError),
    }
}
