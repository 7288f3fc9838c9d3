//! Bodies as GLib writes them, read and written again.

use marshal::{MarshalFault, Order, Signature, decode, encode};
use std::alloc::Global;

/// What stands in the output before anything is written.
const BEFORE: u8 = 255;

/// Whether a body is read and written again, or memory ran out and the output is as before.
pub fn is_answered(alloc: Global, order: Order, signature: &str, body: &[u8]) -> bool {
    let types = match Signature::parse(alloc, signature) {
        Ok(types) => types,
        Err(fault) => return fault == MarshalFault::NoMemory,
    };
    let (values, used) = match decode(alloc, order, 0, &types, body) {
        Ok(read) => read,
        Err(fault) => return fault == MarshalFault::NoMemory,
    };
    let mut output = Vec::new(alloc);
    if output.push(BEFORE).is_err() {
        return true;
    }
    let written = encode(alloc, order, 0, &values, &mut output);
    let Some((first, behind)) = output.split_first() else {
        return false;
    };
    let as_it_should = match written {
        Ok(()) => used == body.len() && behind == body,
        Err(fault) => fault == MarshalFault::NoMemory && behind.is_empty(),
    };
    *first == BEFORE && as_it_should
}
