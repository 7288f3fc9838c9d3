//! Messages and parts of messages.

ghost use Rattle.std.specs.Prelude.{◌≡◌, length, IfOk};

use std::alloc::{AllocError, Global};

/// A call of Hello, little-endian.
pub const HELLO: &[u8] =
    b"l\x01\0\x01\0\0\0\0\x01\0\0\0m\0\0\0\x01\x01o\0\x15\0\0\0/org/freedesktop/DBus\0\0\0\
    \x02\x01s\0\x14\0\0\0org.freedesktop.DBus\0\0\0\0\x03\x01s\0\x05\0\0\0Hello\0\0\0\x06\
    \x01s\0\x14\0\0\0org.freedesktop.DBus\0\0\0\0";

/// The header fields of a call of Hello, which begin at offset 12.
pub const HELLO_FIELDS: &[u8] = b"m\0\0\0\x01\x01o\0\x15\0\0\0/org/freedesktop/DBus\0\0\0\
    \x02\x01s\0\x14\0\0\0org.freedesktop.DBus\0\0\0\0\x03\x01s\0\x05\0\0\0Hello\0\0\0\x06\
    \x01s\0\x14\0\0\0org.freedesktop.DBus\0";

/// One string of a body, with its length and the zero behind it.
const STRING: &[u8] = b"\x2b\0\0\0org.example.service.name.of.some.length.abc\0";

/// The body of an array of 20 strings, of 964 bytes.
pub fn strings(alloc: Global) -> Result<Vec<u8>, AllocError> {
    let mut body = Vec::from_slice(alloc, b"\xc0\x03\0\0")?;
    for _ in 0..20 {
        body.extend_from_slice(STRING)?;
    }
    Ok(body)
}

/// The body of 20 strings that are arguments of their own, of 960 bytes.
pub fn arguments(alloc: Global) -> Result<Vec<u8>, AllocError>
    ensures { IfOk result (λ body. length body.items ≡ 960) }
{
    let mut body = Vec::new(alloc);
    for _ in 0..20u32 {
        body.extend_from_slice(STRING)?;
    }
    Ok(body)
}

/// The body of an array of 65,536 bytes.
pub fn many_bytes(alloc: Global) -> Result<Vec<u8>, AllocError> {
    let mut body = Vec::from_slice(alloc, b"\0\0\x01\0")?;
    for number in 0..65_536u32 {
        body.push((number % 251) as u8)?;
    }
    Ok(body)
}
