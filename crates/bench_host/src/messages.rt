//! What clients send, put together from the wire format by hand.

use std::alloc::{AllocError, Global};

/// AddMatch of `member='Ticked'`, serial 2.
pub const ADD_MATCH: &[u8] =
    b"l\x01\0\x01\x14\0\0\0\x02\0\0\0\x7f\0\0\0\x01\x01o\0\x15\0\0\0/org/freedesktop/DBus\0\0\0\x02\x01s\0\x14\0\0\0org.freedesktop.DBus\0\0\0\0\x03\x01s\0\x08\0\0\0AddMatch\0\0\0\0\0\0\0\0\x06\x01s\0\x14\0\0\0org.freedesktop.DBus\0\0\0\0\x08\x01g\0\x01s\0\0\x0f\0\0\0member='Ticked'\0";

/// A message with an array of bytes.
#[derive(Clone, Copy)]
pub struct Head {
    /// Its first four bytes.
    first: [u8; 4],
    /// What stands between the length of its body and that.
    rest: &'static [u8],
}

/// A call to `:1.2`, serial 3.
pub const CALL: Head = Head {
    first: *b"l\x01\0\x01",
    rest: b"\x03\0\0\08\0\0\0\x01\x01o\0\x01\0\0\0/\0\0\0\0\0\0\0\x03\x01s\0\x04\0\0\0Echo\0\0\0\0\x06\x01s\0\x04\0\0\0:1.2\0\0\0\0\x08\x01g\0\x02ay\0",
};

/// Its reply, to `:1.1`, serial 3.
pub const REPLY: Head = Head {
    first: *b"l\x02\x01\x01",
    rest: b"\x03\0\0\0 \0\0\0\x05\x01u\0\x03\0\0\0\x06\x01s\0\x04\0\0\0:1.1\0\0\0\0\x08\x01g\0\x02ay\0",
};

/// A signal, serial 3.
pub const TICKED: Head = Head {
    first: *b"l\x04\x01\x01",
    rest: b"\x03\0\0\0H\0\0\0\x01\x01o\0\x01\0\0\0/\0\0\0\0\0\0\0\x02\x01s\0\x11\0\0\0com.example.Clock\0\0\0\0\0\0\0\x03\x01s\0\x06\0\0\0Ticked\0\0\x08\x01g\0\x02ay\0",
};

impl Head {
    /// The message whose body has so many bytes, 4 at least: the length of the array, and zeros.
    pub fn with_body(&self, alloc: Global, length: u32) -> Result<Vec<u8>, AllocError> {
        let elements = length.saturating_sub(4);
        let mut message = Vec::from_slice(alloc, &self.first)?;
        message.extend_from_slice(&elements.saturating_add(4).to_le_bytes())?;
        message.extend_from_slice(self.rest)?;
        message.extend_from_slice(&elements.to_le_bytes())?;
        let zeros = Vec::from_elem(alloc, 0u8, elements as usize)?;
        message.extend_from_slice(zeros.as_slice())?;
        Ok(message)
    }
}
