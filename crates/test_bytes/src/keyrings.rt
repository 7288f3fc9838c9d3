//! Rows of keyrings.

use sasl::read_keyring;
use std::alloc::{AllocError, Global};
use test_support::{Escaped, Row};

/// `keyring | BYTES`: the cookie that is used, or the fault.
pub fn keyring(alloc: Global, row: &Row<'_>) -> Result<String, AllocError> {
    match read_keyring(alloc, &row.bytes(alloc, 1)?) {
        Ok(cookie) => format!(in alloc; "{} {}", Escaped(cookie.id()), Escaped(cookie.secret())),
        Err(fault) => format!(in alloc; "{}: {fault}", fault.code()),
    }
}
