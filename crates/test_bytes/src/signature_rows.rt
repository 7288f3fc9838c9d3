//! Rows of signatures.

use marshal::{MarshalFault, Signature};
use marshal_check::Types;
use std::alloc::{AllocError, Global};
use test_support::{Escaped, Row};

/// `signature | TEXT`: the text as a signature of its own, and as one that borrows its text.
/// `signature-bytes | BYTES`: the same of bytes.
pub fn signature(alloc: Global, row: &Row<'_>) -> Result<String, AllocError> {
    if row.text(0) == "signature" {
        let text = row.text(1);
        both(alloc, Signature::parse(alloc, text), Types::parse(text))
    } else {
        let bytes = row.bytes(alloc, 1)?;
        both(
            alloc,
            Signature::from_bytes(alloc, &bytes),
            Types::from_bytes(&bytes),
        )
    }
}

fn both(
    alloc: Global,
    owned: Result<Signature, MarshalFault>,
    lent: Result<Types<'_>, MarshalFault>,
) -> Result<String, AllocError> {
    let owned = told(alloc, owned)?;
    let lent = told_of_lent(alloc, lent)?;
    format!(in alloc; "{owned}; {lent}")
}

/// The text, and the complete types in it.
fn told(alloc: Global, signature: Result<Signature, MarshalFault>) -> Result<String, AllocError> {
    match signature {
        Ok(signature) => {
            let mut text = format!(in alloc; "{signature} {}:", signature.types.len())?;
            for one in signature.complete_types() {
                write!(text, " {one}")?;
            }
            Ok(text)
        }
        Err(fault) => format!(in alloc; "{}: {fault}", fault.code()),
    }
}

/// The complete types, the signature that it becomes, and whether that one's text is the text.
fn told_of_lent(
    alloc: Global,
    types: Result<Types<'_>, MarshalFault>,
) -> Result<String, AllocError> {
    match types {
        Ok(types) => {
            let mut text = String::new(alloc);
            for one in types.complete_types() {
                write!(text, "{} ", Escaped(one.text))?;
            }
            let mut room = Vec::new(alloc);
            let signature = types.to_signature(alloc)?;
            let again = Types::of(&signature, &mut room)? == types;
            write!(text, "= {signature} {again}")?;
            Ok(text)
        }
        Err(fault) => format!(in alloc; "{}: {fault}", fault.code()),
    }
}
