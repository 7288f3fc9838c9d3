//! Signatures with types of their own, and those that borrow their text.

use crate::signature_text::Types;
use marshal::parts::type_codes;
use marshal_core::Signature;
use std::alloc::{AllocError, Global};

impl<'a> Types<'a> {
    ghost use Rattle.std.specs.Prelude.{◌≡◌, IfOk};
    ghost use Rattle.marshal_core.specs.Types.{types_of};
    ghost use Rattle.marshal_check.specs.SignatureTexts.{types_in};

    /// The types of a signature, whose text is put into `text` in place of what is there.
    pub fn of(signature: &Signature, text: &'a mut Vec<u8>) -> Result<Types<'a>, AllocError>
        ensures { IfOk result (λ x. types_in x.text.now ≡ types_of signature.now.types.items) }
    {
        text.clear();
        type_codes(&signature.types, text)?;
        Ok(Types {
            text: text.as_slice(),
        })
    }

    /// A signature of these types.
    pub fn to_signature(self, alloc: Global) -> Result<Signature, AllocError>
        ensures { IfOk result (λ x. types_of x.types.items ≡ types_in self.entry.text.now) }
    {
        match Signature::from_bytes(alloc, self.text) {
            Ok(signature) => Ok(signature),
            Err(_) => Err(AllocError),
        }
    }
}
