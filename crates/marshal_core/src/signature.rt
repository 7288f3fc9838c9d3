//! Signatures.

ghost use Rattle.marshal_core.specs.Types.{types_of};
ghost use Rattle.marshal_core.specs.Signatures.{IsSignature};

use crate::data_type::DataType;
use crate::fault::MarshalFault;
use crate::parsing::signature_types;
use std::alloc::Global;
use std::fmt;

/// Zero or more single complete types, as "Valid Signatures" of the D-Bus Specification allows
/// them: at most 255 bytes as text, 32 arrays and 32 structs about one another, no empty struct.
#[derive(Debug, Drop, PartialEq)]
pub struct Signature {
    pub types: Vec<DataType>,
    pub ghost valid: { IsSignature (types_of types.items) },
}

impl Signature {
    ghost use Rattle.std.specs.Prelude.{◌≡◌};
    ghost use Rattle.marshal_core.specs.Types.{types_of};
    ghost use Rattle.marshal_core.specs.Signatures.{signature_of};
    ghost use Rattle.marshal_core.specs.Faults.{Gives};

    /// The signature of a text, or the first fault from the left: `Signature`, and `Descriptor` at
    /// an `h`. A text of more than 255 bytes is no signature, whatever stands in it.
    pub fn from_bytes(alloc: Global, text: &[u8]) -> Result<Signature, MarshalFault>
        ensures { Gives (λ x. types_of x.types.items) result (signature_of text.now) }
    {
        let types = signature_types(alloc, text)?;
        Ok(Signature { types })
    }

    /// Its complete types, from the left.
    pub fn complete_types(&self) -> &[DataType]
        ensures { result.now ≡ self.now.types.items }
    {
        &self.types
    }

    /// The same of a `str`.
    pub fn parse(alloc: Global, text: &str) -> Result<Signature, MarshalFault>
        ensures { Gives (λ x. types_of x.types.items) result (signature_of text.now) }
    {
        Signature::from_bytes(alloc, text.as_bytes())
    }
}

/// The text of the signature.
impl fmt::Display for Signature {
    ghost use Rattle.std.specs.Prelude.{Some};
    ghost use Rattle.marshal_core.specs.Types.{types_of};
    ghost use Rattle.marshal_core.specs.Signatures.{codes};

    ghost output = { λ signature. Some (codes (types_of signature.types.items)) };

    fn fmt<W: fmt::Write>(&self, f: &mut fmt::Formatter<W>) -> fmt::Result {
        for one in self.complete_types() {
            write!(f, "{one}")?;
        }
        Ok(())
    }
}
