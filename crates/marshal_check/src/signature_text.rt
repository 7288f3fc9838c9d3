//! Signatures that borrow their text.

ghost use Rattle.std.specs.Prelude.{◌≡◌, true};
ghost use Rattle.marshal_check.specs.SignatureTexts.{is_signature_text};

use crate::complete_types::CompleteTypes;
use crate::letters::skip_type;
use crate::recognizing::is_signature;
use marshal_core::MarshalFault;

/// Zero or more single complete types, as "Valid Signatures" of the D-Bus Specification allows
/// them, by their text.
#[derive(Clone, Copy, Debug, PartialEq, Eq)]
pub struct Types<'a> {
    pub text: &'a [u8],
    pub ghost valid: { is_signature_text text.now ≡ true },
}

impl<'a> Types<'a> {
    ghost use Rattle.std.specs.Prelude.{◌≡◌, IfOk, MatchOption};
    ghost use Rattle.marshal_core.specs.Types.{no_types};
    ghost use Rattle.marshal_core.specs.Signatures.{signature_of};
    ghost use Rattle.marshal_core.specs.Faults.{Tells};
    ghost use Rattle.marshal_check.specs.SignatureTexts.{BeginsWith, each_alone, types_in};
    ghost use Rattle.marshal_check.specs.TypeViews.{types_left};

    /// The types of a text, or the first fault from the left: `Signature`, and `Descriptor` at an
    /// `h`. A text of more than 255 bytes is no signature, whatever stands in it.
    pub fn from_bytes(text: &'a [u8]) -> Result<Types<'a>, MarshalFault>
        ensures reads { Tells (λ x. types_in x.text.now) result (signature_of text.now) }
        ensures text { IfOk result (λ x. x.text.now ≡ text.now) }
    {
        is_signature(text)?;
        Ok(Types { text })
    }

    /// The first complete type, as a signature of one type, and the others; `None` where there is
    /// none.
    pub fn split_first(self) -> Option<(Types<'a>, Types<'a>)>
        ensures { MatchOption result (types_in self.entry.text.now ≡ no_types)
            (λ x. BeginsWith (types_in self.entry.text.now) (types_in x.0.text.now)
            (types_in x.1.text.now)) }
    {
        if self.text.is_empty() {
            return None;
        }
        let others = skip_type(self.text);
        let (first, _) = self.text.split_at(self.text.len() - others.len());
        Some((Types { text: first }, Types { text: others }))
    }

    /// Its complete types from the left, each as a signature of one type.
    pub fn complete_types(self) -> CompleteTypes<'a>
        ensures { types_left result ≡ each_alone (types_in self.entry.text.now) }
    {
        CompleteTypes::new(self)
    }

    /// The same of a `str`.
    pub fn parse(text: &'a str) -> Result<Types<'a>, MarshalFault>
        ensures reads { Tells (λ x. types_in x.text.now) result (signature_of text.now) }
        ensures text { IfOk result (λ x. x.text.now ≡ text.now) }
    {
        Types::from_bytes(text.as_bytes())
    }
}
