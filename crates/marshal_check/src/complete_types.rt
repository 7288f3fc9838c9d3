//! The complete types of a signature, one after the other.

use crate::signature_text::Types;

/// The complete types that are left of a signature, from the left, each as a signature of one type.
#[derive(Clone, Copy)]
pub struct CompleteTypes<'a> {
    types: Types<'a>,
}

impl<'a> CompleteTypes<'a> {
    ghost use Rattle.std.specs.Prelude.{◌≡◌};
    ghost use Rattle.marshal_check.specs.SignatureTexts.{each_alone, types_in};
    ghost use Rattle.marshal_check.specs.TypeViews.{types_left};

    /// All complete types of a signature.
    pub fn new(types: Types<'a>) -> CompleteTypes<'a>
        ensures { types_left result ≡ each_alone (types_in types.entry.text.now) }
    {
        CompleteTypes { types }
    }
}

impl<'a> Iterator for CompleteTypes<'a> {
    ghost use Rattle.std.specs.Iterator.{YieldsFirstBy, item_count};
    ghost use Rattle.marshal_check.specs.TypeViews.{its_types, types_left};

    type Item = Types<'a>;

    ghost next_gives = { YieldsFirstBy its_types types_left };

    ghost remaining = { item_count types_left };

    fn next(&mut self) -> Option<Types<'a>> {
        let (first, others) = self.types.split_first()?;
        self.types = others;
        Some(first)
    }
}
