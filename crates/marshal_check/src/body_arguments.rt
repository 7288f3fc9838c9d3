//! The arguments of a message, where they lie in its body.

ghost use Rattle.std.specs.Prelude.{◌+◌, ◌<◌, ◌^◌, length};

use crate::one_argument::one_argument;
use crate::signature_text::Types;
use marshal_core::Order;

/// An argument of a message, as far as match rules look at it.
#[derive(Clone, Copy, Debug, PartialEq, Eq)]
pub enum BodyArgument<'a> {
    String(&'a str),
    ObjectPath(&'a str),
    /// An argument of another type.
    Other,
}

/// The arguments that are left of a body.
#[derive(Clone, Copy)]
pub struct Arguments<'a> {
    order: Order,
    types: Types<'a>,
    at: usize,
    bytes: &'a [u8],
    ghost room: { at + length bytes.now < 2 ^ 64 },
}

impl<'a> Arguments<'a> {
    ghost use Rattle.std.specs.Prelude.{◌≡◌, ◌%◌, ◌++◌, List, ℕ};
    ghost use Rattle.marshal_core.specs.Values.{Vals};
    ghost use Rattle.marshal_core.specs.Spelling.{Spells};
    ghost use Rattle.marshal_check.specs.Arguments.{arguments, arguments_at};
    ghost use Rattle.marshal_check.specs.ArgumentViews.{arguments_left};
    ghost use Rattle.marshal_check.specs.SignatureTexts.{types_in};

    /// The arguments of these types that a body begins with, which stands at this offset of the
    /// message: all of them where `check` takes the body, else those before the first fault.
    pub fn new(order: Order, offset: usize, types: Types<'a>, body: &'a [u8]) -> Arguments<'a>
        // Where the body begins with a spelling of any values of these types, these are the
        // arguments.
        ensures values { (vs : Vals) (front rest : List ℕ) → body.now ≡ front ++ rest
            → Spells order offset (types_in types.entry.text.now) vs front
            → arguments_left result ≡ arguments vs }
        ensures exact { arguments_left result
            ≡ arguments_at order (types_in types.entry.text.now) (offset % 8) body.now }
    {
        Arguments {
            order,
            types,
            at: offset % 8,
            bytes: body,
        }
    }
}

impl<'a> Iterator for Arguments<'a> {
    ghost use Rattle.std.specs.Iterator.{YieldsFirstBy, item_count};
    ghost use Rattle.marshal_check.specs.ArgumentViews.{arguments_left, seen};

    type Item = BodyArgument<'a>;

    ghost next_gives = { YieldsFirstBy seen arguments_left };

    ghost remaining = { item_count arguments_left };

    fn next(&mut self) -> Option<BodyArgument<'a>> {
        let (one, types) = self.types.split_first()?;
        let Ok((argument, at, bytes)) = one_argument(self.order, one.text, self.at, self.bytes)
        else {
            return None;
        };
        self.types = types;
        self.at = at;
        self.bytes = bytes;
        Some(argument)
    }
}
