//! The arguments of a message whose body was checked.

ghost use Rattle.std.specs.Prelude.{◌≡◌, ◌+◌, ◌<◌, ◌^◌, length, true};
ghost use Rattle.marshal_check.specs.Arguments.{are_there};
ghost use Rattle.marshal_check.specs.SignatureTexts.{types_in};

use crate::body_arguments::BodyArgument;
use crate::checked_text::checked_text;
use crate::checking::any_value;
use crate::letters::skip_type;
use crate::signature_text::Types;
use marshal_core::Order;

/// The arguments that are left of a body which spells values of its types. Their texts are lent
/// without being checked again.
#[derive(Clone, Copy)]
pub struct CheckedArguments<'a> {
    order: Order,
    types: Types<'a>,
    at: usize,
    bytes: &'a [u8],
    ghost room: { at + length bytes.now < 2 ^ 64 },
    ghost there: { are_there order (types_in types.text.now) at bytes.now ≡ true },
}

impl<'a> CheckedArguments<'a> {
    ghost use Rattle.std.specs.Prelude.{◌≡◌, ◌%◌, ◌∷◌, [], MatchOption};
    ghost use Rattle.marshal_core.specs.Values.{Vals};
    ghost use Rattle.marshal_core.specs.Spelling.{Spells};
    ghost use Rattle.marshal_check.specs.Arguments.{arguments};
    ghost use Rattle.marshal_check.specs.ArgumentViews.{checked_left, seen};
    ghost use Rattle.marshal_check.specs.SignatureTexts.{types_in};

    /// All arguments of a body that spells values of these types, and that stands at this offset
    /// of the message: `check` says that it does.
    pub fn new(
        order: Order,
        offset: usize,
        types: Types<'a>,
        body: &'a [u8],
    ) -> CheckedArguments<'a>
        requires { (vs : Vals) × Spells order offset (types_in types.text.now) vs body.now }
        ensures { (vs : Vals) → Spells order offset (types_in types.entry.text.now) vs body.now
            → checked_left result ≡ arguments vs }
    {
        CheckedArguments {
            order,
            types,
            at: offset % 8,
            bytes: body,
        }
    }

    /// The first argument and the others; `None` where there is none.
    fn split_first(self) -> Option<(BodyArgument<'a>, CheckedArguments<'a>)>
        ensures { MatchOption result (checked_left self.entry ≡ [])
            (λ x. checked_left self.entry ≡ seen x.0 ∷ checked_left x.1) }
    {
        let (letter, others) = self.types.text.split_first()?;
        if *letter == b's' {
            let (text, at, bytes) = checked_text(self.order, self.at, self.bytes);
            let types = Types { text: others };
            return Some((
                BodyArgument::String(text),
                CheckedArguments {
                    order: self.order,
                    types,
                    at,
                    bytes,
                },
            ));
        }
        if *letter == b'o' {
            let (text, at, bytes) = checked_text(self.order, self.at, self.bytes);
            let types = Types { text: others };
            return Some((
                BodyArgument::ObjectPath(text),
                CheckedArguments {
                    order: self.order,
                    types,
                    at,
                    bytes,
                },
            ));
        }
        let Ok((at, bytes)) = any_value(self.order, self.types.text, self.at, self.bytes) else {
            return None;
        };
        let types = Types {
            text: skip_type(self.types.text),
        };
        Some((
            BodyArgument::Other,
            CheckedArguments {
                order: self.order,
                types,
                at,
                bytes,
            },
        ))
    }
}

impl<'a> Iterator for CheckedArguments<'a> {
    ghost use Rattle.std.specs.Iterator.{YieldsFirstBy, item_count};
    ghost use Rattle.marshal_check.specs.ArgumentViews.{checked_left, seen};

    type Item = BodyArgument<'a>;

    ghost next_gives = { YieldsFirstBy seen checked_left };

    ghost remaining = { item_count checked_left };

    fn next(&mut self) -> Option<BodyArgument<'a>> {
        let (first, others) = self.split_first()?;
        *self = others;
        Some(first)
    }
}
