//! What rules and routing look at in a message.

ghost use Rattle.std.specs.Prelude.{◌≡◌, [], map, take};
ghost use Rattle.marshal_check.specs.ArgumentViews.{seen};
ghost use Rattle.match_rules.specs.FactsView.{argument_of};
ghost use Rattle.message_core.specs.Said.{said};
ghost use Rattle.message.specs.FactsOf.{all_arguments, as_argument, facts_of, first_arguments};

use crate::parts::parts_of;
use arrayvec::ArrayVec;
use marshal_check::{BodyArgument, CheckedArguments, Types};
use match_rules::{Argument, Facts};
use message_core::{Message, NO_AUTO_START};

/// An argument as rules look at it.
fn as_fact(argument: BodyArgument<'_>) -> Argument<'_>
    ensures { argument_of result ≡ as_argument (seen argument.entry) }
{
    match argument {
        BodyArgument::String(text) => Argument::String(text),
        BodyArgument::ObjectPath(text) => Argument::ObjectPath(text),
        BodyArgument::Other => Argument::Other,
    }
}

/// Puts the first arguments of a message, as match rules look at them: as many as there is room
/// for.
#[inline(never)]
pub fn put_arguments<'a, const N: usize>(
    message: &'a Message,
    first: &mut ArrayVec<Argument<'a>, N>,
)
    requires { first.old.items ≡ [] }
    ensures { map argument_of first.new.items ≡ take N (all_arguments (said message.now)) }
{
    let parts = parts_of(message);
    let types = Types {
        text: message.signature(),
    };
    for argument in CheckedArguments::new(parts.order, 0, types, parts.body) {
        if first.is_full() {
            return;
        }
        first.push(as_fact(argument));
    }
}

/// The first 64 arguments of a message: all that match rules may look at.
pub fn first_arguments(message: &Message) -> ArrayVec<Argument<'_>, 64>
    ensures { map argument_of result.items ≡ first_arguments (said message.now) }
{
    let mut first = ArrayVec::new();
    put_arguments(message, &mut first);
    first
}

/// What match rules and routing look at in a message, lent out of it ("Match Rules" of the D-Bus
/// Specification). The sender is 0, the bus's number: who sent a message is not told by it. Of the
/// arguments rules see those that are handed in, as [`first_arguments`] gives them.
pub fn facts<'a>(message: &'a Message, arguments: &'a [Argument<'a>]) -> Facts<'a>
    ensures { result ≡ record (facts_of (said message.now)) {
      arguments = map argument_of arguments.now;
    } }
{
    Facts {
        kind: message.kind(),
        auto_start: message.flags() & NO_AUTO_START == 0,
        sender: 0,
        path: message.path(),
        interface: message.interface(),
        member: message.member(),
        destination: message.destination(),
        arguments,
    }
}
