//! What rules and routing look at in the bus's own messages.

ghost use Rattle.std.specs.Prelude.{◌≡◌, [], None, Some, is_some, map, option_map, true, unwrap_or};
ghost use Rattle.names.specs.UniqueName.{unique_text};
ghost use Rattle.marshal_check.specs.Arguments.{argument_of as value_argument, arguments as value_arguments};
ghost use Rattle.match_rules.specs.Facts.{StringArgument, bus_number};
ghost use Rattle.match_rules.specs.FactsView.{argument_of};
ghost use Rattle.message.specs.FactsOf.{as_argument, facts_of};
ghost use Rattle.bus_view.specs.Bodies.{answer_value};
ghost use Rattle.outbox_core.specs.Answers.{kind_of};
ghost use Rattle.driver.specs.OwnMessages.{signal_message};
ghost use Rattle.driver.specs.declared.reply.BodyKind.TheVariants as of_kind;
ghost use Rattle.outbox_core.specs.Contents.{Signals, carried_of, carried_values, own_of, bus_message};
ghost use Rattle.outbox_core.specs.Named.{names_of, number_in};

use crate::answer::AnswerBody;
use crate::bus_message::BusMessage;
use arrayvec::ArrayVec;
use audience::SignalNames;
use driver::{BodyKind, ReplyBody, error_text};
use marshal_check::{Arguments, BodyArgument, Types};
use marshal_core::Order;
use match_rules::{Argument, Facts, MessageKind};
use names::ConnectionName;
use seq_bus_core::BusSignal;

/// The arguments of a message of the bus, of which there are three at most.
pub type OwnArguments<'a> = ArrayVec<Argument<'a>, 3>;

/// The unique names in a message of the bus, which has them by the numbers of their connections.
/// Its [facts](BusMessage::facts) are lent out of both.
#[derive(Clone, Copy, Debug)]
pub struct BusMessageNames {
    /// Those of a signal.
    signal: Option<SignalNames>,
    /// The connection that a reply or an error is for.
    caller: Option<ConnectionName>,
    /// The connection in the body of a reply.
    carried: Option<ConnectionName>,
}

fn name_of(number: Option<u64>) -> Option<ConnectionName>
    ensures { result ≡ option_map unique_text number }
{
    match number {
        Some(number) => Some(ConnectionName::of(number)),
        None => None,
    }
}

fn lent(name: &Option<ConnectionName>) -> Option<&str>
    ensures { option_map (λ t. t.now) result ≡ name.now }
{
    match name {
        Some(name) => Some(name.as_str()),
        None => None,
    }
}

/// A name as an argument, which is an empty text where there is none.
fn name_argument(name: &Option<ConnectionName>) -> Argument<'_>
    ensures { argument_of result ≡ StringArgument (unwrap_or name.now []) }
{
    match name {
        Some(name) => Argument::String(name.as_str()),
        None => Argument::String(""),
    }
}

impl BusMessageNames {
    /// Those of a signal.
    fn of_signal(&self) -> &SignalNames
        requires { is_some self.now.signal ≡ true }
        ensures { Some result.now ≡ self.now.signal }
    {
        match &self.signal {
            Some(names) => names,
            None => unreachable!(),
        }
    }

    /// What is seen of a reply or an error with these names: for whom it is, and its arguments.
    fn facts_of_answer<'a>(&'a self, kind: MessageKind, arguments: &'a [Argument<'a>]) -> Facts<'a>
        ensures { result ≡ record {
          kind = kind;
          auto_start = true;
          sender = bus_number;
          path = None;
          interface = None;
          member = None;
          destination = self.now.caller;
          arguments = map argument_of arguments.now;
        } }
    {
        Facts {
            kind,
            auto_start: true,
            sender: 0,
            path: None,
            interface: None,
            member: None,
            destination: lent(&self.caller),
            arguments,
        }
    }
}

/// The one string of an answer, which lies in its bytes.
fn text_in(answer: &AnswerBody) -> Argument<'_>
    requires { kind_of answer.now ≡ of_kind.String }
    ensures { argument_of result ≡ as_argument (value_argument (answer_value answer.now)) }
{
    let types = Types { text: b"s" };
    let mut arguments = Arguments::new(Order::Little, 0, types, answer.bytes());
    match arguments.next() {
        Some(BodyArgument::String(text)) => Argument::String(text),
        Some(BodyArgument::ObjectPath(text)) => Argument::ObjectPath(text),
        Some(BodyArgument::Other) => Argument::Other,
        None => Argument::Other,
    }
}

/// An answer as an argument.
fn answered(answer: &AnswerBody) -> Argument<'_>
    ensures { argument_of result ≡ as_argument (value_argument (answer_value answer.now)) }
{
    match answer.kind() {
        BodyKind::String => text_in(answer),
        BodyKind::Boolean | BodyKind::Strings => Argument::Other,
    }
}

/// The number of the connection whose unique name a reply carries.
fn number_in(body: &ReplyBody<AnswerBody>) -> Option<u64>
    ensures { result ≡ number_in (carried_of body.now) }
{
    match body {
        ReplyBody::UniqueName(number) => Some(*number),
        ReplyBody::Empty | ReplyBody::Number(_) | ReplyBody::Answer(_) => None,
    }
}

/// Puts what a reply carries.
fn put_carried<'a>(
    body: &'a ReplyBody<AnswerBody>,
    name: &'a Option<ConnectionName>,
    arguments: &mut OwnArguments<'a>,
)
    requires name { name.now ≡ option_map unique_text (number_in (carried_of body.now)) }
    requires none { map argument_of arguments.old.items ≡ [] }
    ensures { map argument_of arguments.new.items
        ≡ map as_argument (value_arguments (carried_values (carried_of body.now))) }
{
    match body {
        ReplyBody::Empty => {}
        ReplyBody::Number(_) => arguments.push(Argument::Other),
        ReplyBody::UniqueName(_) => arguments.push(name_argument(name)),
        ReplyBody::Answer(answer) => arguments.push(answered(answer)),
    }
}

/// Puts what a signal has, in the place of what was there.
fn put_signal<'a>(
    signal: &'a BusSignal,
    names: &'a BusMessageNames,
    arguments: &mut OwnArguments<'a>,
)
    requires { names.now ≡ names_of (Signals signal.now) }
    ensures { map argument_of arguments.new.items
        ≡ (facts_of (signal_message 1 signal.now)).arguments }
{
    *arguments = names.of_signal().arguments(signal);
}

impl BusMessage {
    /// The unique names in the message. It takes no memory.
    pub fn names(&self) -> BusMessageNames
        ensures { result ≡ names_of (own_of self.now) }
    {
        match self {
            BusMessage::Signal(signal) => BusMessageNames {
                signal: Some(SignalNames::of(signal.get())),
                caller: None,
                carried: None,
            },
            BusMessage::Reply { to, body } => BusMessageNames {
                signal: None,
                caller: name_of(to.caller()),
                carried: name_of(number_in(body)),
            },
            BusMessage::Error { to, error: _ } => BusMessageNames {
                signal: None,
                caller: name_of(to.caller()),
                carried: None,
            },
        }
    }

    /// The arguments of the message, lent out of it and its names.
    #[inline(never)]
    pub fn arguments<'a>(&'a self, names: &'a BusMessageNames) -> OwnArguments<'a>
        requires { names.now ≡ names_of (own_of self.now) }
        ensures { map argument_of result.items
            ≡ (facts_of (bus_message 1 (own_of self.now))).arguments }
    {
        let mut arguments = OwnArguments::new();
        match self {
            BusMessage::Signal(signal) => put_signal(signal.get(), names, &mut arguments),
            BusMessage::Reply { to: _, body } => put_carried(body, &names.carried, &mut arguments),
            BusMessage::Error { to: _, error } => {
                arguments.push(Argument::String(error_text(*error)))
            }
        }
        arguments
    }

    /// What match rules and routing look at in the message ("Match Rules" of the D-Bus
    /// Specification), with these arguments of it. The message is not written for that, and it
    /// takes no memory.
    pub fn facts<'a>(
        &'a self,
        names: &'a BusMessageNames,
        arguments: &'a [Argument<'a>],
    ) -> Facts<'a>
        requires { names.now ≡ names_of (own_of self.now) }
        ensures { result ≡ record (facts_of (bus_message 1 (own_of self.now))) {
          arguments = map argument_of arguments.now;
        } }
    {
        match self {
            BusMessage::Signal(signal) => names.of_signal().facts(signal.get(), arguments),
            BusMessage::Reply { .. } => {
                names.facts_of_answer(MessageKind::MethodReturn, arguments)
            }
            BusMessage::Error { .. } => names.facts_of_answer(MessageKind::Error, arguments),
        }
    }
}
