//! Buckets of rules that ask for the same type, interface, member, first argument and sender.

ghost use Rattle.std.specs.Prelude.{◌≡◌, ◌<◌, ◌==◌, option_map, is_some, slice_get};
ghost use Rattle.match_index.specs.Buckets.{argument_part, asked, bit, bucket_of, code_of, front_part, kind_part, message_parts, mixed, part_if, part_of, rule_parts, sender_class, sender_if, sender_part, shape_of, text_part, value_part};
ghost use Rattle.names.specs.BusName.{is_unique};
ghost use Rattle.names.specs.UniqueName.{unique_text};
ghost use Rattle.match_rules.specs.FactsView.{argument_of};
ghost use Rattle.match_index.specs.Near.{agrees, argument_agrees, is_kind, is_near, is_near_sender, kind_asked};

use match_rules::{Argument, Facts, MessageKind, Rule, is_string_argument, is_text};

/// How many shapes of rules there are: each asks for a type or does not, for an interface, for a
/// member, for a first argument, and for no sender, for a well-known name or the bus, or for a
/// unique name.
pub(crate) const SHAPES: usize = 48;

/// So many bytes of an argument go into its code, at most, since an argument may be very long.
const MAX_CODED: usize = 64;

/// What stands for the well-known names and the bus, which are one class of senders.
const NAMED: u64 = 1;

/// The bucket that a rule is in.
#[derive(Clone, Copy, Drop)]
pub(crate) struct Bucket {
    /// Which parts the rules ask for.
    pub shape: usize,
    /// The code of what they ask for. Rules that ask for other texts may have it too.
    pub code: u64,
}

/// Numbers for the parts that a rule asks for, or that a message has.
#[derive(Clone, Copy, Drop)]
pub(crate) struct Parts {
    kind: u64,
    interface: u64,
    member: u64,
    argument: u64,
    sender: u64,
}

impl Parts {
    /// What a message has whose sender has this unique name.
    pub(crate) fn of(facts: &Facts<'_>, sender: &str) -> Parts
        requires { sender.now ≡ unique_text facts.now.sender }
        ensures { result ≡ message_parts facts.now }
    {
        Parts {
            kind: kind_part(Some(facts.kind)),
            interface: part_of(facts.interface),
            member: part_of(facts.member),
            argument: value_part(first_argument(facts)),
            sender: text_part(sender.as_bytes()),
        }
    }

    /// The code of the rules of a shape that a message with these parts may be for.
    pub(crate) fn code_for(self, shape: usize) -> u64
        ensures { result ≡ code_of (asked shape self) }
    {
        let parts = Parts {
            kind: part_if(shape % 2 == 1, self.kind),
            interface: part_if(shape / 2 % 2 == 1, self.interface),
            member: part_if(shape / 4 % 2 == 1, self.member),
            argument: part_if(shape / 8 % 2 == 1, self.argument),
            sender: sender_if(shape / 16, self.sender),
        };
        parts.code()
    }

    fn code(self) -> u64
        ensures { result ≡ code_of self }
    {
        let code = mixed(mixed(self.kind, self.interface), self.member);
        mixed(mixed(code, self.argument), self.sender)
    }
}

/// The bucket of a rule.
pub(crate) fn bucket_of(rule: &Rule) -> Bucket
    ensures value { result ≡ bucket_of rule.now }
    ensures bound { result.shape < SHAPES }
{
    let parts = Parts {
        kind: kind_part(rule.kind()),
        interface: part_of(rule.interface()),
        member: part_of(rule.member()),
        argument: argument_part(rule.argument0()),
        sender: sender_part(rule.sender()),
    };
    Bucket {
        shape: shape_of(rule),
        code: parts.code(),
    }
}

/// Whether a message may be one that a rule asks for, by its type, interface, member, sender and
/// first argument. The sender has this unique name.
pub(crate) fn is_near(rule: &Rule, facts: &Facts<'_>, sender: &str) -> bool
    requires { sender.now ≡ unique_text facts.now.sender }
    ensures { result ≡ is_near facts.now rule.now }
{
    is_kind(rule.kind(), facts.kind)
        && agrees(rule.interface(), facts.interface)
        && agrees(rule.member(), facts.member)
        && is_near_sender(rule.sender(), sender)
        && argument_agrees(rule.argument0(), facts)
}

fn is_kind(asked: Option<MessageKind>, kind: MessageKind) -> bool
    ensures { result ≡ is_kind asked kind }
{
    match asked {
        Some(asked) => asked.number() == kind.number(),
        None => true,
    }
}

fn agrees(value: Option<&str>, text: Option<&str>) -> bool
    ensures { result ≡ agrees (option_map (λ t. t.now) value.entry) (option_map
        (λ t. t.now) text.entry) }
{
    match value {
        Some(value) => is_text(value.as_bytes(), text),
        None => true,
    }
}

fn first_argument<'a>(facts: &Facts<'a>) -> Option<Argument<'a>>
    ensures { option_map argument_of result ≡ slice_get facts.now.arguments 0 }
{
    facts.arguments.first().copied()
}

fn argument_agrees(value: Option<&[u8]>, facts: &Facts<'_>) -> bool
    ensures { result ≡ argument_agrees (option_map (λ t. t.now) value.entry) facts.now.arguments }
{
    match value {
        Some(value) => is_string_argument(value, first_argument(facts)),
        None => true,
    }
}

fn is_near_sender(name: Option<&str>, sender: &str) -> bool
    ensures { result ≡ is_near_sender (option_map (λ t. t.now) name.entry) sender.now }
{
    match name {
        Some(name) => !is_unique(name) || name.as_bytes() == sender.as_bytes(),
        None => true,
    }
}

fn is_unique(name: &str) -> bool
    ensures { result ≡ is_unique name.now }
{
    match name.as_bytes().first() {
        Some(byte) => *byte == b':',
        None => false,
    }
}

/// Which parts a rule asks for.
fn shape_of(rule: &Rule) -> usize
    ensures value { result ≡ shape_of rule.now }
    ensures bound { result < SHAPES }
{
    bit(rule.kind().is_some())
        + 2 * bit(rule.interface().is_some())
        + 4 * bit(rule.member().is_some())
        + 8 * bit(rule.argument0().is_some())
        + 16 * sender_class(rule.sender())
}

fn bit(is_there: bool) -> usize
    ensures value { result ≡ bit is_there }
    ensures bound { result < 2 }
{
    if is_there { 1 } else { 0 }
}

fn sender_class(name: Option<&str>) -> usize
    ensures value { result ≡ sender_class (option_map (λ t. t.now) name.entry) }
    ensures bound { result < 3 }
{
    match name {
        Some(name) => { if is_unique(name) { 2 } else { 1 } }
        None => 0,
    }
}

fn kind_part(kind: Option<MessageKind>) -> u64
    ensures { result ≡ kind_part kind }
{
    match kind {
        Some(kind) => u64::from(kind.number()) + 1,
        None => 0,
    }
}

fn part_of(text: Option<&str>) -> u64
    ensures { result ≡ part_of (option_map (λ t. t.now) text.entry) }
{
    match text {
        Some(text) => text_part(text.as_bytes()),
        None => 0,
    }
}

fn argument_part(text: Option<&[u8]>) -> u64
    ensures { result ≡ argument_part (option_map (λ t. t.now) text.entry) }
{
    match text {
        Some(text) => front_part(text),
        None => 0,
    }
}

/// What stands for an argument of a message. No rule asks for one that is no string.
fn value_part(argument: Option<Argument<'_>>) -> u64
    ensures { result ≡ value_part (option_map argument_of argument.entry) }
{
    match argument {
        Some(Argument::String(text)) => front_part(text.as_bytes()),
        _ => 0,
    }
}

fn sender_part(name: Option<&str>) -> u64
    ensures { result ≡ sender_part (option_map (λ t. t.now) name.entry) }
{
    match name {
        Some(name) => {
            if is_unique(name) {
                text_part(name.as_bytes())
            } else {
                NAMED
            }
        }
        None => 0,
    }
}

fn part_if(asked: bool, part: u64) -> u64
    ensures { result ≡ part_if asked part }
{
    if asked { part } else { 0 }
}

fn sender_if(class: usize, part: u64) -> u64
    ensures { result ≡ sender_if class part }
{
    if class == 2 { part } else { class as u64 }
}

/// The code of the front of an argument.
#[tactic(auto, using(std::proofs::lemmas::List::take_min))]
fn front_part(text: &[u8]) -> u64
    ensures { result ≡ front_part text.now }
{
    text_part(&text[..MAX_CODED.min(text.len())])
}

fn text_part(text: &[u8]) -> u64
    ensures { result ≡ text_part text.now }
{
    let mut code = 14695981039346656037;
    for byte in text {
        code = mixed(code, u64::from(*byte));
    }
    code
}

/// A number goes into a code.
#[tactic(auto, unfolding(crate::specs::Buckets::mixed))]
fn mixed(code: u64, number: u64) -> u64
    ensures { result ≡ mixed code number }
{
    code.wrapping_mul(1099511628211).wrapping_add(number)
}
