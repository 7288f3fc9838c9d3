//! The parts of a message that match rules and the choice of recipients look at.

use crate::MessageKind;
use std::marker::Model;

/// An argument of a message, as match rules see it.
#[derive(Clone, Copy, Debug, Default)]
pub enum Argument<'a> {
    String(&'a str),
    ObjectPath(&'a str),
    /// An argument of another type.
    #[default]
    Other,
}

/// The parts of a message that match rules and the choice of recipients look at, lent out of it.
/// (D-Bus Specification: "Header Fields", "Match Rules".)
#[derive(Drop)]
pub struct Facts<'a> {
    pub kind: MessageKind,
    /// Whether the message may start a service: the flag NO_AUTO_START is not set.
    pub auto_start: bool,
    /// The number of the sender's connection, 0 for the bus.
    pub sender: u64,
    pub path: Option<&'a str>,
    pub interface: Option<&'a str>,
    pub member: Option<&'a str>,
    pub destination: Option<&'a str>,
    /// The first 64 arguments.
    pub arguments: &'a [Argument<'a>],
}

impl<'a> Model for Facts<'a> {
    ghost use Rattle.std.specs.Prelude.{option_map, map};
    ghost use Rattle.match_rules.specs.Facts.{Facts as Parts};
    ghost use Rattle.match_rules.specs.FactsView.{argument_of};

    ghost Value = { Parts };

    ghost view = { λ facts. record {
      kind = facts.kind;
      auto_start = facts.auto_start;
      sender = facts.sender;
      path = option_map (λ t. t.now) facts.path;
      interface = option_map (λ t. t.now) facts.interface;
      member = option_map (λ t. t.now) facts.member;
      destination = option_map (λ t. t.now) facts.destination;
      arguments = map argument_of facts.arguments.now;
    } };
}
