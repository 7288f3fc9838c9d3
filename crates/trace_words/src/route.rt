//! A message that was routed.

ghost use Rattle.std.specs.Prelude.{◌≤◌, length};
ghost use Rattle.match_rules.specs.Keys.{max_arguments};

use crate::kept::KeptArgument;
use match_rules::MessageKind;

/// A message that was routed, by what match rules and the choice of recipients look at.
#[derive(Debug, Drop)]
pub struct Route<'a> {
    pub kind: MessageKind,
    /// Whether the message may start a service: the flag NO_AUTO_START is not set.
    pub auto_start: bool,
    /// The number of the sender's connection, 0 for the bus.
    pub sender: u64,
    pub path: Option<&'a str>,
    pub interface: Option<&'a str>,
    pub member: Option<&'a str>,
    pub destination: Option<&'a str>,
    /// The first arguments, those that match rules can look at.
    pub arguments: Vec<KeptArgument>,
    ghost few: { length arguments.items ≤ max_arguments },
}
