//! A message that was routed, as match rules see it.

ghost use Rattle.std.specs.Prelude.{◌≡◌, ◌≤◌, length, map};
ghost use Rattle.match_rules.specs.FactsView.{argument_of};
ghost use Rattle.match_rules.specs.Keys.{max_arguments};
ghost use Rattle.trace_words.specs.KeptArguments.{kept_argument};
ghost use Rattle.trace_words.specs.RouteViews.{route_facts};

use crate::kept::KeptArgument;
use crate::route::Route;
use arrayvec::ArrayVec;
use match_rules::{Argument, Facts, MAX_ARGUMENTS};

impl KeptArgument {
    /// The argument, lent.
    fn lent(&self) -> Argument<'_>
        ensures { argument_of result ≡ kept_argument self.now }
    {
        match self {
            KeptArgument::String(text) => Argument::String(text.as_str()),
            KeptArgument::ObjectPath(text) => Argument::ObjectPath(text.as_str()),
            KeptArgument::Other => Argument::Other,
        }
    }
}

fn lent_arguments(arguments: &[KeptArgument]) -> ArrayVec<Argument<'_>, MAX_ARGUMENTS>
    requires { length arguments.now ≤ max_arguments }
    ensures { map argument_of result.items ≡ map kept_argument arguments.now }
{
    let mut lent = ArrayVec::new();
    for argument in arguments {
        lent.push(argument.lent());
    }
    lent
}

impl Route<'_> {
    /// The arguments that match rules look at.
    pub fn arguments(&self) -> ArrayVec<Argument<'_>, MAX_ARGUMENTS>
        ensures { map argument_of result.items ≡ (route_facts self.now).arguments }
    {
        lent_arguments(self.arguments.as_slice())
    }

    /// What match rules and the choice of recipients look at, with these arguments.
    pub fn facts<'a>(&'a self, arguments: &'a [Argument<'a>]) -> Facts<'a>
        ensures { result ≡ record (route_facts self.now) {
          arguments = map argument_of arguments.now;
        } }
    {
        Facts {
            kind: self.kind,
            auto_start: self.auto_start,
            sender: self.sender,
            path: self.path,
            interface: self.interface,
            member: self.member,
            destination: self.destination,
            arguments,
        }
    }
}
