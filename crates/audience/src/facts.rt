//! What match rules see of the signals of the bus.

ghost use Rattle.std.specs.Prelude.{◌≡◌, Some, [], map, option_map, unwrap_or};
ghost use Rattle.names.specs.UniqueName.{unique_text};
ghost use Rattle.match_rules.specs.FactsView.{argument_of};
ghost use Rattle.seq_bus_core.specs.Steps.{facts_of};

use arrayvec::ArrayVec;
use match_rules::{Argument, Facts, MessageKind};
use names::{BUS_NAME, BUS_PATH, ConnectionName};
use seq_bus_core::BusSignal;

/// The arguments of a signal of the bus, of which there are three at most.
pub type SignalArguments<'a> = ArrayVec<Argument<'a>, 3>;

/// The unique names that a signal of the bus speaks of. What match rules see of the signal is lent
/// out of both, so it takes no memory.
#[derive(Clone, Copy, Debug)]
pub struct SignalNames {
    first: Option<ConnectionName>,
    second: Option<ConnectionName>,
}

fn name_of(number: Option<u64>) -> Option<ConnectionName>
    ensures { result ≡ option_map unique_text number }
{
    match number {
        Some(number) => Some(ConnectionName::of(number)),
        None => None,
    }
}

/// A name as a text, which is empty where there is none.
fn text_of(name: &Option<ConnectionName>) -> &str
    ensures { result.now ≡ unwrap_or name.now [] }
{
    match name {
        Some(name) => name.as_str(),
        None => "",
    }
}

impl SignalNames {
    ghost use Rattle.audience.specs.SignalNames.{names_of};

    /// Those of this signal.
    pub fn of(signal: &BusSignal) -> Self
        ensures { result ≡ names_of signal.now }
    {
        match signal {
            BusSignal::NameOwnerChanged {
                old_owner,
                new_owner,
                ..
            } => SignalNames {
                first: name_of(*old_owner),
                second: name_of(*new_owner),
            },
            BusSignal::NameLost { owner, .. } | BusSignal::NameAcquired { owner, .. } => {
                SignalNames {
                    first: name_of(Some(*owner)),
                    second: None,
                }
            }
        }
    }

    /// What match rules see of the signal, with these arguments of it.
    pub fn facts<'a>(&'a self, signal: &'a BusSignal, arguments: &'a [Argument<'a>]) -> Facts<'a>
        requires { self.now ≡ names_of signal.now }
        ensures { result ≡ record (facts_of signal.now) {
          arguments = map argument_of arguments.now;
        } }
    {
        Facts {
            kind: MessageKind::Signal,
            auto_start: true,
            sender: 0,
            path: Some(BUS_PATH),
            interface: Some(BUS_NAME),
            member: Some(member_of(signal)),
            destination: self.destination(signal),
            arguments,
        }
    }

    fn destination(&self, signal: &BusSignal) -> Option<&str>
        requires { self.now ≡ names_of signal.now }
        ensures { option_map (λ t. t.now) result ≡ (facts_of signal.now).destination }
    {
        match signal {
            BusSignal::NameOwnerChanged { .. } => None,
            BusSignal::NameLost { .. } => Some(text_of(&self.first)),
            BusSignal::NameAcquired { .. } => Some(text_of(&self.first)),
        }
    }

    /// The arguments of the signal.
    pub fn arguments<'a>(&'a self, signal: &'a BusSignal) -> SignalArguments<'a>
        requires { self.now ≡ names_of signal.now }
        ensures { map argument_of result.items ≡ (facts_of signal.now).arguments }
    {
        let mut arguments = SignalArguments::new();
        match signal {
            BusSignal::NameOwnerChanged { name, .. } => {
                arguments.push(Argument::String(name.as_str()));
                arguments.push(Argument::String(text_of(&self.first)));
                arguments.push(Argument::String(text_of(&self.second)));
            }
            BusSignal::NameLost { name, .. } => arguments.push(Argument::String(name.as_str())),
            BusSignal::NameAcquired { name, .. } => arguments.push(Argument::String(name.as_str())),
        }
        arguments
    }
}

fn member_of(signal: &BusSignal) -> &'static str
    ensures { Some result.now ≡ (facts_of signal.now).member }
{
    match signal {
        BusSignal::NameOwnerChanged { .. } => "NameOwnerChanged",
        BusSignal::NameLost { .. } => "NameLost",
        BusSignal::NameAcquired { .. } => "NameAcquired",
    }
}
