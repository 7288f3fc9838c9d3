//! Calls of the methods of the bus.

ghost use Rattle.std.specs.Prelude.{◌≡◌, ◌⊎◌, ◌≤◌, Some, Err, IfOk, IfErr, length};
ghost use Rattle.marshal_core.specs.Values.{values_of};
ghost use Rattle.message_core.specs.Said.{said};
ghost use Rattle.driver.specs.declared.fault.DriverFault.TheVariants.{NoMemory};
ghost use Rattle.driver.specs.Arguments.{elements_and_number, only_text, text_and_number, texts_of};
ghost use Rattle.driver.specs.Calls.{is_call_to_bus, expects_reply, is_hello, name_in, name_and_number_in, IsRuleOf, AreRulesOfTexts, AreMonitorRulesOf, max_monitor_rules, IsReadBy, IsCallOrWants};

use crate::arguments::{elements_and_number, only_text, text_and_number, text_of};
use crate::fault::DriverFault;
use crate::held_rule::HeldRule;
use crate::method::{Method, method_of};
use marshal_core::Value;
use match_rules::{MessageKind, Rule};
use message_core::{Message, NO_REPLY_EXPECTED};
use names::{BUS_NAME, BusName};
use owner_queues::RequestFlags;
use seq_bus_core::MonitorRules;
use std::alloc::Global;

/// A call of a method of the bus, with its arguments ("Message Bus Messages" of the D-Bus
/// Specification).
#[derive(Drop)]
pub enum Call {
    Hello,
    /// A unique name and the bus's own are read too, and refused by the change.
    RequestName { name: BusName, flags: RequestFlags },
    ReleaseName { name: BusName },
    GetNameOwner { name: BusName },
    NameHasOwner { name: BusName },
    ListNames,
    ListActivatableNames,
    ListQueuedOwners { name: BusName },
    AddMatch { rule: HeldRule },
    RemoveMatch { rule: HeldRule },
    StartServiceByName { name: BusName },
    BecomeMonitor { rules: MonitorRules },
}

/// Whether the message calls a method of the bus itself. A call without a destination does.
pub fn is_call_to_bus(message: &Message) -> bool
    ensures { result ≡ is_call_to_bus (said message.now) }
{
    message.kind() == MessageKind::MethodCall
        && match message.destination() {
            None => true,
            Some(destination) => destination == BUS_NAME,
        }
}

/// Whether the call expects a reply.
pub fn expects_reply(message: &Message) -> bool
    ensures { result ≡ expects_reply (said message.now) }
{
    message.flags() & NO_REPLY_EXPECTED == 0
}

/// Whether the message is the call by which a connection gets its unique name.
pub fn is_hello(message: &Message) -> bool
    ensures { result ≡ is_hello (said message.now) }
{
    is_call_to_bus(message) && method_of(message) == Ok(Method::Hello)
}

/// The bus name that is the one argument.
fn name_in(message: &Message) -> Result<BusName, DriverFault>
    ensures { result ≡ name_in (only_text (said message.now).body) }
{
    let Some(text) = only_text(message) else {
        return Err(DriverFault::InvalidArgs);
    };
    match BusName::parse(text) {
        Ok(name) => Ok(name),
        Err(_) => Err(DriverFault::InvalidArgs),
    }
}

/// The bus name and the number that are the arguments.
fn name_and_number_in(arguments: &[Value]) -> Result<(BusName, u32), DriverFault>
    ensures { result ≡ name_and_number_in (text_and_number (values_of arguments.now)) }
{
    let Some((text, number)) = text_and_number(arguments) else {
        return Err(DriverFault::InvalidArgs);
    };
    match BusName::parse(text) {
        Ok(name) => Ok((name, number)),
        Err(_) => Err(DriverFault::InvalidArgs),
    }
}

fn rule_of(text: &str) -> Result<Rule, DriverFault>
    ensures { IsRuleOf (Some text.now) result }
{
    match Rule::parse(text) {
        Ok(rule) => Ok(rule),
        Err(_) => Err(DriverFault::MatchRuleInvalid),
    }
}

/// The match rule whose text is the one argument.
// A rule is large, and what a function holds is cleared at its entry: whoever reads other calls
// does not hold one.
#[inline(never)]
fn rule_in(alloc: Global, message: &Message) -> Result<HeldRule, DriverFault>
    ensures { IsRuleOf (only_text (said message.now).body) result ⊎ (result ≡ Err NoMemory) }
{
    let Some(text) = only_text(message) else {
        return Err(DriverFault::InvalidArgs);
    };
    match rule_of(text) {
        Ok(rule) => match HeldRule::new(alloc, rule) {
            Ok(rule) => Ok(rule),
            Err(_) => Err(DriverFault::NoMemory),
        },
        Err(fault) => Err(fault),
    }
}

/// The rules of these texts, or the fault of the first that is no rule.
fn rules_of(alloc: Global, texts: &[Value]) -> Result<MonitorRules, DriverFault>
    requires { length texts.now ≤ max_monitor_rules }
    ensures { AreRulesOfTexts (texts_of (values_of texts.now)) result ⊎ (result ≡ Err NoMemory) }
{
    let mut rules = MonitorRules::new(alloc);
    for value in texts {
        let Some(text) = text_of(value) else {
            continue;
        };
        match rule_of(text) {
            Ok(rule) => rules.push(rule)?,
            Err(fault) => return Err(fault),
        }
    }
    Ok(rules)
}

/// The rules of a monitor, of which there are at most 64.
fn monitor_rules_in(alloc: Global, arguments: &[Value]) -> Result<MonitorRules, DriverFault>
    ensures { AreMonitorRulesOf (elements_and_number (values_of arguments.now)) result
        ⊎ (result ≡ Err NoMemory) }
{
    let Some((texts, flags)) = elements_and_number(arguments) else {
        return Err(DriverFault::InvalidArgs);
    };
    if flags != 0 {
        return Err(DriverFault::InvalidArgs);
    }
    if texts.len() > MonitorRules::MAX {
        return Err(DriverFault::LimitsExceeded);
    }
    rules_of(alloc, texts)
}

/// A call of the method with the arguments of this message. A text alone is read where it lies.
fn read_by(alloc: Global, method: Method, message: &Message) -> Result<Call, DriverFault>
    ensures { IsReadBy method (said message.now).body result ⊎ (result ≡ Err NoMemory) }
{
    match method {
        Method::Hello => Ok(Call::Hello),
        Method::RequestName => {
            let arguments = arguments_of(alloc, message)?;
            let (name, bits) = name_and_number_in(&arguments)?;
            let flags = RequestFlags::from_bits(bits);
            Ok(Call::RequestName { name, flags })
        }
        Method::ReleaseName => {
            let name = name_in(message)?;
            Ok(Call::ReleaseName { name })
        }
        Method::GetNameOwner => {
            let name = name_in(message)?;
            Ok(Call::GetNameOwner { name })
        }
        Method::NameHasOwner => {
            let name = name_in(message)?;
            Ok(Call::NameHasOwner { name })
        }
        Method::ListNames => Ok(Call::ListNames),
        Method::ListActivatableNames => Ok(Call::ListActivatableNames),
        Method::ListQueuedOwners => {
            let name = name_in(message)?;
            Ok(Call::ListQueuedOwners { name })
        }
        Method::AddMatch => {
            let rule = rule_in(alloc, message)?;
            Ok(Call::AddMatch { rule })
        }
        Method::RemoveMatch => {
            let rule = rule_in(alloc, message)?;
            Ok(Call::RemoveMatch { rule })
        }
        Method::StartServiceByName => {
            let arguments = arguments_of(alloc, message)?;
            let (name, _) = name_and_number_in(&arguments)?;
            Ok(Call::StartServiceByName { name })
        }
        Method::BecomeMonitor => {
            let arguments = arguments_of(alloc, message)?;
            let rules = monitor_rules_in(alloc, &arguments)?;
            Ok(Call::BecomeMonitor { rules })
        }
    }
}

/// The arguments of a message, as values of their own.
fn arguments_of(alloc: Global, message: &Message) -> Result<Vec<Value>, DriverFault>
    ensures values { IfOk result (λ arguments. values_of arguments.items
        ≡ (said message.now).body) }
    ensures memory { IfErr result (λ fault. fault ≡ NoMemory) }
{
    match message.arguments(alloc) {
        Ok(arguments) => Ok(arguments),
        Err(_) => Err(DriverFault::NoMemory),
    }
}

/// Reads a call to the bus.
///
/// # Errors
///
/// What the call alone shows: `UnknownInterface`, `UnknownMethod`, another signature than the
/// method's, then what its arguments are not: a bus name (`InvalidArgs`), a match rule
/// (`MatchRuleInvalid`). BecomeMonitor looks at its flags first, which must be 0 (`InvalidArgs`),
/// and at the number of its rules (`LimitsExceeded` above 64). `NoMemory` where there is not enough
/// memory to read the arguments.
#[inline(never)]
pub fn read_call(alloc: Global, message: &Message) -> Result<Call, DriverFault>
    ensures { IsCallOrWants (said message.now) result }
{
    let method = method_of(message)?;
    read_by(alloc, method, message)
}
