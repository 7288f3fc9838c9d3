//! The signals of a change. (D-Bus Specification: "Message Bus Messages")

ghost use Rattle.std.specs.Prelude.{◌≡◌, ◌≤◌, ◌++◌, ◌∷◌, ◌==◌, [], Some, filter, length, map, not, IfOk, OnOk};
ghost use Rattle.std.specs.List.{list_any};
ghost use Rattle.seq_bus_core.specs.Recipients.{addressed_to, all_that_want, conn_at};
ghost use Rattle.seq_bus_core.specs.Steps.{acquired, addressed, facts_of, is_among, is_owner, lost, owner_signals, recipients_of};
ghost use Rattle.seq_bus_core.specs.declared.signal.BusSignal.TheVariants.{NameOwnerChanged};

use crate::audience::Audience;
use crate::facts::SignalNames;
use crate::judging::add_conn;
use match_rules::Facts;
use names::BusName;
use seq_bus_core::{
    AddressedSignal, BusSignal, Conn, Listeners, Recipients, SharedSignal, Signals,
};
use std::alloc::{AllocError, Global};

/// A signal of the bus with those who get it, in the state that the audience is. A monitor that it
/// goes to is not shown it once more. It takes memory.
pub fn address<A: Audience>(
    audience: &A,
    alloc: Global,
    signal: BusSignal,
    count: &mut A::Count,
) -> Result<AddressedSignal, AllocError>
    ensures { IfOk result (λ told. told ≡ addressed (A.state audience.now) signal) }
{
    address_shared(audience, alloc, SharedSignal::new(alloc, signal)?, count)
}

/// The same of a signal that is shared already: it is large, and is not moved.
fn address_shared<A: Audience>(
    audience: &A,
    alloc: Global,
    signal: SharedSignal,
    count: &mut A::Count,
) -> Result<AddressedSignal, AllocError>
    ensures { IfOk result (λ told. told ≡ addressed (A.state audience.now) signal) }
{
    if audience.has_monitors() {
        return address_watched(audience, alloc, signal, count);
    }
    match signal.get() {
        BusSignal::NameOwnerChanged { .. } => address_any(audience, alloc, signal, count),
        BusSignal::NameLost { owner, .. } => address_one(audience, alloc, *owner, signal),
        BusSignal::NameAcquired { owner, .. } => address_one(audience, alloc, *owner, signal),
    }
}

/// A signal that goes to these connections, and is shown to these monitors.
fn addressed_to(
    alloc: Global,
    signal: SharedSignal,
    to: &[Conn],
    monitors: &[Conn],
) -> Result<AddressedSignal, AllocError>
    ensures { IfOk result (λ told. told ≡ addressed_to signal to.now monitors.now) }
{
    Ok(AddressedSignal {
        signal,
        to: Listeners::of(alloc, to)?,
        monitors: Listeners::of(alloc, monitors)?,
    })
}

/// A signal that goes to the connection of a number, if it is there, and is shown to no monitor.
fn address_one<A: Audience>(
    audience: &A,
    alloc: Global,
    number: u64,
    signal: SharedSignal,
) -> Result<AddressedSignal, AllocError>
    ensures { IfOk result (λ told. told
        ≡ addressed_to signal (conn_at (A.state audience.now) (Some number)) []) }
{
    match audience.conn(number) {
        Some(conn) => addressed_to(alloc, signal, &[conn], &[]),
        None => addressed_to(alloc, signal, &[], &[]),
    }
}

/// A signal that goes to all that want it, and is shown to no monitor. Where there are no rules,
/// nobody is looked for.
fn address_any<A: Audience>(
    audience: &A,
    alloc: Global,
    signal: SharedSignal,
    count: &mut A::Count,
) -> Result<AddressedSignal, AllocError>
    ensures { IfOk result (λ told. told
        ≡ addressed_to signal (all_that_want (A.state audience.now) (facts_of signal)) []) }
{
    if audience.has_rules() {
        address_all(audience, alloc, signal, count)
    } else {
        addressed_to(alloc, signal, &[], &[])
    }
}

/// A signal that goes to all that want it, and is shown to no monitor. Its room for them is large,
/// and is kept out of the way of the others.
#[inline(never)]
fn address_all<A: Audience>(
    audience: &A,
    alloc: Global,
    signal: SharedSignal,
    count: &mut A::Count,
) -> Result<AddressedSignal, AllocError>
    ensures { IfOk result (λ told. told
        ≡ addressed_to signal (all_that_want (A.state audience.now) (facts_of signal)) []) }
{
    let mut to = Recipients::new();
    let names = SignalNames::of(signal.get());
    let arguments = names.arguments(signal.get());
    let facts = names.facts(signal.get(), arguments.as_slice());
    audience.add_wanting(&facts, &mut to, count);
    addressed_to(alloc, signal, to.as_slice(), &[])
}

/// The same as `address`, where monitors may be shown the signal. Its room for them is large, and
/// is kept out of the way of those that nobody watches.
#[inline(never)]
fn address_watched<A: Audience>(
    audience: &A,
    alloc: Global,
    signal: SharedSignal,
    count: &mut A::Count,
) -> Result<AddressedSignal, AllocError>
    ensures { IfOk result (λ told. told ≡ addressed (A.state audience.now) signal) }
{
    let mut to = Recipients::new();
    let names = SignalNames::of(signal.get());
    let arguments = names.arguments(signal.get());
    let facts = names.facts(signal.get(), arguments.as_slice());
    add_recipients(audience, signal.get(), &facts, &mut to, count);
    let mut shown = Recipients::new();
    audience.add_shown(&facts, &mut shown);
    if shown.as_slice().is_empty() {
        return addressed_to(alloc, signal, to.as_slice(), &[]);
    }
    let mut monitors = Recipients::new();
    push_others(shown.as_slice(), to.as_slice(), &mut monitors);
    addressed_to(alloc, signal, to.as_slice(), monitors.as_slice())
}

/// Adds those who get a signal of the bus: whom it concerns, or all that want it.
fn add_recipients<A: Audience>(
    audience: &A,
    signal: &BusSignal,
    facts: &Facts<'_>,
    to: &mut Recipients,
    count: &mut A::Count,
)
    requires facts { facts.now ≡ facts_of signal.now }
    requires empty { to.old ≡ [] }
    ensures { to.new ≡ recipients_of (A.state audience.now) signal.now }
{
    match signal {
        BusSignal::NameOwnerChanged { .. } => audience.add_wanting(facts, to, count),
        BusSignal::NameLost { owner, .. } => add_conn(audience, *owner, to),
        BusSignal::NameAcquired { owner, .. } => add_conn(audience, *owner, to),
    }
}

/// Adds those that are shown a signal and don't get it.
fn push_others(shown: &[Conn], to: &[Conn], others: &mut Recipients)
    requires few { length shown.now ≤ Recipients.MAX }
    requires empty { others.old ≡ [] }
    ensures { others.new ≡ filter (λ m. not (is_among to.now m)) shown.now }
{
    for conn in shown {
        if !is_among(to, conn.number) {
            others.push(*conn);
        }
    }
}

fn is_among(conns: &[Conn], number: u64) -> bool
    ensures { result ≡ list_any (λ c. c.number == number) conns.now }
{
    conns.iter().any(|conn| conn.number == number)
}

/// Adds a signal with those who get it. Where memory is refused, the signals are those of before.
pub fn push<A: Audience>(
    audience: &A,
    alloc: Global,
    signals: &mut Signals,
    signal: BusSignal,
    count: &mut A::Count,
) -> Result<(), AllocError>
    ensures { OnOk result
        (signals.new ≡ signals.old ++ addressed (A.state audience.now) signal ∷ []) }
{
    signals.push(address(audience, alloc, signal, count)?)
}

/// Tells the owner of a name, if it had one, that it has lost it.
fn push_lost<A: Audience>(
    audience: &A,
    alloc: Global,
    signals: &mut Signals,
    name: &BusName,
    owner: Option<u64>,
    count: &mut A::Count,
) -> Result<(), AllocError>
    ensures { OnOk result (signals.new
        ≡ signals.old ++ map (addressed (A.state audience.now)) (lost name.now owner)) }
{
    match owner {
        Some(owner) => {
            let signal = BusSignal::NameLost { name: *name, owner };
            push(audience, alloc, signals, signal, count)
        }
        None => Ok(()),
    }
}

/// Tells the owner of a name, if it has one, that it has it.
fn push_acquired<A: Audience>(
    audience: &A,
    alloc: Global,
    signals: &mut Signals,
    name: &BusName,
    owner: Option<u64>,
    count: &mut A::Count,
) -> Result<(), AllocError>
    ensures { OnOk result (signals.new
        ≡ signals.old ++ map (addressed (A.state audience.now)) (acquired name.now owner)) }
{
    match owner {
        Some(owner) => {
            let signal = BusSignal::NameAcquired { name: *name, owner };
            push(audience, alloc, signals, signal, count)
        }
        None => Ok(()),
    }
}

/// Adds the signals of a name that goes from one owner to another: none where that is the same.
pub fn push_owner_signals<A: Audience>(
    audience: &A,
    alloc: Global,
    signals: &mut Signals,
    name: &BusName,
    old_owner: Option<u64>,
    new_owner: Option<u64>,
    count: &mut A::Count,
) -> Result<(), AllocError>
    ensures { OnOk result (signals.new ≡ signals.old
        ++ map (addressed (A.state audience.now)) (owner_signals name.now old_owner new_owner)) }
{
    if is_owner(old_owner, new_owner) {
        return Ok(());
    }
    push_lost(audience, alloc, signals, name, old_owner, count)?;
    let signal = BusSignal::NameOwnerChanged {
        name: *name,
        old_owner,
        new_owner,
    };
    push(audience, alloc, signals, signal, count)?;
    push_acquired(audience, alloc, signals, name, new_owner, count)
}

/// Adds the signals of a name whose owner has left: who left is told nothing.
pub fn push_left_name<A: Audience>(
    audience: &A,
    alloc: Global,
    signals: &mut Signals,
    name: &BusName,
    leaver: u64,
    new_owner: Option<u64>,
    count: &mut A::Count,
) -> Result<(), AllocError>
    ensures { OnOk result (signals.new ≡ signals.old
        ++ map (addressed (A.state audience.now))
        (NameOwnerChanged name.now (Some leaver) new_owner ∷ acquired name.now new_owner)) }
{
    let signal = BusSignal::NameOwnerChanged {
        name: *name,
        old_owner: Some(leaver),
        new_owner,
    };
    push(audience, alloc, signals, signal, count)?;
    push_acquired(audience, alloc, signals, name, new_owner, count)
}

/// Whether two owners of a name are one.
pub fn is_owner(old_owner: Option<u64>, new_owner: Option<u64>) -> bool
    ensures { result ≡ is_owner old_owner new_owner }
{
    match old_owner {
        Some(old_owner) => match new_owner {
            Some(new_owner) => old_owner == new_owner,
            None => false,
        },
        None => new_owner.is_none(),
    }
}
