//! What queries are answered, as a trace has it.

ghost use Rattle.std.specs.Prelude.{◌≡◌, ◌++◌, ◌∷◌, ◌||◌, Some, flat_map, option_map, IfOk, OnOk, string_bytes};
ghost use Rattle.names.specs.BusName.{bus_text, is_bus, is_unique};
ghost use Rattle.seq_bus_core.specs.Answers.{NameList, OneName, answer, names_there, owner_name, queue_names};
ghost use Rattle.trace_check_core.specs.Listings.{behind_comma, client_listed, waiting_listed};
ghost use Rattle.trace_lines.specs.Texts.{answer_text};

use names::{BusName, BusNameKind, UniqueName, WellKnown};
use owner_queues::QueuedOwner;
use registry::Registry;
use registry_core::{ConnectionEntry, NameEntry};
use seq_bus_core::Query;
use std::alloc::{AllocError, Global};

/// What a query is answered.
pub(crate) fn answer_text(
    alloc: Global,
    registry: &Registry,
    query: &Query,
) -> Result<String, AllocError>
    ensures { IfOk result (λ text. string_bytes text
        ≡ answer_text (answer registry.now query.now)) }
{
    match query {
        Query::GetNameOwner(name) => owner_text(alloc, registry, name),
        Query::NameHasOwner(name) => {
            let has = owner_name(registry, name).is_some();
            String::from_str(alloc, if has { "1" } else { "0" })
        }
        Query::ListNames => names_text(alloc, registry),
        Query::ListActivatableNames => services_text(alloc, registry),
        Query::ListQueuedOwners(name) => queue_text(alloc, registry, name),
    }
}

/// The owner of a name by its unique name. The bus and each connection own their names themselves.
fn owner_name(registry: &Registry, name: &BusName) -> Option<BusName>
    ensures { result ≡ owner_name registry.now name.now }
{
    if name.is_bus() {
        return Some(BusName::bus());
    }
    match registry.owner(name) {
        Some(number) => Some(BusName::from(UniqueName::of(number))),
        None => None,
    }
}

fn owner_text(alloc: Global, registry: &Registry, name: &BusName) -> Result<String, AllocError>
    ensures { IfOk result (λ text. string_bytes text
        ≡ answer_text (option_map OneName (owner_name registry.now name.now))) }
{
    match owner_name(registry, name) {
        Some(owner) => String::from_str(alloc, owner.as_str()),
        None => String::from_str(alloc, "none"),
    }
}

fn names_text(alloc: Global, registry: &Registry) -> Result<String, AllocError>
    ensures { IfOk result (λ text. string_bytes text
        ≡ answer_text (Some (NameList (bus_text ∷ names_there registry.now)))) }
{
    let mut text = String::from_str(alloc, BusName::bus().as_str())?;
    push_clients(&mut text, registry.connections())?;
    push_names(&mut text, registry.names())?;
    Ok(text)
}

fn services_text(alloc: Global, registry: &Registry) -> Result<String, AllocError>
    ensures { IfOk result (λ text. string_bytes text
        ≡ answer_text (Some (NameList (bus_text ∷ registry.now.services)))) }
{
    let mut text = String::from_str(alloc, BusName::bus().as_str())?;
    push_services(&mut text, registry.services())?;
    Ok(text)
}

/// The owner of a name and those who wait for it.
fn queue_text(alloc: Global, registry: &Registry, name: &BusName) -> Result<String, AllocError>
    ensures { IfOk result (λ text. string_bytes text
        ≡ answer_text (option_map NameList (queue_names registry.now name.now))) }
{
    if has_no_queue(name) {
        return owner_text(alloc, registry, name);
    }
    let Some((owner, waiting)) = registry.queue(name.as_str()).split_first() else {
        return String::from_str(alloc, "none");
    };
    let mut text = String::from_str(alloc, UniqueName::of(owner.connection).as_str())?;
    push_waiting(&mut text, waiting)?;
    Ok(text)
}

/// Whether a name is the bus's own or a connection's unique name, which nobody waits for.
fn has_no_queue(name: &BusName) -> bool
    ensures { result ≡ (is_bus name.now || is_unique name.now) }
{
    name.is_bus() || name.kind() == BusNameKind::Unique
}

/// Appends a name behind a comma.
fn push_name(text: &mut String, name: &str) -> Result<(), AllocError>
    ensures { OnOk result (string_bytes text.new
        ≡ string_bytes text.old ++ behind_comma name.now) }
{
    text.push_str(",")?;
    text.push_str(name)
}

/// Appends the connections that are no monitors.
fn push_clients(text: &mut String, members: &[ConnectionEntry]) -> Result<(), AllocError>
    ensures { OnOk result (string_bytes text.new
        ≡ string_bytes text.old ++ flat_map client_listed members.now) }
{
    for member in members {
        push_client(text, member)?;
    }
    Ok(())
}

fn push_client(text: &mut String, member: &ConnectionEntry) -> Result<(), AllocError>
    ensures { OnOk result (string_bytes text.new
        ≡ string_bytes text.old ++ client_listed member.now) }
{
    if member.is_monitor {
        return Ok(());
    }
    push_name(text, UniqueName::of(member.conn.number).as_str())
}

/// Appends the names that have an owner.
fn push_names(text: &mut String, names: &[Box<NameEntry>]) -> Result<(), AllocError>
    ensures { OnOk result (string_bytes text.new
        ≡ string_bytes text.old ++ flat_map (λ b. behind_comma b.value.name) names.now) }
{
    for entry in names {
        push_name(text, entry.name.as_str())?;
    }
    Ok(())
}

fn push_services(text: &mut String, services: &[WellKnown]) -> Result<(), AllocError>
    ensures { OnOk result (string_bytes text.new
        ≡ string_bytes text.old ++ flat_map behind_comma services.now) }
{
    for service in services {
        push_name(text, service.as_str())?;
    }
    Ok(())
}

/// Appends those who wait for a name.
fn push_waiting(text: &mut String, waiting: &[QueuedOwner]) -> Result<(), AllocError>
    ensures { OnOk result (string_bytes text.new
        ≡ string_bytes text.old ++ flat_map waiting_listed waiting.now) }
{
    for place in waiting {
        push_name(text, UniqueName::of(place.connection).as_str())?;
    }
    Ok(())
}
