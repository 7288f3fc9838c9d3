//! Lists of names, as they are answered to queries.

ghost use Rattle.std.specs.Prelude.{◌≡◌, ◌≤◌, ◌++◌, ℕ, List, [], Some, length, take, flat_map};
ghost use Rattle.std.specs.Prelude.{IfOk, IfErr, OnOk, OnErr};
ghost use Rattle.names.specs.Texts.{Text};
ghost use Rattle.seq_bus_core.specs.Answers.{NameList};
ghost use Rattle.bus_view.specs.Bodies.{Answers, AreListed};
ghost use Rattle.bus_view.specs.declared.answer.AskFault.TheVariants.{NoMemory};
ghost use Rattle.registry.specs.NamesListed.{only, names_in};

use crate::registry::Registry;
use bus_view::{AskFault, Asked, begin_names, end_names, push_connection, push_name, undo_names};
use names::{BusName, ConnectionName, WellKnown};
use owner_queues::QueuedOwner;
use registry_core::{ConnectionEntry, NameEntry};
use std::alloc::AllocError;

/// What may stand in a list of names.
trait Listed {
    ghost use Rattle.std.specs.Prelude.{◌≡◌, ◌≤◌, ◌++◌, ℕ, List, Option, OnOk, length, take};
    ghost use Rattle.names.specs.Texts.{Text as Name};
    ghost use Rattle.bus_view.specs.Bodies.{AreListed};
    ghost use Rattle.registry.specs.NamesListed.{only};

    /// Its name there, if it has one.
    ghost text: { Self → Option Name };

    /// Writes its name into an array that begins at this place of the body, if it has one.
    fn push_name(&self, body: &mut Vec<u8>, start: usize) -> Result<(), AllocError>
        requires { start ≤ length body.old.items }
        ensures listed { OnOk result ((before : List ℕ) (names : List Name) →
            length before ≡ start → AreListed before names body.old.items →
            AreListed before (names ++ only (text self.now)) body.new.items) }
        ensures within { start ≤ length body.new.items }
        ensures kept { take start body.new.items ≡ take start body.old.items };
}

/// A connection stands there by its unique name, unless it is a monitor.
impl Listed for ConnectionEntry {
    ghost use Rattle.std.specs.Prelude.{Some, None, if◌then◌else◌};
    ghost use Rattle.names.specs.UniqueName.{unique_text};

    ghost text = { λ m. if m.is_monitor then None else Some (unique_text m.conn.number) };

    fn push_name(&self, body: &mut Vec<u8>, start: usize) -> Result<(), AllocError> {
        if self.is_monitor {
            return Ok(());
        }
        push_connection(body, start, &ConnectionName::of(self.conn.number))
    }
}

impl Listed for QueuedOwner {
    ghost use Rattle.std.specs.Prelude.{Some};
    ghost use Rattle.names.specs.UniqueName.{unique_text};

    ghost text = { λ q. Some (unique_text q.connection) };

    fn push_name(&self, body: &mut Vec<u8>, start: usize) -> Result<(), AllocError> {
        push_connection(body, start, &ConnectionName::of(self.connection))
    }
}

impl Listed for Box<NameEntry> {
    ghost use Rattle.std.specs.Prelude.{Some};

    ghost text = { λ b. Some b.value.name };

    fn push_name(&self, body: &mut Vec<u8>, start: usize) -> Result<(), AllocError> {
        push_name(body, start, &self.name)
    }
}

impl Listed for WellKnown {
    ghost use Rattle.std.specs.Prelude.{Some};

    ghost text = { λ service. Some service };

    fn push_name(&self, body: &mut Vec<u8>, start: usize) -> Result<(), AllocError> {
        push_name(body, start, &BusName::from(*self))
    }
}

/// Which names are listed.
#[derive(Drop)]
pub enum NamesOf {
    /// The bus, the connections that are no monitors, and the names that have an owner.
    All,
    /// The bus and the services.
    Services,
    /// The bus alone.
    Bus,
    /// A client alone, by its number.
    Client(u64),
    /// The connections in the queue of a name, by their unique names.
    Queued(BusName),
}

impl Registry {
    /// Appends a list of names, which is the whole body.
    pub(crate) fn append_list(&self, list: &NamesOf, body: &mut Vec<u8>) -> Result<Asked, AskFault>
        ensures answered { IfOk result (λ asked.
            Answers asked (Some (NameList (names_in self.now list.now)))
            body.old.items body.new.items) }
        ensures fault { IfErr result (λ fault. fault ≡ NoMemory) }
        ensures unanswered { OnErr result (body.new.items ≡ body.old.items) }
    {
        let _ = &self.connections;
        let start = begin_names(body)?;
        match self.push_list(list, body, start) {
            Ok(()) => Ok(end_names(body, start)),
            Err(_) => Err(undo_names(body, start)),
        }
    }

    /// Writes the names of a list into an array that begins at this place of the body.
    fn push_list(&self, list: &NamesOf, body: &mut Vec<u8>, start: usize) -> Result<(), AllocError>
        requires { start ≤ length body.old.items }
        ensures listed { OnOk result ((before : List ℕ) → length before ≡ start →
            AreListed before [] body.old.items →
            AreListed before (names_in self.now list.now) body.new.items) }
        ensures within { start ≤ length body.new.items }
        ensures kept { take start body.new.items ≡ take start body.old.items }
    {
        match list {
            NamesOf::All => {
                push_name(body, start, &BusName::bus())?;
                push_all(body, start, self.connections.as_slice())?;
                push_all(body, start, self.names.as_slice())
            }
            NamesOf::Services => {
                push_name(body, start, &BusName::bus())?;
                push_all(body, start, self.services.as_slice())
            }
            NamesOf::Bus => push_name(body, start, &BusName::bus()),
            NamesOf::Client(number) => {
                push_connection(body, start, &ConnectionName::of(*number))
            }
            NamesOf::Queued(name) => push_all(body, start, self.queue(name.as_str())),
        }
    }
}

/// Writes the names of these into an array that begins at this place of the body.
fn push_all<T: Listed>(body: &mut Vec<u8>, start: usize, entries: &[T]) -> Result<(), AllocError>
    requires { start ≤ length body.old.items }
    ensures listed { OnOk result ((before : List ℕ) (names : List Text) →
        length before ≡ start → AreListed before names body.old.items →
        AreListed before (names ++ flat_map (λ entry. only (T.text entry)) entries.now)
        body.new.items) }
    ensures within { start ≤ length body.new.items }
    ensures kept { take start body.new.items ≡ take start body.old.items }
{
    for entry in entries {
        entry.push_name(body, start)?;
    }
    Ok(())
}
