//! What stands in a list of a line.

ghost use Rattle.std.specs.Prelude.{◌≡◌, ◌++◌, OnOk};
ghost use Rattle.trace_lines.specs.Texts.{bus_signal_text, listed, number_or_dash, separated};

use crate::draft::Draft;
use match_rules::{Argument, Rule};
use seq_bus_core::{AddressedSignal, BusSignal, Conn, Fate, SettledNumber, SettledTicket};
use std::alloc::AllocError;

/// What may stand in a list of a line.
pub(crate) trait ListItem {
    ghost use Rattle.names.specs.Texts.{Text as Words};

    /// What is written for it.
    ghost text: { Self → Words };

    fn write(&self, draft: &mut Draft) -> Result<(), AllocError>
        ensures { OnOk result (draft.new ≡ draft.old ++ text self.now) };
}

/// Writes items with a separator between each two.
pub(crate) fn write_separated<T: ListItem>(
    draft: &mut Draft,
    separator: &str,
    items: &[T],
) -> Result<(), AllocError>
    ensures { OnOk result (draft.new ≡ draft.old ++ separated separator.now T.text items.now) }
{
    let Some((first, others)) = items.split_first() else {
        return Ok(());
    };
    first.write(draft)?;
    for other in others {
        draft.push(separator)?;
        other.write(draft)?;
    }
    Ok(())
}

/// Writes a list, or a dash where it is empty.
pub(crate) fn write_list<T: ListItem>(
    draft: &mut Draft,
    separator: &str,
    items: &[T],
) -> Result<(), AllocError>
    ensures { OnOk result (draft.new ≡ draft.old ++ listed separator.now T.text items.now) }
{
    if items.is_empty() {
        return draft.push("-");
    }
    write_separated(draft, separator, items)
}

impl ListItem for Conn {
    ghost use Rattle.trace_lines.specs.Texts.{conn_text};

    ghost text = { conn_text };

    fn write(&self, draft: &mut Draft) -> Result<(), AllocError> {
        draft.push_number(self.number)
    }
}

impl ListItem for SettledNumber {
    ghost use Rattle.trace_lines.specs.Texts.{ticket_text};

    ghost text = { ticket_text };

    fn write(&self, draft: &mut Draft) -> Result<(), AllocError> {
        match self.fate {
            Fate::Served => draft.push("+")?,
            Fate::Failed => draft.push("!")?,
        }
        draft.push_number(self.number)
    }
}

impl ListItem for SettledTicket {
    ghost use Rattle.trace_lines.specs.TextViews.{settled_ticket_text};

    ghost text = { settled_ticket_text };

    fn write(&self, draft: &mut Draft) -> Result<(), AllocError> {
        let number = SettledNumber {
            fate: self.fate,
            number: self.ticket.number,
        };
        number.write(draft)
    }
}

impl ListItem for AddressedSignal {
    ghost use Rattle.trace_lines.specs.Texts.{signal_text};

    ghost text = { signal_text };

    fn write(&self, draft: &mut Draft) -> Result<(), AllocError> {
        write_signal(draft, self.signal.get())?;
        draft.push("/")?;
        write_list(draft, "+", self.to.as_slice())?;
        draft.push("/")?;
        write_list(draft, "+", self.monitors.as_slice())
    }
}

impl ListItem for Rule {
    ghost use Rattle.trace_lines.specs.Texts.{rule_word};

    ghost text = { rule_word };

    fn write(&self, draft: &mut Draft) -> Result<(), AllocError> {
        let text = self.to_string(draft.alloc())?;
        draft.push_hex(text.as_str())
    }
}

impl ListItem for Argument<'_> {
    ghost use Rattle.trace_lines.specs.TextViews.{lent_argument_text};

    ghost text = { lent_argument_text };

    fn write(&self, draft: &mut Draft) -> Result<(), AllocError> {
        match self {
            Argument::String(text) => {
                draft.push("s")?;
                draft.push_hex(text)
            }
            Argument::ObjectPath(text) => {
                draft.push("o")?;
                draft.push_hex(text)
            }
            Argument::Other => draft.push("-"),
        }
    }
}

impl ListItem for &str {
    ghost use Rattle.trace_lines.specs.TextViews.{lent_text};

    ghost text = { lent_text };

    fn write(&self, draft: &mut Draft) -> Result<(), AllocError> {
        draft.push(self)
    }
}

fn write_signal(draft: &mut Draft, signal: &BusSignal) -> Result<(), AllocError>
    ensures { OnOk result (draft.new ≡ draft.old ++ bus_signal_text signal.now) }
{
    match signal {
        BusSignal::NameOwnerChanged {
            name,
            old_owner,
            new_owner,
        } => {
            draft.push("noc/")?;
            draft.push(name.as_str())?;
            draft.push("/")?;
            write_number(draft, *old_owner)?;
            draft.push("/")?;
            write_number(draft, *new_owner)
        }
        BusSignal::NameLost { name, .. } => {
            draft.push("lost/")?;
            draft.push(name.as_str())
        }
        BusSignal::NameAcquired { name, .. } => {
            draft.push("acq/")?;
            draft.push(name.as_str())
        }
    }
}

/// Writes a number, or a dash for none.
pub(crate) fn write_number(draft: &mut Draft, number: Option<u64>) -> Result<(), AllocError>
    ensures { OnOk result (draft.new ≡ draft.old ++ number_or_dash number) }
{
    match number {
        Some(number) => draft.push_number(number),
        None => draft.push("-"),
    }
}
