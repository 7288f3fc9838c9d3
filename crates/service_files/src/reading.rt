//! What has been read of a service file.

ghost use Rattle.std.specs.Prelude.{◌≡◌, ◌⊎◌, None, Some, Err, MatchOption, MatchResult, false, option_map, true};
ghost use Rattle.service_files.specs.declared.fault.FileFault.TheVariants.{NoMemory};
ghost use Rattle.service_files.specs.ServiceFiles.{below, entry_fault, fault_at, header_fault, is_service_name, nothing_above, service_of, with_entry, with_header};
ghost use Rattle.service_files.specs.Lines.{line_said};

use crate::group_kind::GroupKind;
use crate::line::Line;
use crate::service::Service;
use crate::{FileFault, Words};
use names::{BusName, WellKnown};
use std::alloc::Global;

const NAME: &str = "Name";

const EXEC: &str = "Exec";

/// What the lines above say of the service.
#[derive(Clone, Copy)]
pub(crate) struct Reading<'a> {
    group: GroupKind,
    has_service: bool,
    name: Option<WellKnown>,
    exec: Option<&'a str>,
}

/// Reads the name of a service: a well-known one that is not the bus's.
fn service_name(text: &str) -> Option<WellKnown>
    ensures { MatchOption result (is_service_name text.now ≡ false)
        (λ name. (is_service_name text.now ≡ true) × (name ≡ text.now)) }
{
    let name = WellKnown::parse(text).ok()?;
    if BusName::from(name).is_bus() {
        None
    } else {
        Some(name)
    }
}

impl<'a> Reading<'a> {
    ghost use Rattle.service_files.specs.Readings.{above_of};

    /// Nothing was read.
    pub fn new() -> Reading<'a>
        ensures { above_of result ≡ nothing_above }
    {
        Reading {
            group: GroupKind::BeforeGroups,
            has_service: false,
            name: None,
            exec: None,
        }
    }

    fn open(&mut self, is_service: bool) -> Result<(), FileFault>
        ensures { MatchResult result
            (λ _. (header_fault (above_of self.old) is_service ≡ None)
            × (above_of self.new ≡ with_header (above_of self.old) is_service))
            (λ fault. header_fault (above_of self.old) is_service ≡ Some fault) }
    {
        if is_service && self.has_service {
            return Err(FileFault::Twice);
        }
        if is_service {
            self.group = GroupKind::Service;
            self.has_service = true;
        } else {
            self.group = GroupKind::Elsewhere;
        }
        Ok(())
    }

    /// Takes a key of the service's group.
    fn enter(&mut self, key: &str, value: &'a str) -> Result<(), FileFault>
        ensures { MatchResult result
            (λ _. (entry_fault (above_of self.old) key.now value.now ≡ None)
            × (above_of self.new ≡ with_entry (above_of self.old) key.now value.now))
            (λ fault. entry_fault (above_of self.old) key.now value.now ≡ Some fault) }
    {
        if key == NAME {
            if self.name.is_some() {
                return Err(FileFault::Twice);
            }
            let Some(name) = service_name(value) else {
                return Err(FileFault::Name);
            };
            self.name = Some(name);
        } else if key == EXEC {
            if self.exec.is_some() {
                return Err(FileFault::Twice);
            }
            self.exec = Some(value);
        }
        Ok(())
    }

    /// Takes line `number`, or tells what is wrong with it.
    pub fn take(&mut self, number: usize, line: Option<Line<'a>>) -> Result<(), FileFault>
        ensures { MatchResult result
            (λ _. (fault_at number (above_of self.old) (option_map line_said line.entry) ≡ None)
            × (above_of self.new ≡ below (above_of self.old) (option_map line_said line.entry)))
            (λ fault.
            fault_at number (above_of self.old) (option_map line_said line.entry) ≡ Some fault) }
    {
        match (line, self.group) {
            (None, _) => Err(FileFault::Line(number)),
            (Some(Line::Silent), _) => Ok(()),
            (Some(Line::Header { is_service }), _) => self.open(is_service),
            (Some(Line::Entry { .. }), GroupKind::BeforeGroups) => Err(FileFault::Line(number)),
            (Some(Line::Entry { key, value }), GroupKind::Service) => self.enter(key, value),
            (Some(Line::Entry { .. }), GroupKind::Elsewhere) => Ok(()),
        }
    }

    /// The service that the lines describe.
    pub fn service(self, alloc: Global) -> Result<Service, FileFault>
        ensures { (result ≡ service_of (above_of self.entry)) ⊎ (result ≡ Err NoMemory) }
    {
        if !self.has_service {
            return Err(FileFault::Group);
        }
        let Some(name) = self.name else {
            return Err(FileFault::NameMissing);
        };
        let Some(command) = self.exec else {
            return Err(FileFault::ExecMissing);
        };
        if Words::of(command).next().is_none() {
            return Err(FileFault::ExecMissing);
        }
        Ok(Service::new(alloc, name, command)?)
    }
}
