//! Services.

ghost use Rattle.std.specs.Prelude.{◌≡◌, ◌<◌, Some, IfOk, drop, length, slice_get};
ghost use Rattle.service_files.specs.ServiceFiles.{words_of};
ghost use Rattle.service_files.specs.Words.{words_left};

use crate::Words;
use names::WellKnown;
use std::alloc::{AllocError, Global};
use std::marker::Model;

/// What a service file describes: a well-known name, and the command that starts a program which is
/// to take it.
#[derive(Drop)]
pub struct Service {
    name: WellKnown,
    command: String,
}

impl Model for Service {
    ghost use Rattle.std.specs.Prelude.{◌<◌, length};
    ghost use Rattle.std.specs.String.{string_bytes};
    ghost use Rattle.service_files.specs.ServiceFiles.{Described, words_of};

    ghost Value = { Described };

    ghost view = { λ s. record { name = s.name; words = words_of (string_bytes s.command) } };

    ghost invariant = { λ s. 0 < length (words_of (string_bytes s.command)) };
}

impl Service {
    /// A service of this name, started by this command. It takes memory.
    pub(crate) fn new(alloc: Global, name: WellKnown, command: &str) -> Result<Service, AllocError>
        requires { 0 < length (words_of command.now) }
        ensures { IfOk result (λ service.
            service ≡ record { name = name; words = words_of command.now }) }
    {
        let command = String::from_str(alloc, command)?;
        Ok(Service { name, command })
    }

    /// The name that the program is to take.
    pub fn name(&self) -> &WellKnown
        ensures { result.now ≡ self.now.name }
    {
        &self.name
    }

    /// The words of the command: the program and its arguments.
    pub fn words(&self) -> Words<'_>
        ensures words { words_left result ≡ self.now.words }
        ensures some { 0 < length self.now.words }
    {
        Words::of(self.command.as_str())
    }

    /// The program that is to be run, as the file names it.
    pub fn program(&self) -> &str
        ensures { slice_get self.now.words 0 ≡ Some result.now }
    {
        match self.words().next() {
            Some(program) => program,
            None => unreachable!(),
        }
    }

    /// What the program is passed.
    pub fn arguments(&self) -> Words<'_>
        ensures { words_left result ≡ drop 1 self.now.words }
    {
        let mut words = self.words();
        let _ = words.next();
        words
    }
}
