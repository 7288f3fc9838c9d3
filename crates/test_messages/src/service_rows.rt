//! Rows of services: what their files say, and what is done about their programs.

use crate::{service_examples, service_file_rows, service_run, supervisor_rows};
use std::alloc::{AllocError, Global};
use supervisor::Supervisor;
use test_support::Row;

/// What rows of services are asked of.
#[derive(Drop)]
pub struct Services {
    /// The bytes of the last row `file`.
    file: Vec<u8>,
    /// Begun anew by each row `supervisor`.
    supervisor: Supervisor,
}

impl Services {
    pub fn new(alloc: Global) -> Services {
        Services {
            file: Vec::new(alloc),
            supervisor: Supervisor::new(alloc),
        }
    }

    /// What a row of services is answered; none where it is another.
    pub fn answer(&mut self, alloc: Global, row: &Row<'_>) -> Result<Option<String>, AllocError> {
        let told = match row.text(0) {
            "file" => {
                self.file = row.bytes(alloc, 1)?;
                service_file_rows::told(alloc, &self.file)?
            }
            "beginnings" | "left-out" | "doubled" | "cut" | "first" | "length" => {
                service_file_rows::changed(alloc, row, &self.file)?
            }
            "supervisor" => {
                self.supervisor = Supervisor::new(alloc);
                supervisor_rows::event(alloc, row, &mut self.supervisor)?
            }
            "asked" | "ran" | "not-run" | "exited" | "killed" | "tick" => {
                supervisor_rows::event(alloc, row, &mut self.supervisor)?
            }
            "due" => supervisor_rows::due(alloc, &self.supervisor)?,
            "example" => service_examples::example(alloc, row.text(1))?,
            "refused" => service_run::refused(alloc)?,
            _ => return Ok(None),
        };
        Ok(Some(told))
    }
}
