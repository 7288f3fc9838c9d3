//! Lines of changes that are made at once.

use seq_bus_core::Change;
use std::alloc::{AllocError, Global};
use trace_lines::{Line, Subject, read_line};

/// Changes of one seat that are made at once.
#[derive(Drop)]
pub struct Batch {
    /// The place of the first.
    pub place: u64,
    pub seat: u64,
    /// The number of the first among the changes of the seat.
    pub number: u64,
    pub changes: Vec<Change>,
}

impl Batch {
    /// The changes of lines with ` ; ` between them, as those of the seat of the first; none where
    /// a line is of no change.
    pub fn read(alloc: Global, routers: u8, lines: &str) -> Result<Option<Batch>, AllocError> {
        let mut batch = Batch {
            place: 0,
            seat: 0,
            number: 0,
            changes: Vec::new(alloc),
        };
        for text in lines.split(" ; ") {
            let Some(
                Line {
                    place,
                    seat,
                    subject: Subject::Change { number, change },
                    ..
                },
            ) = read_line(alloc, routers, text)?
            else {
                return Ok(None);
            };
            if batch.changes.is_empty() {
                batch.place = place;
                batch.seat = seat;
                batch.number = number;
            }
            batch.changes.push(change)?;
        }
        Ok(Some(batch))
    }
}
