//! Traces of a bus: what they say, which of them are legal, and their check.
//!
//! A trace is a file with a line for each change, query and route of a bus. `specs/Traces.antt`
//! says how it reads, `specs/Legality.antt` which traces one history explains, and
//! `specs/Verdicts.antt` the verdict that follows: of the causes in their order the first that has
//! a line, with its least line.
//!
//! [`check`] reads a file as a trace and steps one bus through its changes in order of place. It
//! gives the verdict: yes exactly where one history explains all that the file records.
//!
//! ```
//! use std::alloc::{AllocError, Global};
//! use trace_check_core::{Verdict, check};
//!
//! fn is_legal(alloc: Global, file: &[u8]) -> Result<bool, AllocError> {
//!     Ok(matches!(check(alloc, file)?, Verdict::Yes { .. }))
//! }
//! ```
//!
//! [`Trace::read`] reads a file. [`Trace::out_of_order`] and [`Trace::places`] look for lines that
//! stand wrong, which needs no bus. What the lines record is compared place by place ([`PlaceLines`]).
//!
//! ```
//! use std::alloc::{AllocError, Global};
//! use trace_check_core::{Cause, Trace, Verdict};
//!
//! /// What is wrong with a trace, as far as that needs no bus.
//! fn fault_of(alloc: Global, file: &[u8]) -> Result<Option<Verdict>, AllocError> {
//!     let (line, cause) = match Trace::read(alloc, file)? {
//!         Err(line) => (line, Cause::Form),
//!         Ok(trace) => match trace.out_of_order() {
//!             Some(line) => (line, Cause::Order),
//!             None => match trace.places(alloc)? {
//!                 Err(line) => (line, Cause::Place),
//!                 Ok(_places) => return Ok(None),
//!             },
//!         },
//!     };
//!     Ok(Some(Verdict::No { line, cause }))
//! }
//! ```
#![tactic(auto)]

mod answers;
mod checking;
mod file_lines;
mod kept_line;
pub mod laws;
mod places;
mod reading;
mod seats;
mod stepping;
mod telling;
mod trace;
mod verdict;
mod walk;

pub use checking::check;
pub use kept_line::KeptLine;
pub use places::{NumberedLine, PlaceLines};
pub use telling::told_at;
pub use trace::Trace;
pub use verdict::{Cause, Verdict};
