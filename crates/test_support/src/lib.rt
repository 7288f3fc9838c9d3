//! Samples and small helpers that the tests of several storeys share.
//!
//! ```
//! use std::alloc::{AllocError, Global};
//! use test_support::Row;
//!
//! /// The number in the second column of a row such as `name | 7`.
//! fn second(alloc: Global, row: &str) -> Result<u64, AllocError> {
//!     Ok(Row::new(alloc, row)?.number(1))
//! }
//! ```
#![tactic(auto)]

mod asked;
mod facts;
pub mod messages;
mod once_more;
mod rows;

pub use asked::{Asked, told};
pub use facts::{signal, ticked};
pub use rows::{Escaped, Row, unescaped};
