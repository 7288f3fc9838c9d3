//! What the programs that measure the crates of the bus have in common.
//!
//! What is done once is a [`Work`]; what it finds is folded into a checksum, so that nothing is
//! left out and two programs can be compared. A [`Report`] tells of works: without options their
//! checksums, of as many rounds as `--rounds` says; with `--time` what one turn takes, and with
//! `--plain FILE` the ratio to the times in that file, which the same works in plain Rust have
//! written.
//!
//! ```
//! use bench_core::Work;
//!
//! /// Sums up so many bytes.
//! #[derive(Drop)]
//! struct Sums {
//!     bytes: Vec<u8>,
//! }
//!
//! impl Work for Sums {
//!     fn name(&self) -> &'static str {
//!         "the sum of some bytes"
//!     }
//!
//!     fn once(&mut self, round: u64) -> u64 {
//!         self.bytes
//!             .iter()
//!             .fold(round, |sum, byte| sum.wrapping_add(u64::from(*byte)))
//!     }
//! }
//! ```
#![tactic(auto)]

mod plain_times;
mod program;
mod report;
mod work;

pub use plain_times::PlainTimes;
pub use program::{Opening, close, open};
pub use report::Report;
pub use work::{Work, checksum};
