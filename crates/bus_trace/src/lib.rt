//! A view of a bus that keeps a line of each change, query and route.
//!
//! [`Traced`] is a [`BusView`](bus_view::BusView) over another one. It passes each call on, and
//! keeps the lines of a trace, as `trace_lines` writes them, until they are taken. What each call
//! keeps is said by `specs/Recordings.antt`.
//!
//! ```
//! use bus_trace::Traced;
//! use bus_view::{BusView, Gone};
//! use match_rules::Facts;
//! use std::alloc::Global;
//!
//! fn line_of_a_route<V: BusView + Drop>(
//!     alloc: Global,
//!     view: V,
//!     facts: &Facts<'_>,
//! ) -> Result<Vec<u8>, Gone> {
//!     let mut traced = Traced::new(alloc, view);
//!     traced.route(facts.sender, facts)?;
//!     Ok(traced.take_lines())
//! }
//! ```
#![tactic(auto)]

mod bodies;
mod recorder;
mod traced;
mod writing;

pub use traced::Traced;
