//! The words of a line of a trace: what they say of a change, a query or a route, and whether those
//! behind its arrow are of its kind.
//!
//! [`Parts`] are what stands between separators. [`read_change`], [`read_query`] and [`read_route`]
//! take the words of what a line tells of, and leave those behind them; [`is_outcome`],
//! [`is_answer`] and [`is_verdict`] judge the words behind the arrow. What words say is defined in
//! `specs/`.
//!
//! ```
//! use trace_words::{Parts, read_query};
//!
//! fn leaves_the_arrow() -> bool {
//!     let mut words = Parts::of("owner :1.1 => :1.1", ' ');
//!     read_query(&mut words).is_some() && words.take() == Some("=>")
//! }
//! ```
#![tactic(auto)]

mod arguments;
mod changes;
mod cutting;
mod kept;
mod lending;
mod parts;
mod queries;
mod recorded;
mod route;
mod routes;
mod rules;
mod texts;
mod words;

pub use kept::KeptArgument;
pub use parts::Parts;
pub use queries::read_query;
pub use recorded::{is_answer, is_outcome, is_verdict};
pub use route::Route;
pub use routes::read_route;
pub use rules::read_change;
pub use words::number;
