//! Match rules that are found by what they ask for.
//!
//! An [`Index`] holds the match rules of the connections of a bus, in order of arrival. A rule is
//! in the bucket of what it asks for: its type, its interface, its member, its first argument and
//! the class of its sender. So a message looks only at the rules of the few buckets that it may be
//! for, however many stand in others, and [`Index::collect`] counts each rule that it tests as one
//! of its [`Steps`]. All room is made with the index, and later calls take no memory. What has a
//! key, as a rule has its connection and its bucket, is found by the [`PlaceIndex`]; the registry
//! has the names of each connection in another. The laws of the definitions stand in [`laws`].
//! (D-Bus Specification: "Match Rules".)
//!
//! ```
//! use match_index::Index;
//! use match_rules::Rule;
//! use std::alloc::{AllocError, Global};
//!
//! fn counts_rules(alloc: Global) -> Result<bool, AllocError> {
//!     let mut index = Index::new(alloc)?;
//!     let Ok(rule) = Rule::parse("type='signal',member='Ticked'") else {
//!         return Ok(false);
//!     };
//!     index.add(1, rule);
//!     index.add(2, rule);
//!     index.drop_owner(1);
//!     Ok(index.len() == 1 && index.contains(2, &rule))
//! }
//! ```
#![tactic(auto)]

mod buckets;
mod collecting;
mod conn_set;
mod entries;
mod index;
pub mod laws;
mod place_index;
mod steps;
mod tables;

pub use conn_set::ConnSet;
pub use index::{Index, RulesOf};
pub use place_index::{KeyedPlace, PlaceIndex};
pub use steps::Steps;
