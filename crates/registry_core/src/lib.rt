//! The tables of the registry, and who listens to a message.
//!
//! A [`ConnectionTable`] holds the connections of a bus, monitors among them, a [`NameTable`] the
//! names that have an owner, with their queues, and a [`StartTable`] the starts of services that
//! run, with the calls that wait for them. All room is made with a table. [`listening`] finds those
//! connections that a message is for by its facts, with the index of the match rules that
//! connections added. Where the heads of names are asked for, any `Owners` will do: those of the
//! bus as it is, or as it will be after a change.
//!
//! ```
//! use match_index::Index;
//! use match_rules::Rule;
//! use registry_core::ConnectionTable;
//!
//! /// Adds a match rule of a client, where there is such a client and room for the rule.
//! fn add_rule(
//!     connections: &ConnectionTable,
//!     rules: &mut Index,
//!     number: u64,
//!     rule: Rule,
//! ) -> bool {
//!     if !connections.is_client(number) || !rules.has_room() {
//!         return false;
//!     }
//!     rules.add(number, rule);
//!     rules.contains(number, &rule)
//! }
//! ```
#![tactic(auto)]

mod connection_entry;
mod connection_table;
pub mod listening;
mod name_index;
mod name_table;
mod start_table;

pub use connection_entry::{ConnectionEntry, find_place, number_of};
pub use connection_table::ConnectionTable;
pub use name_table::{NameEntry, NameTable};
pub use start_table::{StartTable, WaitingTicket};
