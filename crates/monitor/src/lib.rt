//! The monitors of a bus: connections that are shown messages and send none.
//! (D-Bus Specification: "Eavesdropping", "org.freedesktop.DBus.Monitoring.BecomeMonitor".)
//!
//! [`Monitors`] keeps them by rising number, each with the rules that it asked for, and finds those
//! that are shown a message. All room is made with the table.
//!
//! ```
//! use match_rules::{Facts, Owners, Rule};
//! use monitor::Monitors;
//! use seq_bus_core::{Conn, MonitorRules, Recipients};
//! use std::alloc::{AllocError, Global};
//!
//! /// Who is shown a message, where `:1.5` watches signals alone and `:1.6` everything.
//! fn watchers<O: Owners>(
//!     alloc: Global,
//!     signals: Rule,
//!     facts: &Facts<'_>,
//!     owners: &O,
//! ) -> Result<Recipients, AllocError> {
//!     let mut rules = MonitorRules::new(alloc);
//!     rules.push(signals)?;
//!     let mut monitors = Monitors::new(alloc)?;
//!     monitors.add(conn(5), &rules);
//!     monitors.add(conn(6), &MonitorRules::new(alloc));
//!     let mut shown = Recipients::new();
//!     monitors.shown(facts, owners, &mut shown);
//!     Ok(shown)
//! }
//!
//! fn conn(number: u64) -> Conn {
//!     Conn {
//!         number,
//!         slot: 0,
//!         router: 1,
//!     }
//! }
//! ```
#![tactic(auto)]

pub mod laws;
mod monitor;
mod monitors;

pub use monitor::{Monitor, is_watched};
pub use monitors::Monitors;
