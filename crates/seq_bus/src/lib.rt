//! The plain bus: one thread, the tables of a registry, and the whole list of its changes.
//!
//! [`SeqBus`] is what the definitions of `seq_bus_core` say, made to run: [`SeqBus::change`] makes
//! one change and [`SeqBus::ask`] answers one query. What contracts see of it is how it was opened
//! and which changes it has made. It is a [`BusView`](bus_view::BusView) for the one who uses it
//! alone.
//!
//! ```
//! use bus_view::can_open;
//! use names::BusName;
//! use owner_queues::{Profile, RequestFlags};
//! use seq_bus::SeqBus;
//! use seq_bus_core::{Change, Query};
//! use std::alloc::Global;
//!
//! /// A connection says Hello and requests a name: the body that tells its owner.
//! fn owner_of_clock(alloc: Global) -> Option<Vec<u8>> {
//!     if !can_open(&[], 1) {
//!         return None;
//!     }
//!     let mut bus = SeqBus::new(alloc, &[], 1, Profile::Two).ok()?;
//!     bus.change(Change::Hello { privileged: false }).ok()?;
//!     let name = BusName::parse("com.example.Clock").ok()?;
//!     let request = Change::Request {
//!         connection: 1,
//!         name,
//!         flags: RequestFlags::default(),
//!     };
//!     bus.change(request).ok()?;
//!     let mut body = Vec::new(alloc);
//!     bus.ask(&Query::GetNameOwner(name), &mut body).ok()?;
//!     Some(body)
//! }
//! ```
#![tactic(auto)]

mod bus;
mod plain;

pub use bus::SeqBus;

/// The one seat of a plain bus: that of its one router which makes changes.
pub const SEAT: u8 = 1;
