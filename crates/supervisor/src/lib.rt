//! Started programs: which are to be run, and what is to be told to the bus of them.
//!
//! A [`Supervisor`] is told what happens, as an [`Event`], and answers what is to be done, as
//! [`Deed`]s. It runs nothing itself, and time is what it is told. `specs/Supervising.antt` is its
//! table. (D-Bus Specification: "Message Bus Starting Services".)
//!
//! ```
//! use names::BusName;
//! use seq_bus_core::Change;
//! use std::alloc::{AllocError, Global};
//! use supervisor::{Deed, Event, Supervisor};
//!
//! fn gives_up(alloc: Global, name: BusName) -> Result<bool, AllocError> {
//!     let mut supervisor = Supervisor::new(alloc);
//!     supervisor.event(&Event::Tick { now: 1_000 })?;
//!     let asked = supervisor.event(&Event::Asked { name, start: 1 })?;
//!     let early = supervisor.event(&Event::Tick { now: 25_999 })?;
//!     let late = supervisor.event(&Event::Tick { now: 26_000 })?;
//!     Ok(
//!         matches!(asked.as_slice(), [Deed::Run { start: 1, .. }])
//!             && early.is_empty()
//!             && matches!(
//!                 late.as_slice(),
//!                 [Deed::Report(Change::StartTimedOut { start: 1, .. })]
//!             ),
//!     )
//! }
//! ```
#![tactic(auto)]

mod deed;
mod event;
mod start;
mod supervisor;

pub use deed::Deed;
pub use event::Event;
pub use start::{START_TIMEOUT, Start};
pub use supervisor::Supervisor;
