//! The programs of services, which the thread that started the routers runs for them.
//!
//! That thread serves no connection. It has a [`MainSeat`]: seat 0 of the registry, its lane into
//! the outboxes, and a [`Starter`], which asks [`Programs`] to run what routers ask for and tells
//! the bus how starts end.
//!
//! ```
//! use names::BusName;
//! use starter::Programs;
//! use std::sync::Wait;
//! use supervisor::Event;
//!
//! /// A system that runs no programs.
//! #[derive(Drop)]
//! struct NoPrograms;
//!
//! impl Programs for NoPrograms {
//!     fn run(&mut self, _name: &BusName, _start: u64) -> bool {
//!         false
//!     }
//!
//!     fn next<R: Wait>(&mut self, _rt: &R) -> Option<Event> {
//!         None
//!     }
//! }
//! ```
#![tactic(auto)]

mod main_seat;
mod programs;
mod starter;
mod unfinished;

pub use main_seat::MainSeat;
pub use programs::Programs;
pub use starter::Starter;
pub use unfinished::Unfinished;
