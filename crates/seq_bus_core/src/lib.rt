//! What a message bus is: its state, what each change does to it, what a query is answered and who
//! gets a message.
//!
//! The definitions stand in `specs/`, in the terms of the D-Bus Specification; the types here are
//! what they speak of. [`Change`] and [`Query`] are what is asked of a bus, [`Outcome`] and
//! [`Verdict`] what it answers, and an [`Entry`] is one line of its history. [`ErrorKind`] names
//! the errors of the bus. The laws of the definitions stand in [`laws`], the limits of a bus in
//! [`limits`].
//!
//! ```
//! use names::BusName;
//! use owner_queues::{Reply as QueueReply, RequestFlags};
//! use seq_bus_core::{Change, Outcome, Reply};
//!
//! /// That a connection requests a name.
//! fn request(connection: u64, name: BusName) -> Change {
//!     Change::Request {
//!         connection,
//!         name,
//!         flags: RequestFlags::default(),
//!     }
//! }
//!
//! /// Whether it owns the name once the bus has told this.
//! fn is_owner(told: &Outcome) -> bool {
//!     told.reply == Reply::OfQueue(QueueReply::PrimaryOwner)
//! }
//! ```
#![tactic(auto)]

mod change;
mod connection;
mod entry;
mod error_kind;
pub mod laws;
pub mod limits;
mod listeners;
mod monitor_rules;
mod outcome;
mod query;
mod recipients;
mod shared;
mod signal;
mod ticket;
mod verdict;

pub use change::{CallHead, Change, Ending};
pub use connection::Conn;
pub use entry::Entry;
pub use error_kind::ErrorKind;
pub use listeners::Listeners;
pub use monitor_rules::MonitorRules;
pub use outcome::{NumberedOutcome, Outcome, Reply};
pub use query::Query;
pub use recipients::Recipients;
pub use shared::{SharedBytes, SharedSignal};
pub use signal::{AddressedSignal, BusSignal, Signals};
pub use ticket::{Fate, SettledNumber, SettledTicket, Ticket, TicketNumbers, TicketRoom, Tickets};
pub use verdict::{Verdict, VerdictKind};
