//! What routers send one another: messages on their way to connections of other routers, and who
//! gets them.
//!
//! A relayed message is there in its bytes, which all who get it share. The bus's own messages are
//! numbered by the router of the recipient, so they travel unwritten, as a [`BusMessage`], and are
//! written where they arrive. An [`Envelope`] has such a [`Content`], the number of the connection
//! that it is for, and what its sender knew of the bus. Who gets a content, and in which order, is
//! said by [`Deliveries`]. Laws of who gets it, and of what rules see of a signal, stand in
//! [`laws`].
//!
//! ```
//! use outbox_core::Deliveries;
//! use seq_bus_core::Conn;
//!
//! fn get_it_once(one: Conn, two: Conn) -> bool {
//!     let to = [one];
//!     let monitors = [one, two];
//!     let mut deliveries = Deliveries::new(&to, &monitors);
//!     let first = deliveries.next();
//!     let second = deliveries.next();
//!     first == Some(two) && second == Some(one) && deliveries.next().is_none()
//! }
//! ```
#![tactic(auto)]

mod answer;
mod bus_facts;
mod bus_message;
mod content;
mod deliveries;
mod envelope;
pub mod laws;

pub use answer::AnswerBody;
pub use bus_facts::{BusMessageNames, OwnArguments};
pub use bus_message::BusMessage;
pub use content::Content;
pub use deliveries::Deliveries;
pub use envelope::Envelope;
