//! Who gets a message of a bus, and a signal of a change.
//!
//! An [`Audience`] is a bus as it is, or as it will be once a change is made: whoever can say who
//! wants a message, and who is shown it. [`judge`] says where a message goes, and [`address`] to
//! whom a signal of the bus goes; what match rules see of it is lent by its [`SignalNames`]. The
//! signals of a name that has another owner are put together by [`push_owner_signals`], and those
//! of a connection that leaves by [`push_left_name`]. (D-Bus Specification: "Message Bus Message
//! Routing", "Message Bus Messages".)
//!
//! ```
//! use audience::{Audience, judge};
//! use match_rules::Facts;
//! use seq_bus_core::{Verdict, VerdictKind};
//!
//! fn is_for_nobody<A: Audience>(bus: &A, facts: &Facts<'_>, count: &mut A::Count) -> bool {
//!     let mut told = Verdict::new();
//!     judge(bus, facts, &mut told, count);
//!     matches!(told.kind, VerdictKind::Nobody)
//! }
//! ```
#![tactic(auto)]

mod audience;
mod facts;
mod judging;
mod signals;

pub use audience::Audience;
pub use facts::{SignalArguments, SignalNames};
pub use judging::judge;
pub use signals::{address, is_owner, push, push_left_name, push_owner_signals};
