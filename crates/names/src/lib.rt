//! The names of the D-Bus Specification, each checked when it is made.
//!
//! ```
//! use names::{BusName, BusNameKind, Interface, NameFault, UniqueName};
//!
//! fn are_told_apart() -> Result<bool, NameFault> {
//!     let clock = BusName::parse("com.example.Clock")?;
//!     let first = UniqueName::of(1);
//!     Ok(
//!         clock.kind() == BusNameKind::WellKnown
//!             && first.as_str() == ":1.1"
//!             && first.connection() == Some(1)
//!             && BusName::from(first).kind() == BusNameKind::Unique
//!             && Interface::check(b"com..example") == Err(NameFault::BadByte(4)),
//!     )
//! }
//! ```
#![tactic(auto)]

mod bus;
mod bus_name;
mod bus_name_kind;
mod connection_name;
mod elements;
mod error_name;
mod fault;
mod interface_name;
mod laws;
mod member_name;
mod object_path;
mod short_text;
mod unique_name;
mod well_known_name;

pub use bus::{BUS_NAME, BUS_PATH};
pub use bus_name::BusName;
pub use bus_name_kind::BusNameKind;
pub use connection_name::ConnectionName;
pub use error_name::ErrorName;
pub use fault::NameFault;
pub use interface_name::Interface;
pub use laws::{connections_have_unique_names, names_are_plain, unique_names_differ};
pub use member_name::Member;
pub use object_path::ObjectPath;
pub use unique_name::UniqueName;
pub use well_known_name::WellKnown;
