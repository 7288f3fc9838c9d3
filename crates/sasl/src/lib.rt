//! Authentication of a client, as its bytes come: the server's side of the conversation that goes
//! before the first message.
//!
//! [`Server`] is one conversation. `specs/Table.antt` is the table of its states,
//! `specs/Conversations.antt` what a whole conversation is, after "Authentication Protocol" of the
//! D-Bus Specification, with the mechanisms DBUS_COOKIE_SHA1 and, where it is allowed, ANONYMOUS.
//! [`read_keyring`] reads the cookie of the former: that of a keyring's last line. The laws stand in
//! [`laws`].
//!
//! ```
//! use sasl::{Identity, KeyringFault, Progress, Server, read_keyring};
//! use std::alloc::Global;
//! use std::sync::ArcStr;
//!
//! /// Whether a client that does not say who it is comes in, where that is allowed.
//! fn lets_anonymous_in(
//!     alloc: Global,
//!     keyring: &[u8],
//!     user: ArcStr,
//!     guid: [u8; 16],
//!     challenge: [u8; 16],
//! ) -> Result<bool, KeyringFault> {
//!     let cookie = read_keyring(alloc, keyring)?;
//!     let mut server = Server::new(alloc, guid, user, cookie, challenge, true);
//!     let step = server.feed(b"\0AUTH ANONYMOUS\r\nBEGIN\r\n");
//!     Ok(matches!(
//!         step.progress,
//!         Progress::Done {
//!             identity: Identity::Anonymous,
//!             ..
//!         }
//!     ))
//! }
//! ```
#![tactic(auto)]

mod command;
mod cookie;
mod digest;
mod fault;
mod identity;
mod keyring;
pub mod laws;
mod phase;
mod server;
mod server_line;
mod setting;
mod step;
mod words;

pub use cookie::Cookie;
pub use digest::cookie_digest;
pub use fault::{AuthenticationFault, KeyringCode, KeyringFault};
pub use identity::Identity;
pub use keyring::read_keyring;
pub use phase::{Awaited, Phase};
pub use server::Server;
pub use step::{Progress, Step};
