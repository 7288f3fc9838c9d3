//! The sockets of the daemon: a listener, whose connections go to the routers in turn, and for each
//! router what the system tells of its sockets.
//!
//! [`Acceptor`] is the task of the main thread, [`Sockets`] the source of a router. Readiness is
//! told by edges: once, when it begins.
//!
//! ```
//! use busd_sockets::{EndLog, NewConnections, PollWaker, Sockets};
//! use mio::Poll;
//! use std::alloc::Global;
//! use std::io;
//! use std::net::Net;
//! use std::rt::Clock;
//!
//! /// What a router hears of its sockets by, and what wakes it.
//! fn open<'a, L: EndLog + Drop, R: Net + Clock>(
//!     rt: &'a R,
//!     alloc: Global,
//!     new_connections: &'a NewConnections,
//!     log: L,
//! ) -> io::Result<(Sockets<'a, L, R>, PollWaker)> {
//!     let poll = Poll::new(rt)?;
//!     let waker = PollWaker::new(alloc, &poll)?;
//!     let sockets = Sockets::new(rt, alloc, poll, new_connections, log)?;
//!     Ok((sockets, waker))
//! }
//! ```
#![tactic(auto)]

mod acceptor;
mod client_socket;
mod login_timer;
mod new_connection;
mod sockets;
mod waker;

pub use acceptor::{AcceptLog, Acceptor, Chores, Entrance};
pub use client_socket::ClientSocket;
pub use new_connection::{MAX_WAITING, NewConnections};
pub use sockets::{EndLog, Sockets};
pub use waker::PollWaker;
