//! What happens to a router.

ghost use Rattle.std.specs.Prelude.{IfSome};
ghost use Rattle.routers.specs.Sources.{IsBrought};

use router_host::{Ended, OpenFault, Socket};
use routers_core::Fault;
use std::sync::Wait;

/// How long is waited before what the system or memory refused is tried again, in milliseconds.
pub const RETRY_AFTER: u64 = 100;

/// How long a router waits for what happens next.
#[derive(Clone, Copy, Debug, PartialEq, Eq)]
pub enum Timeout {
    /// Not at all: it has something to do.
    Zero,
    /// [`RETRY_AFTER`]: something is to be tried again.
    Short,
    /// Until something happens.
    Never,
}

/// What happens to a router.
#[derive(Drop)]
pub enum SourceEvent<S: Drop> {
    /// A connection came, which is to say who it is if there is a challenge: sixteen bytes that
    /// nobody can guess.
    Accepted {
        socket: S,
        challenge: Option<[u8; 16]>,
    },
    /// The socket of this key may be read; where it is closing, the other side sends no more.
    Readable {
        key: usize,
        closing: bool,
    },
    /// The socket of this key takes bytes again.
    Writable {
        key: usize,
    },
    /// Nothing happens any more.
    Ended,
}

/// Where a router hears of what happens to its connections, which are read from and written to
/// sockets of type `S`.
pub trait Source<S: Socket> {
    ghost use Rattle.std.specs.Prelude.{List, ℕ, Option};

    /// The challenge with which a connection over this socket may come.
    ghost asks: { S → Option (List ℕ) → Type 0 };

    /// Waits for what happens next, no longer than this.
    ///
    /// # Errors
    ///
    /// The system tells no more what happens, or there is no memory for it.
    fn wait(&mut self, timeout: Timeout) -> Result<(), Fault>;

    /// The next thing that happened; none once all is told.
    fn next<R: Wait>(&mut self, rt: &R) -> Option<SourceEvent<S>>
        ensures asks { IfSome result (λ event. IsBrought asks event) };

    /// Whether the login time has passed once more. It runs only as long as this is asked with
    /// `is_wanted`: while some connection has no name.
    fn login_time_passes(&mut self, is_wanted: bool) -> bool;

    /// Registers a socket under its key: from now on its readiness is told. It is false where the
    /// system refuses that, which the source itself notes, as at [`refused`](Source::refused).
    fn watch(&mut self, key: usize, socket: &mut S) -> bool
        ensures asks { (challenge : Option (List ℕ)) →
            asks socket.old challenge → asks socket.new challenge };

    /// A connection that came is not served, and its socket is closed.
    fn refused(&mut self, fault: OpenFault);

    /// A connection is over.
    fn ended(&mut self, ended: Ended);
}
