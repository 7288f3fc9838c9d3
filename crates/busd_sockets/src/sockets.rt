//! What happens to the sockets of a router.

ghost use Rattle.std.specs.Prelude.{◌≡◌, true, is_some, IfSome};
ghost use Rattle.routers.specs.Sources.{IsBrought};

use crate::client_socket::ClientSocket;
use crate::login_timer::LoginTimer;
use crate::new_connection::{MAX_WAITING, NewConnection, NewConnections};
use crate::waker::WAKER;
use mio::event::Event;
use mio::{Events, Interest, Poll, Token};
use router_host::{Ended, OpenFault};
use routers::{Fault, RETRY_AFTER, Source, SourceEvent, Timeout};
use std::alloc::{AllocError, Global};
use std::fmt::Display;
use std::rt::Clock;
use std::sync::Wait;
use std::time::Duration;

/// How many events are told at once.
const EVENTS: usize = 256;

/// Who writes down which connections ended, or are not served.
pub trait EndLog {
    /// A connection is over.
    fn ended(&mut self, ended: Ended);

    /// A connection that came was closed.
    fn refused<T: Display>(&mut self, why: &T);
}

/// What became of a socket, as far as it is not told yet.
#[derive(Clone, Copy)]
struct Readiness {
    key: usize,
    readable: bool,
    closing: bool,
    writable: bool,
}

impl Readiness {
    fn of(event: &Event) -> Readiness {
        let fails = event.is_error();
        Readiness {
            key: event.token().0,
            readable: event.is_readable() || event.is_read_closed() || fails,
            closing: event.is_read_closed() || fails,
            writable: event.is_writable() || fails,
        }
    }
}

/// What happens to the sockets of a router, as the system tells it, and the connections that come
/// to the router.
#[derive(Drop)]
pub struct Sockets<'a, L: EndLog + Drop, R: Clock> {
    poll: Poll,
    events: Events,
    new_connections: &'a NewConnections,
    /// What is not told yet, the last first.
    readiness: Vec<Readiness>,
    /// How many connections that came may be told of before the next wait.
    accepts_left: usize,
    login_timer: LoginTimer<'a, R>,
    log: L,
}

impl<'a, L: EndLog + Drop, R: Clock> Sockets<'a, L, R> {
    /// The sockets that this poll tells of. Its waker is used where connections come.
    ///
    /// # Errors
    ///
    /// There is no memory for what the poll tells.
    pub fn new(
        rt: &'a R,
        alloc: Global,
        poll: Poll,
        new_connections: &'a NewConnections,
        log: L,
    ) -> Result<Sockets<'a, L, R>, AllocError> {
        Ok(Sockets {
            poll,
            events: Events::with_capacity(alloc, EVENTS)?,
            new_connections,
            readiness: Vec::with_capacity(alloc, EVENTS)?,
            accepts_left: MAX_WAITING,
            login_timer: LoginTimer::new(rt),
            log,
        })
    }

    /// Takes over what the poll told. There is room for it.
    fn note_readiness(&mut self) -> Result<(), Fault> {
        self.readiness.clear();
        for event in self.events.iter() {
            if event.token() != WAKER && self.readiness.push(Readiness::of(event)).is_err() {
                return Err(Fault::Memory);
            }
        }
        self.readiness.reverse();
        Ok(())
    }

    /// What a socket is ready for first. It goes once it has told all.
    fn next_event(&mut self) -> Option<SourceEvent<ClientSocket>>
        ensures { IfSome result (λ event.
            IsBrought (λ _ challenge. is_some challenge ≡ true) event) }
    {
        let Readiness {
            key,
            readable,
            closing,
            writable,
        } = self.readiness.pop()?;
        if readable && writable {
            let rest = Readiness {
                key,
                readable: false,
                closing: false,
                writable,
            };
            let _has_room = self.readiness.push(rest);
        }
        if readable {
            Some(SourceEvent::Readable { key, closing })
        } else {
            Some(SourceEvent::Writable { key })
        }
    }
}

/// The shorter of two waits; one without a length has no end.
fn shorter(one: Option<Duration>, other: Option<Duration>) -> Option<Duration> {
    match (one, other) {
        (Some(one), Some(other)) => Some(one.min(other)),
        (None, other) => other,
        (one, None) => one,
    }
}

impl<'a, L: EndLog + Drop, R: Clock> Source<ClientSocket> for Sockets<'a, L, R> {
    ghost use Rattle.std.specs.Prelude.{is_some, true};

    ghost asks = { λ _ challenge. is_some challenge ≡ true };

    fn wait(&mut self, timeout: Timeout) -> Result<(), Fault> {
        let most = match timeout {
            Timeout::Zero => Some(Duration::from_millis(0)),
            Timeout::Short => Some(Duration::from_millis(RETRY_AFTER)),
            Timeout::Never => None,
        };
        // More connections may have come than were told of, and nobody tells that again.
        let most = if self.accepts_left == 0 {
            Some(Duration::from_millis(0))
        } else {
            most
        };
        let most = shorter(most, self.login_timer.left());
        self.accepts_left = MAX_WAITING;
        if self.poll.poll(&mut self.events, most).is_err() {
            return Err(Fault::Poll);
        }
        self.note_readiness()
    }

    fn next<W: Wait>(&mut self, rt: &W) -> Option<SourceEvent<ClientSocket>> {
        if let Some(event) = self.next_event() {
            return Some(event);
        }
        self.accepts_left = self.accepts_left.checked_sub(1)?;
        let NewConnection { stream, challenge } = self.new_connections.pop(rt)?;
        Some(SourceEvent::Accepted {
            socket: ClientSocket { stream },
            challenge: Some(challenge),
        })
    }

    fn login_time_passes(&mut self, is_wanted: bool) -> bool {
        self.login_timer.passes(is_wanted)
    }

    fn watch(&mut self, key: usize, socket: &mut ClientSocket) -> bool {
        let interest = Interest::READABLE | Interest::WRITABLE;
        let registry = self.poll.registry();
        let registered = registry.register(&mut socket.stream, Token(key), interest);
        match registered {
            Ok(()) => true,
            Err(error) => {
                self.log.refused(&error);
                false
            }
        }
    }

    fn refused(&mut self, fault: OpenFault) {
        self.log.refused(&fault);
    }

    fn ended(&mut self, ended: Ended) {
        self.log.ended(ended);
    }
}
