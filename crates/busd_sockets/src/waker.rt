//! How a thread that waits for sockets is woken.

use mio::{Poll, Token, Waker};
use routers::Wake;
use std::alloc::{AllocError, Global};
use std::io;
use std::sync::Arc;

/// The token under which a poll tells that its waker was used.
pub(crate) const WAKER: Token = Token(usize::MAX);

/// Ends the wait of a poll. Several threads may have one for the same poll.
#[derive(Drop)]
pub struct PollWaker {
    waker: Arc<Waker, Global>,
}

impl PollWaker {
    /// The waker of a poll, which has no other.
    ///
    /// # Errors
    ///
    /// The system gives none, or there is no memory for it.
    pub fn new(alloc: Global, poll: &Poll) -> io::Result<PollWaker> {
        let waker = Waker::new(poll.registry(), WAKER)?;
        match Arc::new(alloc, waker) {
            Ok(waker) => Ok(PollWaker { waker }),
            Err(_) => Err(io::Error::from(io::ErrorKind::OutOfMemory)),
        }
    }

    /// One more for the same poll.
    ///
    /// # Errors
    ///
    /// There are as many as can be counted.
    pub fn try_clone(&self) -> Result<PollWaker, AllocError> {
        Ok(PollWaker {
            waker: Arc::try_clone(&self.waker)?,
        })
    }
}

impl Wake for PollWaker {
    fn wake(&self) {
        let _refused = self.waker.wake();
    }
}
