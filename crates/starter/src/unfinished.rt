//! What a turn leaves to be done.

use std::alloc::AllocError;
use thiserror::Error;

/// There was no memory for something, or no room for a start, or a tick is wanted still. It is done
/// first in the next turn, which is to come some time later.
#[derive(Clone, Copy, Debug, PartialEq, Eq, Error)]
#[error("there is no memory or no room yet for what is to be done")]
pub struct Unfinished;

impl From<AllocError> for Unfinished {
    fn from(_error: AllocError) -> Unfinished {
        Unfinished
    }
}
