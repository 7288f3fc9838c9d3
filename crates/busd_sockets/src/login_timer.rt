//! The login time: within it who connects is to log in and say Hello.

use std::rt::Clock;
use std::time::{Duration, Instant};

/// How long that time is, in seconds. Who comes while it runs has until its next end.
const LOGIN_SECONDS: u64 = 30;

/// The login time, by the clock of the system. Where that tells nothing, no time passes.
#[derive(Drop)]
pub(crate) struct LoginTimer<'a, R: Clock> {
    rt: &'a R,
    /// When it began, where it runs.
    since: Option<Instant>,
}

impl<'a, R: Clock> LoginTimer<'a, R> {
    pub(crate) fn new(rt: &'a R) -> LoginTimer<'a, R> {
        LoginTimer { rt, since: None }
    }

    /// Whether it has passed once more. It runs as long as it is wanted.
    pub(crate) fn passes(&mut self, is_wanted: bool) -> bool {
        if !is_wanted {
            self.since = None;
            return false;
        }
        let Ok(now) = Instant::now(self.rt) else {
            return false;
        };
        let is_over = match self.since {
            Some(since) => now.duration_since(since) >= Duration::from_secs(LOGIN_SECONDS),
            None => false,
        };
        if is_over || self.since.is_none() {
            self.since = Some(now);
        }
        is_over
    }

    /// How much of it is left, where it runs.
    pub(crate) fn left(&self) -> Option<Duration> {
        let since = self.since?;
        let now = Instant::now(self.rt).ok()?;
        Some(Duration::from_secs(LOGIN_SECONDS).saturating_sub(now.duration_since(since)))
    }
}
