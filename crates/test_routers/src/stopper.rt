//! What the main thread does while the routers serve.

use crate::progress::{FlagWaker, LOOKS, MAIN, Progress, pause};
use crate::scenario::Condition;
use routers::{Coordinator, Fault, MainTask};
use std::rt::Clock;
use std::sync::Wait;

/// Stops the bus once all conditions hold, or ends when it is woken. Where there is no condition it
/// ends at once.
#[derive(Drop)]
pub(crate) struct Stopper<'a, 'c, R: Clock> {
    pub(crate) clock: &'a R,
    pub(crate) progress: &'a Progress,
    pub(crate) coordinator: &'c Coordinator<FlagWaker<'a>>,
    pub(crate) stops: &'static [Condition],
}

impl<'a, 'c, R: Clock> Stopper<'a, 'c, R> {
    /// Waits until a condition holds. False where the thread was woken before.
    fn awaits<Q: Wait>(&self, rt: &Q, condition: Condition) -> Result<bool, Fault> {
        for _ in 0..LOOKS {
            if self.progress.is_woken(MAIN) {
                return Ok(false);
            }
            if self.progress.holds(rt, MAIN, condition) {
                return Ok(true);
            }
            pause(self.clock);
        }
        Err(Fault::Poll)
    }
}

impl<'a, 'c, R: Clock> MainTask for Stopper<'a, 'c, R> {
    fn run<Q: Wait>(&mut self, rt: &Q) -> Result<(), Fault> {
        if self.stops.is_empty() {
            return Ok(());
        }
        for condition in self.stops {
            if !self.awaits(rt, *condition)? {
                return Ok(());
            }
        }
        self.coordinator.stop();
        Ok(())
    }
}
