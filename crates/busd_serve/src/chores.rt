//! What the main thread does beside accepting.

use busd_sockets::{Chores, ClientSocket, PollWaker};
use registry_snapshots::Naming;
use routers::{Fault, TraceSink};
use starter::{MainSeat, Programs};
use std::rt::Clock;
use std::sync::Wait;
use std::time::Instant;

/// The seat of the main thread, by the clock of the system.
#[derive(Drop)]
pub(crate) struct SeatByClock<'a, J: Naming, Q: Programs + Drop, T, R: Wait + Clock> {
    rt: &'a R,
    seat: MainSeat<'a, J, ClientSocket, PollWaker, Q, T, R>,
    /// When it was made.
    begun: Option<Instant>,
    /// The last moment that the clock told, in milliseconds.
    now: u64,
}

impl<'a, J: Naming, Q: Programs + Drop, T, R: Wait + Clock> SeatByClock<'a, J, Q, T, R> {
    pub(crate) fn new(
        rt: &'a R,
        seat: MainSeat<'a, J, ClientSocket, PollWaker, Q, T, R>,
    ) -> SeatByClock<'a, J, Q, T, R> {
        SeatByClock {
            rt,
            seat,
            begun: Instant::now(rt).ok(),
            now: 0,
        }
    }

    /// The moment in milliseconds. Where the clock does not tell it, the last one.
    fn moment(&mut self) -> u64 {
        if let (Some(begun), Ok(now)) = (self.begun, Instant::now(self.rt)) {
            let passed = now.saturating_duration_since(begun).as_millis();
            self.now = u64::try_from(passed).unwrap_or(u64::MAX);
        }
        self.now
    }
}

impl<'a, J: Naming, Q: Programs + Drop, T: TraceSink + Drop, R: Wait + Clock> Chores
    for SeatByClock<'a, J, Q, T, R> {
    fn turn<W: Wait>(&mut self, rt: &W) -> Result<Option<u64>, Fault> {
        let now = self.moment();
        self.seat.turn(rt, now)
    }
}
