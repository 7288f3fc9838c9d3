//! Two routers that serve at the same time.

use crate::playing::expect_told;
use crate::progress::{Progress, pause};
use crate::scenario::{ClientMessage, Condition, Scenario, Step, Tracing};
use bus_view::BusView;
use driver::Call;
use router_core::Gate;
use std::rt::Clock;
use std::sync::atomic::Ordering;
use std::test::Fail;

/// How many turns of a millisecond a call is held at most.
const TURNS: u32 = 10_000;

/// Holds the second call of seat 1, which lists names, until seat 2 is asked for its third.
#[derive(Drop)]
pub(crate) struct HoldingGate<'a, R: Clock> {
    clock: &'a R,
    progress: &'a Progress,
    holds: bool,
    /// How many calls it was shown.
    calls: u32,
}

impl<'a, R: Clock> HoldingGate<'a, R> {
    pub(crate) fn new(clock: &'a R, progress: &'a Progress, holds: bool) -> HoldingGate<'a, R> {
        HoldingGate {
            clock,
            progress,
            holds,
            calls: 0,
        }
    }

    /// Waits until seat 2 is asked for its third call.
    fn hold(&self) {
        self.progress.is_held.store(true, Ordering::SeqCst);
        for _ in 0..TURNS {
            if self.progress.is_free.load(Ordering::SeqCst) {
                return;
            }
            pause(self.clock);
        }
        self.progress.is_late.store(true, Ordering::SeqCst);
    }
}

impl<'a, R: Clock> Gate for HoldingGate<'a, R> {
    ghost passes = { λ _ _ _. Unit {0} };

    fn before<V: BusView>(&mut self, seat: u8, call: &Call, _bus: &V) {
        self.calls = self.calls.saturating_add(1);
        match (seat, self.calls) {
            (1, 2) if self.holds && matches!(call, Call::ListNames) => self.hold(),
            (2, 3) => self.progress.is_free.store(true, Ordering::SeqCst),
            _ => {}
        }
    }
}

/// Seat 1's second call is held until seat 2, whose second call is answered meanwhile, is asked for
/// its third.
const GATED: Scenario = Scenario {
    rooms: &[1_000_000, 1_000_000],
    steps: &[
        &[
            Step::Connects(0),
            Step::Sends(0, ClientMessage::Hello),
            Step::Awaits(Condition::Received(1, 2)),
            Step::Sends(0, ClientMessage::ListNames),
            Step::Awaits(Condition::Received(0, 3)),
            Step::Ends,
        ],
        &[
            Step::Awaits(Condition::Received(0, 2)),
            Step::Connects(1),
            Step::Sends(1, ClientMessage::Hello),
            Step::Awaits(Condition::IsHeld),
            Step::Sends(1, ClientMessage::GetNameOwner(":1.1")),
            Step::Awaits(Condition::Received(1, 3)),
            Step::Sends(1, ClientMessage::GetNameOwner(":1.2")),
            Step::Awaits(Condition::Received(1, 4)),
            Step::Awaits(Condition::Received(0, 3)),
            Step::Ends,
        ],
    ],
    stops: &[],
    holds: true,
    tracing: Tracing::Off,
};

const GATED_TOLD: &str = "client 0
1 reply 1 :1.1
2 org.freedesktop.DBus NameAcquired :1.1
3 reply 2
client 1
1 reply 1 :1.2
2 org.freedesktop.DBus NameAcquired :1.2
3 reply 2 :1.1
4 reply 3 :1.2
";

#[test]
fn gate_two_routers(rt: HostRuntime) -> Result<(), Fail> {
    expect_told(&rt, rt.alloc(), &GATED, GATED_TOLD)
}
