//! A bus that is stepped through a history.

ghost use Rattle.std.specs.Prelude.{◌≡◌, IfOk, OnOk};
ghost use Rattle.owner_queues.specs.declared.request.Profile.TheVariants.{Two};
ghost use Rattle.seq_bus_core.specs.Histories.{CanOpen};
ghost use Rattle.seq_bus_core.specs.Tickets.{opening_bus, bus_step};
ghost use Rattle.interleave_core.specs.Worlds.{said_of};
ghost use Rattle.interleave.specs.Logs.{Says};

use crate::log::Exchange;
use activation::HeldCalls;
use interleave_core::Question;
use names::WellKnown;
use owner_queues::Profile;
use registry::Registry;
use seq_bus_core::{Change, Outcome};
use settling::prepare_only;
use std::alloc::{AllocError, Global};
use std::marker::Model;

/// A bus that is stepped through a history. Contracts see the bus that the definitions speak of.
#[derive(Drop)]
pub(crate) struct SteppedBus {
    registry: Registry,
    calls: HeldCalls,
}

impl Model for SteppedBus {
    ghost use Rattle.seq_bus_core.specs.Tickets.{WholeBus};
    ghost use Rattle.activation.specs.Holdings.{IsHolding};
    ghost use Rattle.interleave.specs.Stepping.{whole_of};

    ghost Value = { WholeBus };

    ghost view = { λ b. whole_of b.registry b.calls };

    ghost invariant = { λ b. IsHolding (whole_of b.registry b.calls) b.calls };
}

impl SteppedBus {
    /// A bus that was just opened.
    pub(crate) fn open(
        alloc: Global,
        services: &[WellKnown],
        routers: u8,
    ) -> Result<SteppedBus, AllocError>
        requires { CanOpen routers services.now }
        ensures { IfOk result (λ bus. bus ≡ opening_bus Two routers services.now) }
    {
        let registry = Registry::new(alloc, services, routers, Profile::Two)?;
        let calls = HeldCalls::new(alloc)?;
        Ok(SteppedBus { registry, calls })
    }

    /// The change that this seat makes: what it is told.
    pub(crate) fn make(
        &mut self,
        alloc: Global,
        seat: u8,
        change: &Change,
    ) -> Result<Outcome, AllocError>
        ensures made { OnOk result (self.new ≡ (bus_step self.old seat change.now).0) }
        ensures told { IfOk result (λ outcome.
            outcome ≡ (bus_step self.old seat change.now).1) }
    {
        let (prepared, settling) = prepare_only(alloc, &self.registry, seat, change)?;
        self.registry.absorb(&prepared);
        Ok(settling.settle(&mut self.calls, change))
    }

    /// What the bus says to a question.
    pub(crate) fn answer<'a>(
        &self,
        alloc: Global,
        question: &'a Question<'a>,
    ) -> Result<Exchange<'a>, AllocError>
        ensures { IfOk result (λ exchange. Says exchange (said_of self.now question.now)) }
    {
        match question {
            Question::Ask(query) => {
                let mut body = Vec::new(alloc);
                let Ok(asked) = self.registry.answer(query, &mut body) else {
                    return Err(AllocError);
                };
                Ok(Exchange::Body { query, asked, body })
            }
            Question::Route { from, facts } => {
                let verdict = self.registry.route(*from, facts);
                let Ok(verdict) = Box::new(alloc, verdict) else {
                    return Err(AllocError);
                };
                Ok(Exchange::Verdict {
                    from: *from,
                    facts,
                    verdict,
                })
            }
            Question::Present(number) => Ok(Exchange::Presence {
                number: *number,
                present: self.registry.present(*number),
            }),
        }
    }
}
