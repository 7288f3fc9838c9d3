//! The world before its first step.

ghost use Rattle.std.specs.Prelude.{◌≡◌, IfOk};
ghost use Rattle.owner_queues.specs.declared.request.Profile.TheVariants.{Two};
ghost use Rattle.seq_bus_core.specs.Histories.{CanOpen};
ghost use Rattle.seq_bus_core.specs.Tickets.{opening_bus};

use crate::bus::SteppedBus;
use names::WellKnown;
use std::alloc::{AllocError, Global};
use std::marker::Model;

/// A bus on which nothing has happened, with a seat for the main thread and one for each of its
/// routers.
///
/// Contracts see the bus as it is opened, under the second profile of queues.
#[derive(Drop)]
pub struct World {
    pub(crate) routers: u8,
    pub(crate) services: Vec<WellKnown>,
}

impl Model for World {
    ghost use Rattle.owner_queues.specs.declared.request.Profile.TheVariants.{Two};
    ghost use Rattle.seq_bus_core.specs.Histories.{CanOpen};
    ghost use Rattle.seq_bus_core.specs.Tickets.{WholeBus, opening_bus};

    ghost Value = { WholeBus };

    ghost view = { λ w. opening_bus Two w.routers w.services.items };

    ghost invariant = { λ w. CanOpen w.routers w.services.items };
}

impl World {
    /// The world of a bus with these services and so many routers. It takes memory.
    ///
    /// Whether a bus can be opened with them is said by [`can_open`](bus_view::can_open).
    pub fn new(alloc: Global, services: &[WellKnown], routers: u8) -> Result<World, AllocError>
        requires { CanOpen routers services.now }
        ensures { IfOk result (λ world. world ≡ opening_bus Two routers services.now) }
    {
        let services = Vec::from_slice(alloc, services)?;
        Ok(World { routers, services })
    }

    /// The bus, as it is opened. It takes memory.
    pub(crate) fn open(&self, alloc: Global) -> Result<SteppedBus, AllocError>
        ensures { IfOk result (λ bus. bus ≡ self.now) }
    {
        SteppedBus::open(alloc, self.services.as_slice(), self.routers)
    }

    /// How many routers the bus has: one less than it has seats.
    pub fn routers(&self) -> u8
        ensures { result ≡ self.now.state.routers }
    {
        self.routers
    }
}
