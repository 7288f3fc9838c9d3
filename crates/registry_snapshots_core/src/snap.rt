//! The copy of the registry that readers take, and the operation that brings it up.

ghost use Rattle.owner_queues.specs.declared.request.Profile.TheVariants.{Two};
ghost use Rattle.std.specs.Prelude.{◌≡◌, ◌<◌, length, IfOk, IfSome, replicate, slice_get, slice_index};
ghost use Rattle.seq_bus_core.specs.Histories.{CanOpen, opening};
ghost use Rattle.registry_snapshots_core.specs.Copies.{put_number};

use crate::history::Prefix;
use left_right::Absorb;
use names::WellKnown;
use owner_queues::Profile;
use registry::{Prepared, Registry};
use std::alloc::{AllocError, Global};
use std::marker::Model;

/// How a registry settles queues of names.
const PROFILE: Profile = Profile::Two;

/// The bus as it was published.
pub struct Snap {
    registry: Registry,
    // The number of each seat's last change.
    last: Vec<u64>,
    prefix: Prefix,
}

impl Model for Snap {
    ghost use Rattle.registry_snapshots_core.specs.Copies.{SnapView};

    ghost Value = { SnapView };

    ghost view = { λ s. record { bus = s.registry; last = s.last.items; prefix = s.prefix } };
}

impl Drop for Snap {
    fn drop(self) {
        let Snap {
            registry,
            last,
            prefix,
        } = self;
        drop(registry);
        drop(last);
        drop(prefix);
    }
}

/// What brings a copy up.
#[derive(Drop)]
pub enum Op {
    /// Nothing: it makes room for the operations to come.
    Rest,
    /// A change that a seat made.
    Made {
        seat: u8,
        /// Its number among the changes of the seat.
        number: u64,
        prepared: Prepared,
        /// The beginning of the history that its entry ends.
        prefix: Prefix,
    },
    /// Changes that a seat made together.
    MadeAll {
        seat: u8,
        /// The number of the last among the changes of the seat.
        number: u64,
        /// In order.
        prepared: Vec<Prepared>,
        /// The beginning of the history that their entries end.
        prefix: Prefix,
    },
}

impl Absorb<Op> for Snap {
    ghost use Rattle.registry_snapshots_core.specs.Pending.{brought_up};

    type State = Snap;

    ghost state = { λ s. s };

    ghost applied = { brought_up };

    ghost never_fails = { Unit {0} };

    fn absorb_first(&mut self, operation: &Op, _other: &Snap) -> Result<(), AllocError> {
        match operation {
            Op::Rest => {}
            Op::Made {
                seat,
                number,
                prepared,
                prefix,
            } => {
                self.registry.absorb(prepared);
                self.go_on(*seat, *number, prefix);
            }
            Op::MadeAll {
                seat,
                number,
                prepared,
                prefix,
            } => {
                self.registry.absorb_all(prepared.as_slice());
                self.go_on(*seat, *number, prefix);
            }
        }
        Ok(())
    }
}

// Writes down the number of the seat's last change.
fn remember(last: &mut Vec<u64>, seat: u8, number: u64)
    ensures { last.new.items ≡ put_number last.old.items seat number }
{
    let seat = usize::from(seat);
    if seat < last.len() {
        last[seat] = number;
    }
}

impl Snap {
    /// The bus before its first change, with so many seats.
    pub fn new(
        alloc: Global,
        services: &[WellKnown],
        routers: u8,
        seats: usize,
        prefix: Prefix,
    ) -> Result<Snap, AllocError>
        requires { CanOpen routers services.now }
        ensures { IfOk result (λ s. s ≡ record {
          bus = opening Two routers services.now;
          last = replicate seats 0;
          prefix = prefix;
        }) }
    {
        Ok(Snap {
            registry: Registry::new(alloc, services, routers, PROFILE)?,
            last: Vec::from_elem(alloc, 0u64, seats)?,
            prefix,
        })
    }

    // From now on it stands for this beginning of the history, where this is the number of the
    // seat's last change.
    fn go_on(&mut self, seat: u8, number: u64, prefix: &Prefix)
        ensures { self.new ≡ record self.old {
          last = put_number self.old.last seat number;
          prefix = prefix.now;
        } }
    {
        remember(&mut self.last, seat, number);
        self.prefix = prefix.copy();
    }

    /// The tables of the bus. Changes are prepared on them.
    pub fn registry(&self) -> &Registry
        ensures { result.now ≡ self.now.bus }
    {
        &self.registry
    }

    /// The beginning of the history that it stands for.
    pub fn prefix(&self) -> &Prefix
        ensures { result.now ≡ self.now.prefix }
    {
        &self.prefix
    }

    /// The number of the seat's last change, if there is such a seat.
    pub fn made(&self, seat: u8) -> Option<u64>
        ensures some { IfSome result (λ n. (seat < length self.now.last)
            × (n ≡ slice_index self.now.last seat)) }
        ensures same { result ≡ slice_get self.now.last seat }
    {
        self.last.get(usize::from(seat)).copied()
    }
}
