//! Opening a registry under a name that nobody else has to pick.

ghost use Rattle.std.specs.Prelude.{◌≡◌, ◌+◌, ◌≤◌, OnOk, IfOk, IfErr};
ghost use Rattle.owner_queues.specs.declared.request.Profile.TheVariants.{Two};
ghost use Rattle.seq_bus_core.specs.Histories.{CanOpen, max_routers};
ghost use Rattle.seq_bus_core.specs.Tickets.{opening_bus};
ghost use Rattle.registry_snapshots.specs.Seats.{fresh_to};
ghost use Rattle.registry_snapshots_core.specs.Copies.{identity};
ghost use Rattle.registry_snapshots.specs.declared.refusal.StartFault.TheVariants.{Routers, Services};

use crate::refusal::StartFault;
use crate::seat::Seat;
use crate::shared::Shared;
use names::WellKnown;
use registry_snapshots_core::{Naming, NewHistory};
use std::alloc::Global;
use std::marker::Brand;
use std::sync::Wait;

/// What is done with a new registry, whichever it is.
pub trait Serve: Drop {
    ghost use Rattle.std.specs.Prelude.{ℕ};
    ghost use Rattle.seq_bus_core.specs.Tickets.{WholeBus};

    type Out;

    /// The bus that it serves, as it is opened.
    ghost bus: { Self → WholeBus };

    /// What it gives.
    ghost gives: { Self → Self.Out → Type 0 } = { λ _ _. Unit {0} };

    /// Serves the registry, given what its seats share and the seats, numbered from 0.
    fn serve<J: Naming + Send + Sync>(self, shared: Shared<J>, seats: Vec<Seat<J>>) -> Self::Out
        requires bus { J.opening ≡ bus self }
        requires seats { seats.items ≡ fresh_to (J.opening.state.routers + 1) }
        ensures { gives self result };
}

fn begin<J: Naming + Send + Sync, S: Serve, R: Wait>(
    rt: &R,
    alloc: Global,
    opened: NewHistory,
    services: &[WellKnown],
    routers: u8,
    server: S,
) -> Result<S::Out, StartFault>
    requires named { opened ≡ identity J.book J.name J.parts }
    requires bus { J.opening ≡ opening_bus Two routers services.now }
    requires served { S.bus server ≡ opening_bus Two routers services.now }
    ensures given { IfOk result (λ out. S.gives server out) }
    ensures opened { OnOk result (CanOpen routers services.now) }
    ensures routers { IfErr result (λ e. e ≡ Routers →
        (1 ≤ routers) × (routers ≤ max_routers) → ⊥) }
    ensures services { IfErr result (λ e. e ≡ Services →
        (1 ≤ routers) × (routers ≤ max_routers) × (CanOpen routers services.now → ⊥)) }
{
    let (shared, seats) = Shared::<J>::new(rt, alloc, opened, services, routers)?;
    Ok(server.serve::<J>(shared, seats))
}

/// Opens a registry with these services and so many routers, and hands it to the server.
///
/// A server can't start threads, since the check carries no `Send` bound into a method of a trait.
/// A program whose seats run in threads has a function of its own over `J: Naming + Send + Sync`,
/// calls it at `Brand`, and opens the registry there by [`Shared::new`].
pub fn start<S: Serve, R: Wait>(
    rt: &R,
    alloc: Global,
    services: &[WellKnown],
    routers: u8,
    server: S,
) -> Result<S::Out, StartFault>
    requires served { S.bus server ≡ opening_bus Two routers services.now }
    ensures given { IfOk result (λ out. S.gives server out) }
    ensures opened { OnOk result (CanOpen routers services.now) }
    ensures routers { IfErr result (λ e. e ≡ Routers →
        (1 ≤ routers) × (routers ≤ max_routers) → ⊥) }
    ensures services { IfErr result (λ e. e ≡ Services →
        (1 ≤ routers) × (routers ≤ max_routers) × (CanOpen routers services.now → ⊥)) }
{
    begin::<Brand, S, R>(rt, alloc, NewHistory::new(), services, routers, server)
}
