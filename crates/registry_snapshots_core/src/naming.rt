//! Which registry it is.

use std::marker::Brand;
use std::sync::ledger::Ledger;

/// Which registry it is: its history, the ledger in which its seats count the changes that they
/// make, and the bus that it was opened as.
///
/// Each call of `start` of `registry_snapshots` picks its own, as does each call of a function over
/// `J: Naming` at `Brand`.
pub trait Naming: Ledger {
    ghost use Rattle.logbook.specs.Pages.{Book};
    ghost use Rattle.seq_bus_core.specs.Tickets.{WholeBus};

    /// Its history.
    ghost book: { Book };

    /// The bus before the first change.
    ghost opening: { WholeBus };
}

impl Naming for Brand {
    ghost use Rattle.std.specs.Prelude.{[]};
    ghost use Rattle.owner_queues.specs.declared.request.Profile.TheVariants.{One};
    ghost use Rattle.seq_bus_core.specs.Tickets.{opening_bus};

    ghost book = { record { number = 0; log_name = 0; cells_name = 0 } };

    ghost opening = { opening_bus One 1 [] };
}
