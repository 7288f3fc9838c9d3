//! Seats, and how they catch up with the history.

ghost use Rattle.std.specs.Prelude.{◌≡◌, ◌≤◌, ◌++◌, length, map, take, drop, List, OnOk};
ghost use Rattle.interleave.specs.Logs.{AreLines};
ghost use Rattle.interleave.specs.Playing.{bus_along, making, makings};
ghost use Rattle.interleave_core.specs.Worlds.{Logged, told_from};

use crate::bus::SteppedBus;
use crate::log::{Exchange, LogLine};
use seq_bus_core::Change;
use std::alloc::{AllocError, Global};

/// A change that was published, and by whom.
#[derive(Clone, Copy)]
pub(crate) struct Made<'a> {
    pub(crate) seat: u8,
    pub(crate) change: &'a Change,
}

/// A seat: how much of the history it has seen, and the bus after that.
#[derive(Drop)]
pub(crate) struct Seat {
    pub(crate) seen: usize,
    pub(crate) bus: SteppedBus,
}

impl Seat {
    /// Sees the history up to this place.
    pub(crate) fn catch_up(
        &mut self,
        alloc: Global,
        published: &[Made<'_>],
        place: usize,
    ) -> Result<(), AllocError>
        ensures { OnOk result (self.old.seen ≤ place → place ≤ length published.now →
            self.new ≡ record {
              seen = place;
              bus = bus_along self.old.bus
                  (map making (drop self.old.seen (take place published.now)));
            }) }
    {
        if self.seen <= place && place <= published.len() {
            make_all(alloc, &mut self.bus, &published[self.seen..place])?;
        }
        self.seen = place;
        Ok(())
    }

    /// Publishes changes behind all that was seen, which is all that was published.
    pub(crate) fn publish<'a>(
        &mut self,
        alloc: Global,
        seat: u8,
        changes: &'a [Change],
        published: &mut Vec<Made<'a>>,
        log: &mut Vec<LogLine<'a>>,
    ) -> Result<(), AllocError>
        ensures bus { OnOk result (
            self.new.bus ≡ bus_along self.old.bus (makings seat changes.now)) }
        ensures seen { OnOk result (self.new.seen ≡ length published.new.items) }
        ensures published { OnOk result (map making published.new.items
            ≡ map making published.old.items ++ makings seat changes.now) }
        ensures logged { OnOk result ((lines : List Logged) → AreLines log.old.items lines →
            AreLines log.new.items (lines ++ told_from self.old.bus seat
            (length published.old.items) changes.now)) }
    {
        for change in changes {
            let outcome = self.bus.make(alloc, seat, change)?;
            published.push(Made { seat, change })?;
            log.push(LogLine {
                seat,
                place: published.len(),
                exchange: Exchange::Outcome { change, outcome },
            })?;
        }
        self.seen = published.len();
        Ok(())
    }
}

/// Makes these changes, in order.
fn make_all(alloc: Global, bus: &mut SteppedBus, changes: &[Made<'_>]) -> Result<(), AllocError>
    ensures { OnOk result (bus.new ≡ bus_along bus.old (map making changes.now)) }
{
    for made in changes {
        bus.make(alloc, made.seat, made.change)?;
    }
    Ok(())
}
