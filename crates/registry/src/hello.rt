//! Hello.

ghost use Rattle.std.specs.Prelude.{◌≡◌, IfOk};
ghost use Rattle.seq_bus_core.specs.Steps.{free_slot, is_taken, step};
ghost use Rattle.seq_bus_core.specs.declared.change.Change.TheVariants.{Hello};
ghost use Rattle.registry.specs.Hellos.{next_conn};
ghost use Rattle.registry.specs.PreparedChanges.{prepared_on};

use crate::after::{After, Pending};
use crate::prepared::{Act, Prepared, replied};
use crate::registry::Registry;
use audience::push_owner_signals;
use names::{BusName, UniqueName};
use seq_bus_core::limits::{MAX_CONNECTIONS, MAX_NUMBER};
use seq_bus_core::{Conn, NumberedOutcome, Reply};
use std::alloc::{AllocError, Global};

impl Registry {
    pub(crate) fn prepare_hello(
        &self,
        alloc: Global,
        seat: u8,
        privileged: bool,
    ) -> Result<Prepared, AllocError>
        ensures { IfOk result (λ prepared. prepared
            ≡ prepared_on self.now seat (Hello privileged)) }
    {
        Ok(Prepared {
            seat,
            act: Act::Hello { privileged },
            outcome: self.outcome_of_hello(alloc, seat, privileged)?,
            caller: None,
        })
    }

    fn outcome_of_hello(
        &self,
        alloc: Global,
        seat: u8,
        privileged: bool,
    ) -> Result<NumberedOutcome, AllocError>
        ensures { IfOk result (λ outcome. outcome ≡ (step self.now seat (Hello privileged)).1) }
    {
        let Some(conn) = self.next_conn(seat) else {
            return Ok(replied(alloc, Reply::LimitsExceeded));
        };
        let _ = &self.connections;
        let name = BusName::from(UniqueName::of(conn.number));
        let after = After {
            registry: self,
            pending: Pending::Joined { conn, privileged },
        };
        let mut outcome = replied(alloc, Reply::Welcome(conn));
        let signals = &mut outcome.signals;
        push_owner_signals(
            &after,
            alloc,
            signals,
            &name,
            None,
            Some(conn.number),
            &mut (),
        )?;
        Ok(outcome)
    }

    /// A connection says Hello.
    pub(crate) fn say_hello(&mut self, seat: u8, privileged: bool)
        ensures { self.new ≡ (step self.old seat (Hello privileged)).0 }
    {
        let Some(conn) = self.next_conn(seat) else {
            return;
        };
        self.connections.join(conn, privileged);
        self.next_number += 1;
    }

    /// The connection that a Hello of this seat makes, if it makes one.
    fn next_conn(&self, seat: u8) -> Option<Conn>
        ensures { result ≡ next_conn self.now seat }
    {
        if self.next_number > MAX_NUMBER {
            return None;
        }
        let slot = self.free_slot(seat)?;
        Some(Conn {
            number: self.next_number,
            slot,
            router: seat,
        })
    }

    /// The least slot of the seat's router that no connection has.
    fn free_slot(&self, seat: u8) -> Option<u16>
        ensures { result ≡ free_slot self.now seat }
    {
        if seat == 0 || seat > self.routers {
            return None;
        }
        let count = MAX_CONNECTIONS as u16 / u16::from(self.routers);
        let first = (u16::from(seat) - 1) * count;
        for slot in first..first + count {
            if !self.is_taken(slot) {
                return Some(slot);
            }
        }
        None
    }

    fn is_taken(&self, slot: u16) -> bool
        ensures { result ≡ is_taken self.now slot }
    {
        self.connections.is_taken(slot)
    }
}
