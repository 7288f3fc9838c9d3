//! BecomeMonitor. (D-Bus Specification: "org.freedesktop.DBus.Monitoring.BecomeMonitor")

ghost use Rattle.std.specs.Prelude.{◌≡◌, true, [], map, IfOk, OnOk};
ghost use Rattle.seq_bus_core.specs.BusState.{is_client};
ghost use Rattle.seq_bus_core.specs.Steps.{addressed, signals_of_monitor, step, with_monitor};
ghost use Rattle.seq_bus_core.specs.declared.change.Change.TheVariants.{BecomeMonitor};
ghost use Rattle.registry.specs.Monitors.{reply_to_monitor};
ghost use Rattle.registry.specs.PreparedChanges.{prepared_on};

use crate::after::{After, Pending};
use crate::leave::Departure;
use crate::prepared::{Act, Prepared, replied};
use crate::registry::Registry;
use audience::push_owner_signals;
use names::{BusName, UniqueName};
use seq_bus_core::{MonitorRules, NumberedOutcome, Reply, Signals};
use std::alloc::{AllocError, Global};

impl Registry {
    pub(crate) fn prepare_become_monitor(
        &self,
        alloc: Global,
        seat: u8,
        connection: u64,
        rules: &MonitorRules,
    ) -> Result<Prepared, AllocError>
        ensures { IfOk result (λ prepared.
            prepared ≡ prepared_on self.now seat (BecomeMonitor connection rules.now)) }
    {
        Ok(Prepared {
            seat,
            act: Act::BecomeMonitor {
                connection,
                rules: rules.copy(alloc)?,
            },
            outcome: self.outcome_of_monitor(alloc, seat, connection, rules)?,
            caller: None,
        })
    }

    fn outcome_of_monitor(
        &self,
        alloc: Global,
        seat: u8,
        connection: u64,
        rules: &MonitorRules,
    ) -> Result<NumberedOutcome, AllocError>
        ensures { IfOk result (λ outcome.
            outcome ≡ (step self.now seat (BecomeMonitor connection rules.now)).1) }
    {
        let _ = &self.connections;
        match self.reply_to_monitor(connection) {
            Reply::Done => {
                let mut outcome = replied(alloc, Reply::Done);
                self.tell_of_monitor(alloc, connection, rules, &mut outcome.signals)?;
                Ok(outcome)
            }
            reply => Ok(replied(alloc, reply)),
        }
    }

    /// The signals of a connection that becomes a monitor: those of the names that it owns, and of
    /// its unique name.
    fn tell_of_monitor(
        &self,
        alloc: Global,
        connection: u64,
        rules: &MonitorRules,
        signals: &mut Signals,
    ) -> Result<(), AllocError>
        requires client { is_client self.now.connections connection ≡ true }
        requires empty { signals.old ≡ [] }
        ensures { OnOk result (signals.new
            ≡ map (addressed (with_monitor self.now connection rules.now))
            (signals_of_monitor self.now connection)) }
    {
        let after = After {
            registry: self,
            pending: Pending::Becoming {
                connection,
                rules: rules.as_slice(),
            },
        };
        self.tell_of_names(
            alloc,
            &after,
            Departure::BecomesMonitor,
            connection,
            signals,
        )?;
        let name = BusName::from(UniqueName::of(connection));
        push_owner_signals(
            &after,
            alloc,
            signals,
            &name,
            Some(connection),
            None,
            &mut (),
        )
    }

    /// A connection becomes a monitor. It gives up its names and its rules.
    pub(crate) fn become_monitor(&mut self, seat: u8, connection: u64, rules: &MonitorRules)
        ensures { self.new ≡ (step self.old seat (BecomeMonitor connection rules.now)).0 }
    {
        match self.reply_to_monitor(connection) {
            Reply::Done => {
                self.connections.become_monitor(connection, rules);
                self.names.leave(connection);
                self.rules.drop_owner(connection);
            }
            _ => {}
        }
    }

    fn reply_to_monitor(&self, connection: u64) -> Reply
        ensures { result ≡ reply_to_monitor self.now connection }
    {
        if !self.is_client(connection) {
            return Reply::Gone;
        }
        if self.connections.is_privileged(connection) {
            Reply::Done
        } else {
            Reply::AccessDenied
        }
    }
}
