//! Starts of services that end without their names. (D-Bus Specification: "Message Bus Starting
//! Services (Activation)")

ghost use Rattle.std.specs.Prelude.{◌≡◌, ◌<◌, ◌≤◌, ◌+◌, Some, length, OnOk, OnErr};
ghost use Rattle.router_core.specs.declared.limits.TheConstants.{MAX_EFFECTS};
ghost use Rattle.router_core.specs.Answers.{is_final, refusal_of};
ghost use Rattle.router_core.specs.Events.{change_of, ending_child, error_of_end};
ghost use Rattle.router_core.specs.Scripts.{Wanting, RunsTo};
ghost use Rattle.router_core.specs.Serving.{failing, failing_all, failing_if};
ghost use Rattle.router_core.specs.Standing.{Standing};

use crate::context::Context;
use crate::releasing::wants_reply;
use bus_view::{BusView, Cause};
use driver::ReplyTo;
use outbox_core::BusMessage;
use router_core::{Gate, HowEnded, StartEnd};
use seq_bus_core::{Change, Conn, Ending, ErrorKind, Ticket, Tickets};
use std::alloc::AllocError;

/// The end of a start, as a change of the bus.
fn change_of(ended: &StartEnd) -> Change
    ensures { result ≡ change_of ended.now }
{
    let name = ended.name;
    let start = ended.start;
    match ended.how {
        HowEnded::Program(how) => Change::ChildEnded { name, start, how },
        HowEnded::TimedOut => Change::StartTimedOut { name, start },
    }
}

/// What the calls are answered that waited for the service.
fn error_of_end(how: HowEnded) -> ErrorKind
    ensures { result ≡ error_of_end how }
{
    match how {
        HowEnded::Program(Ending::Exit(_)) => ErrorKind::ChildExited,
        HowEnded::Program(Ending::Killed) => ErrorKind::ChildSignaled,
        HowEnded::Program(Ending::NotRun) => ErrorKind::ExecFailed,
        HowEnded::TimedOut => ErrorKind::TimedOut,
    }
}

/// Whether the bus is lost for good: want of memory may pass.
fn is_final(why: Cause) -> bool
    ensures { result ≡ is_final (refusal_of why) }
{
    match why {
        Cause::NoMemory => false,
        Cause::ForeignSeat => true,
        Cause::HistoryFull => true,
        Cause::Gone => true,
    }
}

impl<V: BusView, G: Gate> Context<V, G> {
    /// Answers the call of this serial an error, and shows the monitors the error. Without memory
    /// nobody is told.
    fn tell_failed(&mut self, error: ErrorKind, caller: Conn, serial: u32)
        requires { 0 < self.old.room }
        ensures comes { RunsTo V.BusView G.Gate
            (Wanting (λ granted. failing_if error caller
            (record { caller = Some caller.number; call = serial }) granted))
            self.old.world tt self.new.world }
        ensures room { self.old.room ≤ self.new.room + 1 }
    {
        // No message has the serial 0.
        if serial == 0 {
            return;
        }
        if self.reserve_verdicts(1).is_err() {
            return;
        }
        let to = ReplyTo::new(Some(caller.number), serial);
        self.tell(caller, BusMessage::Error { to, error });
    }

    /// Answers a call that waited why its service did not come.
    fn fail(&mut self, error: ErrorKind, ticket: &Ticket)
        requires { 0 < self.old.room }
        ensures comes { RunsTo V.BusView G.Gate (failing error ticket.now)
            self.old.world tt self.new.world }
        ensures room { self.old.room ≤ self.new.room + 1 }
    {
        if wants_reply(ticket) {
            self.tell_failed(error, ticket.caller, ticket.call.serial);
        }
    }

    /// Answers the calls that waited, in order.
    fn fail_all(&mut self, error: ErrorKind, tickets: Tickets)
        requires { length tickets ≤ self.old.room }
        ensures comes { RunsTo V.BusView G.Gate (failing_all error tickets)
            self.old.world tt self.new.world }
        ensures room { self.old.room ≤ self.new.room + length tickets }
    {
        for settled in tickets {
            self.fail(error, &settled.ticket);
        }
    }

    /// Tells the bus of the end of a start, and those whose calls waited for it. Without memory
    /// nothing changes, and the end is refused.
    pub fn end_start(&mut self, right: &V::Right, ended: &StartEnd) -> Result<(), AllocError>
        requires { MAX_EFFECTS ≤ self.old.room }
        ensures comes { OnOk result ((s : Standing) →
            RunsTo V.BusView G.Gate (ending_child s ended.now) self.old.world s self.new.world) }
        ensures world { OnErr result (self.new.world ≡ self.old.world) }
    {
        match self.change(right, change_of(ended)) {
            Ok(outcome) => {
                self.announce(outcome.signals);
                self.fail_all(error_of_end(ended.how), outcome.tickets);
                Ok(())
            }
            Err(why) => {
                if is_final(why) {
                    return Ok(());
                }
                Err(AllocError)
            }
        }
    }
}
