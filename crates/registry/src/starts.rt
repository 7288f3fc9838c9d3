//! Starts of services, and the calls that wait for them.
//! (D-Bus Specification: "Message Bus Starting Services (Activation)")

ghost use Rattle.std.specs.Prelude.{◌≡◌, [], IfOk, option_map, option_and_then};
ghost use Rattle.seq_bus_core.specs.BusState.{connection_of, conn_of, head_of};
ghost use Rattle.seq_bus_core.specs.Changes.{no_call};
ghost use Rattle.seq_bus_core.specs.Consistency.{IsConsistent, IsWithinLimits};
ghost use Rattle.seq_bus_core.specs.Steps.{exited_well, fail, has_room_for_ticket, step};
ghost use Rattle.seq_bus_core.specs.declared.change.Change.TheVariants.{Start, Hold, ChildEnded, StartTimedOut};
ghost use Rattle.registry.specs.PreparedChanges.{prepared_on};
ghost use Rattle.registry.specs.Starts.{is_running, number_of_start, start_asked, reply_to_wait, reply_to_start, reply_to_hold, told_to_wait, waited};

use crate::prepared::{Act, Prepared, replied};
use crate::registry::Registry;
use names::BusName;
use registry_core::WaitingTicket;
use seq_bus_core::limits::{MAX_NUMBER, MAX_TICKETS};
use seq_bus_core::{Conn, Ending, Fate, NumberedOutcome, Reply};
use std::alloc::{AllocError, Global};

impl Registry {
    pub(crate) fn prepare_start(
        &self,
        alloc: Global,
        seat: u8,
        connection: u64,
        name: &BusName,
    ) -> Result<Prepared, AllocError>
        ensures { IfOk result (λ prepared. prepared
            ≡ prepared_on self.now seat (Start connection name.now no_call)) }
    {
        let reply = self.reply_to_start(connection, name);
        Ok(Prepared {
            seat,
            act: Act::Start {
                connection,
                name: Box::new(alloc, *name)?,
            },
            outcome: self.told_to_wait(alloc, name, reply),
            caller: self.conn(connection),
        })
    }

    pub(crate) fn prepare_hold(
        &self,
        alloc: Global,
        seat: u8,
        connection: u64,
        name: &BusName,
    ) -> Result<Prepared, AllocError>
        ensures { IfOk result (λ prepared. prepared
            ≡ prepared_on self.now seat (Hold connection name.now no_call [])) }
    {
        let reply = self.reply_to_hold(connection, name);
        Ok(Prepared {
            seat,
            act: Act::Hold {
                connection,
                name: Box::new(alloc, *name)?,
            },
            outcome: self.told_to_wait(alloc, name, reply),
            caller: self.conn(connection),
        })
    }

    pub(crate) fn prepare_child_ended(
        &self,
        alloc: Global,
        seat: u8,
        name: &BusName,
        start: u64,
        how: Ending,
    ) -> Result<Prepared, AllocError>
        ensures { IfOk result (λ prepared. prepared ≡
            prepared_on self.now seat (ChildEnded name.now start how)) }
    {
        let outcome = self.outcome_of_child(alloc, name, start, how)?;
        Ok(Prepared {
            seat,
            act: Act::ChildEnded {
                name: Box::new(alloc, *name)?,
                start,
                how,
            },
            outcome,
            caller: None,
        })
    }

    pub(crate) fn prepare_start_timed_out(
        &self,
        alloc: Global,
        seat: u8,
        name: &BusName,
        start: u64,
    ) -> Result<Prepared, AllocError>
        ensures { IfOk result (λ prepared. prepared ≡
            prepared_on self.now seat (StartTimedOut name.now start)) }
    {
        let outcome = self.outcome_of_failure(alloc, name, start)?;
        Ok(Prepared {
            seat,
            act: Act::StartTimedOut {
                name: Box::new(alloc, *name)?,
                start,
            },
            outcome,
            caller: None,
        })
    }

    /// A connection asks for the start of a service.
    pub(crate) fn start(&mut self, seat: u8, connection: u64, name: &BusName)
        ensures { self.new ≡ (step self.old seat (Start connection name.now no_call)).0 }
    {
        let _ = &self.starts;
        match self.reply_to_start(connection, name) {
            Reply::Held(_) => self.wait(name),
            _ => {}
        }
    }

    /// A call of a connection goes to a name that has no owner.
    pub(crate) fn hold(&mut self, seat: u8, connection: u64, name: &BusName)
        ensures { self.new ≡ (step self.old seat (Hold connection name.now no_call [])).0 }
    {
        let _ = &self.starts;
        match self.reply_to_hold(connection, name) {
            Reply::Held(_) => self.wait(name),
            _ => {}
        }
    }

    /// The program of a start ended.
    pub(crate) fn child_ended(&mut self, seat: u8, name: &BusName, start: u64, how: Ending)
        ensures { self.new ≡ (step self.old seat (ChildEnded name.now start how)).0 }
    {
        if !exited_well(how) {
            self.fail(name, start);
        }
    }

    /// A start failed, if it runs.
    pub(crate) fn fail(&mut self, name: &BusName, start: u64)
        ensures { self.new ≡ (fail self.old name.now start).0 }
    {
        if self.is_running(name, start) {
            self.starts.end(name);
        }
    }

    /// One more call waits for a name, and asks for a start where none of the name runs.
    fn wait(&mut self, name: &BusName)
        requires consistent { IsConsistent (waited self.old name.now) }
        requires within_limits { IsWithinLimits (waited self.old name.now) }
        ensures { self.new ≡ waited self.old name.now }
    {
        let ticket = WaitingTicket {
            name: *name,
            start: self.next_start,
            number: self.next_ticket,
        };
        self.next_start = self.next_start_after(name);
        self.next_ticket += 1;
        self.starts.wait(ticket);
    }

    /// The number of the next start once one more call waits for a name.
    fn next_start_after(&self, name: &BusName) -> u64
        ensures { result ≡ (waited self.now name.now).next_start }
    {
        match self.starts.start_of(name) {
            Some(_) => self.next_start,
            None => self.next_start + 1,
        }
    }

    fn reply_to_start(&self, connection: u64, name: &BusName) -> Reply
        ensures { result ≡ reply_to_start self.now connection name.now }
    {
        if !self.is_client(connection) {
            return Reply::Gone;
        }
        if name.is_bus() || self.owner(name).is_some() {
            return Reply::AlreadyRunning;
        }
        self.reply_to_wait(name)
    }

    fn reply_to_hold(&self, connection: u64, name: &BusName) -> Reply
        ensures { result ≡ reply_to_hold self.now connection name.now }
    {
        if !self.is_client(connection) {
            return Reply::Gone;
        }
        match self.conn_of_owner(name) {
            Some(owner) => Reply::Pass(owner),
            None => self.reply_to_wait(name),
        }
    }

    /// Where the owner of a name is reached.
    fn conn_of_owner(&self, name: &BusName) -> Option<Conn>
        ensures { result ≡ option_map conn_of
            (option_and_then (connection_of self.now) (head_of self.now name.now)) }
    {
        match self.owner(name) {
            Some(number) => self.conn(number),
            None => None,
        }
    }

    /// What a call is told that is to wait for a name.
    fn reply_to_wait(&self, name: &BusName) -> Reply
        ensures { result ≡ reply_to_wait self.now name.now }
    {
        if !self.is_service(name.as_str()) {
            return Reply::ServiceUnknown;
        }
        if self.has_room_for_ticket(name) {
            Reply::Held(self.next_ticket)
        } else {
            Reply::LimitsExceeded
        }
    }

    /// Whether one more call can wait for a name.
    fn has_room_for_ticket(&self, name: &BusName) -> bool
        ensures { result ≡ has_room_for_ticket self.now name.now }
    {
        if self.starts.waiting() >= MAX_TICKETS || self.next_ticket > MAX_NUMBER {
            return false;
        }
        self.starts.start_of(name).is_some() || self.next_start <= MAX_NUMBER
    }

    /// What a call to a name is told: this reply, and which start it asks for, if it waits.
    fn told_to_wait(&self, alloc: Global, name: &BusName, reply: Reply) -> NumberedOutcome
        ensures { result ≡ told_to_wait self.now name.now reply }
    {
        let mut outcome = replied(alloc, reply);
        outcome.start = self.start_asked(name, reply);
        outcome
    }

    fn start_asked(&self, name: &BusName, reply: Reply) -> Option<u64>
        ensures { result ≡ start_asked self.now name.now reply }
    {
        match reply {
            Reply::Held(_) => match self.starts.start_of(name) {
                Some(_) => None,
                None => Some(self.next_start),
            },
            _ => None,
        }
    }

    /// Whether the start of a name runs that has this number.
    fn is_running(&self, name: &BusName, number: u64) -> bool
        ensures { result ≡ is_running self.now name.now number }
    {
        match self.starts.start_of(name) {
            Some(running) => running == number,
            None => false,
        }
    }

    fn outcome_of_child(
        &self,
        alloc: Global,
        name: &BusName,
        start: u64,
        how: Ending,
    ) -> Result<NumberedOutcome, AllocError>
        ensures { IfOk result (λ outcome. outcome ≡
            (step self.now 0 (ChildEnded name.now start how)).1) }
    {
        if exited_well(how) {
            return Ok(replied(alloc, Reply::Ignored));
        }
        self.outcome_of_failure(alloc, name, start)
    }

    /// What is told of a start that failed.
    fn outcome_of_failure(
        &self,
        alloc: Global,
        name: &BusName,
        start: u64,
    ) -> Result<NumberedOutcome, AllocError>
        ensures { IfOk result (λ outcome. outcome ≡ (fail self.now name.now start).1) }
    {
        let _ = &self.starts;
        if !self.is_running(name, start) {
            return Ok(replied(alloc, Reply::Ignored));
        }
        let mut outcome = replied(alloc, Reply::Done);
        self.starts
            .settle(name, Fate::Failed, &mut outcome.tickets)?;
        Ok(outcome)
    }
}

/// Whether a program exited with status 0: it may have started a service that takes the name later.
fn exited_well(how: Ending) -> bool
    ensures { result ≡ exited_well how }
{
    match how {
        Ending::Exit(status) => status == 0,
        Ending::Killed | Ending::NotRun => false,
    }
}
