//! RequestName and ReleaseName.

ghost use Rattle.std.specs.Prelude.{◌≡◌, ◌&&◌, not, [], IfOk, OnErr, OnOk};
ghost use Rattle.owner_queues.specs.Queues.{queue_head};
ghost use Rattle.seq_bus_core.specs.BusState.{is_client, queue_of};
ghost use Rattle.seq_bus_core.specs.Steps.{is_reserved, step};
ghost use Rattle.seq_bus_core.specs.declared.change.Change.TheVariants.{Request, Release};
ghost use Rattle.registry_core.specs.NameTables.{SearchGives};
ghost use Rattle.registry.specs.PreparedChanges.{prepared_on};
ghost use Rattle.registry.specs.Requests.{changed, when_requested, when_released, request_outcome, requeue_outcome, signals_of_owners};

use crate::after::{After, Pending};
use crate::owners::is_unique;
use crate::prepared::{Act, Prepared, replied};
use crate::registry::Registry;
use audience::push_owner_signals;
use names::BusName;
use owner_queues::{Queue, Reply as QueueReply, RequestFlags};
use registry_core::NameTable;
use seq_bus_core::{Fate, NumberedOutcome, Reply, Signals};
use std::alloc::{AllocError, Global};

/// What a request or a release of a name comes to: the change as it is prepared, where the name was
/// found, and the reply of its queue, or why nothing changes.
#[derive(Drop)]
struct Asked {
    prepared: Prepared,
    found: Result<usize, usize>,
    change: Result<QueueReply, Reply>,
}

impl Registry {
    pub(crate) fn prepare_request(
        &self,
        alloc: Global,
        seat: u8,
        connection: u64,
        name: &BusName,
        flags: RequestFlags,
    ) -> Result<Prepared, AllocError>
        ensures { IfOk result (λ prepared. prepared
            ≡ prepared_on self.now seat (Request connection name.now flags)) }
    {
        let asked = self.ask_request(&mut Queue::new(), alloc, seat, connection, name, flags)?;
        Ok(asked.prepared)
    }

    pub(crate) fn prepare_release(
        &self,
        alloc: Global,
        seat: u8,
        connection: u64,
        name: &BusName,
    ) -> Result<Prepared, AllocError>
        ensures { IfOk result (λ prepared. prepared
            ≡ prepared_on self.now seat (Release connection name.now)) }
    {
        let asked = self.ask_release(&mut Queue::new(), alloc, seat, connection, name)?;
        Ok(asked.prepared)
    }

    /// Prepares a request, and makes it here. The name is looked for once.
    pub(crate) fn make_request(
        &mut self,
        queue: &mut Queue,
        alloc: Global,
        seat: u8,
        connection: u64,
        name: &BusName,
        flags: RequestFlags,
    ) -> Result<Prepared, AllocError>
        ensures prepared { IfOk result (λ prepared. prepared
            ≡ prepared_on self.old seat (Request connection name.now flags)) }
        ensures made { OnOk result
            (self.new ≡ (step self.old seat (Request connection name.now flags)).0) }
        ensures same { OnErr result (self.new ≡ self.old) }
    {
        let asked = self.ask_request(queue, alloc, seat, connection, name, flags)?;
        match asked.change {
            Ok(_) => {
                self.names.set_queue_at(asked.found, name, queue);
                self.starts.end(name);
            }
            Err(_) => {}
        }
        Ok(asked.prepared)
    }

    /// The same of a release.
    pub(crate) fn make_release(
        &mut self,
        queue: &mut Queue,
        alloc: Global,
        seat: u8,
        connection: u64,
        name: &BusName,
    ) -> Result<Prepared, AllocError>
        ensures prepared { IfOk result (λ prepared. prepared
            ≡ prepared_on self.old seat (Release connection name.now)) }
        ensures made { OnOk result
            (self.new ≡ (step self.old seat (Release connection name.now)).0) }
        ensures same { OnErr result (self.new ≡ self.old) }
    {
        let asked = self.ask_release(queue, alloc, seat, connection, name)?;
        match asked.change {
            Ok(_) => self.names.set_queue_at(asked.found, name, queue),
            Err(_) => {}
        }
        Ok(asked.prepared)
    }

    /// What a request comes to. The queue becomes the queue of the name after it, where it changes
    /// that.
    fn ask_request(
        &self,
        queue: &mut Queue,
        alloc: Global,
        seat: u8,
        connection: u64,
        name: &BusName,
        flags: RequestFlags,
    ) -> Result<Asked, AllocError>
        ensures prepared { IfOk result (λ asked. asked.prepared
            ≡ prepared_on self.now seat (Request connection name.now flags)) }
        ensures found { IfOk result (λ asked. SearchGives self.now.names name.now asked.found) }
        ensures change { IfOk result (λ asked. changed queue.new asked.change
            ≡ when_requested self.now connection name.now flags) }
    {
        let _ = &self.connections;
        let found = copy_queue(&self.names, name, queue);
        let owner = queue.head();
        let change = self.when_requested(connection, name, found, flags, queue);
        let prepared = Prepared {
            seat,
            act: Act::Request {
                connection,
                name: Box::new(alloc, *name)?,
                flags,
            },
            outcome: self.outcome_of_request(alloc, name, owner, queue, change)?,
            caller: None,
        };
        Ok(Asked {
            prepared,
            found,
            change,
        })
    }

    /// The same of a release.
    fn ask_release(
        &self,
        queue: &mut Queue,
        alloc: Global,
        seat: u8,
        connection: u64,
        name: &BusName,
    ) -> Result<Asked, AllocError>
        ensures prepared { IfOk result (λ asked. asked.prepared
            ≡ prepared_on self.now seat (Release connection name.now)) }
        ensures found { IfOk result (λ asked. SearchGives self.now.names name.now asked.found) }
        ensures change { IfOk result (λ asked. changed queue.new asked.change
            ≡ when_released self.now connection name.now) }
    {
        let _ = &self.connections;
        let found = copy_queue(&self.names, name, queue);
        let owner = queue.head();
        let change = self.when_released(connection, name, queue);
        let prepared = Prepared {
            seat,
            act: Act::Release {
                connection,
                name: Box::new(alloc, *name)?,
            },
            outcome: self.outcome_of_requeue(alloc, name, owner, queue, change)?,
            caller: None,
        };
        Ok(Asked {
            prepared,
            found,
            change,
        })
    }

    /// A connection requests a name. Where it gets into the queue, the start of the name ends.
    ///
    /// Where it owns the name alone, the room is left empty for the next request of a name that
    /// nobody has.
    pub(crate) fn request(&mut self, seat: u8, connection: u64, name: &BusName, flags: RequestFlags)
        ensures { self.new ≡ (step self.old seat (Request connection name.now flags)).0 }
    {
        if !self.may_wait(connection, name) {
            return;
        }
        let found = copy_queue(&self.names, name, &mut self.room);
        let _ = self.room.request(connection, flags, self.profile);
        if self.names.would_fit_at(found, &self.room, connection) {
            self.names.set_queue_at(found, name, &self.room);
            self.starts.end(name);
            self.room.leave(connection);
        }
    }

    /// A connection releases a name.
    pub(crate) fn release(&mut self, seat: u8, connection: u64, name: &BusName)
        ensures { self.new ≡ (step self.old seat (Release connection name.now)).0 }
    {
        if !self.may_wait(connection, name) {
            return;
        }
        let found = copy_queue(&self.names, name, &mut self.room);
        let _ = self.room.release(connection);
        self.names.set_queue_at(found, name, &self.room);
    }

    /// Whether a connection may stand in the queue of a name, as far as that is told by the two.
    fn may_wait(&self, connection: u64, name: &BusName) -> bool
        ensures { result
            ≡ (is_client self.now.connections connection && not (is_reserved name.now)) }
    {
        self.is_client(connection) && !is_reserved(name)
    }

    /// What a request is told of a name that was looked for. The copy of the queue of its name
    /// becomes the queue after it, where it changes that: a queue is large, and is not moved.
    fn when_requested(
        &self,
        connection: u64,
        name: &BusName,
        found: Result<usize, usize>,
        flags: RequestFlags,
        queue: &mut Queue,
    ) -> Result<QueueReply, Reply>
        requires found { SearchGives self.now.names name.now found }
        requires queue { queue.old ≡ queue_of self.now.names name.now }
        ensures { changed queue.new result ≡ when_requested self.now connection name.now flags }
    {
        if !self.is_client(connection) {
            return Err(Reply::Gone);
        }
        if is_reserved(name) {
            return Err(Reply::InvalidName);
        }
        let reply = queue.request(connection, flags, self.profile);
        if self.names.would_fit_at(found, queue, connection) {
            Ok(reply)
        } else {
            Err(Reply::LimitsExceeded)
        }
    }

    /// The same of a release.
    fn when_released(
        &self,
        connection: u64,
        name: &BusName,
        queue: &mut Queue,
    ) -> Result<QueueReply, Reply>
        requires { queue.old ≡ queue_of self.now.names name.now }
        ensures { changed queue.new result ≡ when_released self.now connection name.now }
    {
        if !self.is_client(connection) {
            return Err(Reply::Gone);
        }
        if is_reserved(name) {
            return Err(Reply::InvalidName);
        }
        Ok(queue.release(connection))
    }

    /// What a request is told: where it gets into the queue, the calls that wait for the name are
    /// served.
    fn outcome_of_request(
        &self,
        alloc: Global,
        name: &BusName,
        owner: Option<u64>,
        queue: &Queue,
        change: Result<QueueReply, Reply>,
    ) -> Result<NumberedOutcome, AllocError>
        requires { owner ≡ queue_head (queue_of self.now.names name.now) }
        ensures { IfOk result (λ outcome. outcome
            ≡ request_outcome self.now name.now (changed queue.now change)) }
    {
        let mut outcome = self.outcome_of_requeue(alloc, name, owner, queue, change)?;
        match change {
            Ok(_) => {
                self.starts
                    .settle(name, Fate::Served, &mut outcome.tickets)?;
                Ok(outcome)
            }
            Err(_) => Ok(outcome),
        }
    }

    fn outcome_of_requeue(
        &self,
        alloc: Global,
        name: &BusName,
        owner: Option<u64>,
        queue: &Queue,
        change: Result<QueueReply, Reply>,
    ) -> Result<NumberedOutcome, AllocError>
        requires { owner ≡ queue_head (queue_of self.now.names name.now) }
        ensures { IfOk result (λ outcome. outcome
            ≡ requeue_outcome self.now name.now (changed queue.now change)) }
    {
        match change {
            Ok(reply) => {
                let mut outcome = replied(alloc, Reply::OfQueue(reply));
                self.tell_owners(alloc, name, owner, queue, &mut outcome.signals)?;
                Ok(outcome)
            }
            Err(reply) => Ok(replied(alloc, reply)),
        }
    }

    /// The signals of a name that had this owner, and has another queue.
    fn tell_owners(
        &self,
        alloc: Global,
        name: &BusName,
        owner: Option<u64>,
        queue: &Queue,
        signals: &mut Signals,
    ) -> Result<(), AllocError>
        requires owner { owner ≡ queue_head (queue_of self.now.names name.now) }
        requires empty { signals.old ≡ [] }
        ensures { OnOk result (signals.new ≡ signals_of_owners self.now name.now queue.now) }
    {
        let next = queue.head();
        let after = After {
            registry: self,
            pending: Pending::Requeued { name, queue },
        };
        push_owner_signals(&after, alloc, signals, name, owner, next, &mut ())
    }
}

/// Looks for a name, and makes a copy of its queue out of another queue.
fn copy_queue(names: &NameTable, name: &BusName, copy: &mut Queue) -> Result<usize, usize>
    ensures found { SearchGives names.now name.now result }
    ensures queue { copy.new ≡ queue_of names.now name.now }
{
    let found = names.find(name.as_str());
    match found {
        Ok(place) => copy.copy_from(names.queue_at(place)),
        Err(_) => make_empty(copy),
    }
    found
}

/// Makes a queue empty. Most are empty already, and to clear a queue takes long.
fn make_empty(queue: &mut Queue)
    ensures { queue.new ≡ [] }
{
    if !queue.is_empty() {
        *queue = Queue::new();
    }
}

/// Whether nobody can own a name: it is the bus's own, or a unique one.
fn is_reserved(name: &BusName) -> bool
    ensures { result ≡ is_reserved name.now }
{
    name.is_bus() || is_unique(name.as_str())
}
