//! What queries are answered. (D-Bus Specification: "Message Bus Messages")

ghost use Rattle.std.specs.Prelude.{◌≡◌, is_some, option_map, IfOk, IfErr, OnErr};
ghost use Rattle.seq_bus_core.specs.Answers.{NameList, OneName, answer, owner_name, queue_names};
ghost use Rattle.bus_view.specs.Bodies.{Answers};
ghost use Rattle.bus_view.specs.declared.answer.AskFault.TheVariants.{NoMemory};

use crate::listed::NamesOf;
use crate::owners::is_unique;
use crate::registry::Registry;
use bus_view::{AskFault, Asked, append_name, append_owner, append_whether};
use names::{BusName, ConnectionName};
use seq_bus_core::Query;

impl Registry {
    /// Answers a query: appends the body of the reply, in little-endian order as from offset 0 on,
    /// or says that the name has no owner. After a fault, which is want of memory, nothing is
    /// appended.
    pub fn answer(&self, query: &Query, body: &mut Vec<u8>) -> Result<Asked, AskFault>
        ensures answered { IfOk result (λ asked.
            Answers asked (answer self.now query.now) body.old.items body.new.items) }
        ensures fault { IfErr result (λ fault. fault ≡ NoMemory) }
        ensures unanswered { OnErr result (body.new.items ≡ body.old.items) }
    {
        match query {
            Query::GetNameOwner(name) => self.append_owner(name, body),
            Query::NameHasOwner(name) => append_whether(body, self.is_owned(name)),
            Query::ListNames => self.append_list(&NamesOf::All, body),
            Query::ListActivatableNames => self.append_list(&NamesOf::Services, body),
            Query::ListQueuedOwners(name) => self.append_queue(name, body),
        }
    }

    /// Whether a name has an owner. The bus and each connection own their names themselves.
    fn is_owned(&self, name: &BusName) -> bool
        ensures { result ≡ is_some (owner_name self.now name.now) }
    {
        name.is_bus() || self.owner(name).is_some()
    }

    /// Appends the owner of a name by its unique name.
    fn append_owner(&self, name: &BusName, body: &mut Vec<u8>) -> Result<Asked, AskFault>
        ensures answered { IfOk result (λ asked.
            Answers asked (option_map OneName (owner_name self.now name.now))
            body.old.items body.new.items) }
        ensures fault { IfErr result (λ fault. fault ≡ NoMemory) }
        ensures unanswered { OnErr result (body.new.items ≡ body.old.items) }
    {
        if name.is_bus() {
            return append_name(body, name);
        }
        match self.owner(name) {
            Some(number) => append_owner(body, Some(ConnectionName::of(number))),
            None => Ok(Asked::NameHasNoOwner),
        }
    }

    /// Appends the unique names of the owner of a name and of those who wait for it.
    fn append_queue(&self, name: &BusName, body: &mut Vec<u8>) -> Result<Asked, AskFault>
        ensures answered { IfOk result (λ asked.
            Answers asked (option_map NameList (queue_names self.now name.now))
            body.old.items body.new.items) }
        ensures fault { IfErr result (λ fault. fault ≡ NoMemory) }
        ensures unanswered { OnErr result (body.new.items ≡ body.old.items) }
    {
        if name.is_bus() {
            return self.append_list(&NamesOf::Bus, body);
        }
        if is_unique(name.as_str()) {
            return match self.owner(name) {
                Some(number) => self.append_list(&NamesOf::Client(number), body),
                None => Ok(Asked::NameHasNoOwner),
            };
        }
        if self.queue(name.as_str()).is_empty() {
            return Ok(Asked::NameHasNoOwner);
        }
        self.append_list(&NamesOf::Queued(*name), body)
    }
}
