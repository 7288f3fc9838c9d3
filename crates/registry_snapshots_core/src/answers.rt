//! What a copy of the registry answers, and what it lends.

ghost use Rattle.std.specs.List.{list_any};
ghost use Rattle.std.specs.Prelude.{◌≡◌, ◌≤◌, ◌+◌, is_some, map, option_map, IfOk, IfErr, OnErr};
ghost use Rattle.match_rules.specs.OwnedRules.{rules_by};
ghost use Rattle.match_index.specs.Near.{near_rules};
ghost use Rattle.match_index.specs.RulesOf.{rules_left};
ghost use Rattle.bus_view.specs.Bodies.{Answers};
ghost use Rattle.bus_view.specs.declared.answer.AskFault.TheVariants.{NoMemory as AskNoMemory};
ghost use Rattle.monitor.specs.Laws.{monitors_of};
ghost use Rattle.seq_bus_core.specs.Answers.{answer};
ghost use Rattle.seq_bus_core.specs.BusState.{connection_of, conn_of, head_of, is_monitor, queue_of};
ghost use Rattle.seq_bus_core.specs.Consistency.{IsConsistent, IsWithinLimits};
ghost use Rattle.seq_bus_core.specs.Recipients.{recipients};
ghost use Rattle.registry_core.specs.NameTables.{owned_name};

use crate::snap::Snap;
use bus_view::{AskFault, Asked};
use match_index::{RulesOf, Steps};
use match_rules::Facts;
use monitor::Monitor;
use names::BusName;
use owner_queues::QueuedOwner;
use registry_core::NameEntry;
use seq_bus_core::{Conn, Query, Verdict};
use std::sync::ledger::Ledger;

impl Snap {
    /// Answers a query: appends the body of the reply, in little-endian order as from offset 0 on,
    /// or says that the name has no owner. After a fault, which is want of memory, nothing is
    /// appended.
    pub fn ask(&self, query: &Query, body: &mut Vec<u8>) -> Result<Asked, AskFault>
        ensures answered { IfOk result (λ asked.
            Answers asked (answer self.now.bus query.now) body.old.items body.new.items) }
        ensures fault { IfErr result (λ fault. fault ≡ AskNoMemory) }
        ensures unanswered { OnErr result (body.new.items ≡ body.old.items) }
    {
        self.registry().answer(query, body)
    }

    /// Where a message from this connection goes, 0 being the bus, and which monitors are shown it.
    pub fn route(&self, from: u64, facts: &Facts<'_>) -> Verdict
        ensures { result ≡ recipients self.now.bus from facts.now }
    {
        self.registry().route(from, facts)
    }

    /// The same as `route`, put where there is room for it: a verdict is large, and is not moved.
    pub fn tell_route(&self, from: u64, facts: &Facts<'_>, found: &mut Verdict)
        ensures { found.new ≡ recipients self.now.bus from facts.now }
    {
        self.registry().tell_route(from, facts, found);
    }

    /// The same as `tell_route`, where each rule that is tested is a step. Only rules are tested
    /// whose type, interface, member and first argument are the message's, and whose sender may be
    /// its own.
    pub fn route_into<L: Ledger>(
        &self,
        from: u64,
        facts: &Facts<'_>,
        found: &mut Verdict,
        steps: &mut Steps<L>,
    )
        ensures verdict { found.new ≡ recipients self.now.bus from facts.now }
        ensures cost { steps.new
            ≤ steps.old + near_rules (record facts.now { sender = from }) self.now.bus.rules }
    {
        self.registry().route_into(from, facts, found, steps);
    }

    /// The head of a name: the connection that messages to it are delivered to. The bus itself is
    /// no connection.
    pub fn owner(&self, name: &BusName) -> Option<u64>
        ensures { result ≡ head_of self.now.bus name.now }
    {
        self.registry().owner(name)
    }

    /// Where the connection of this number is reached, if there is one.
    pub fn conn(&self, number: u64) -> Option<Conn>
        ensures { result ≡ option_map conn_of (connection_of self.now.bus number) }
    {
        self.registry().conn(number)
    }

    /// Whether any connection is a monitor.
    pub fn has_monitors(&self) -> bool
        ensures { result ≡ list_any is_monitor self.now.bus.connections }
    {
        self.registry().has_monitors()
    }

    /// Whether there is a connection of this number.
    pub fn present(&self, number: u64) -> bool
        ensures { result ≡ is_some (connection_of self.now.bus number) }
    {
        self.registry().present(number)
    }

    /// The well-known names that have an owner, by rising bytes, each with its queue.
    pub fn names(&self) -> &[Box<NameEntry>]
        ensures { map (λ b. owned_name b.value) result.now ≡ self.now.bus.names }
    {
        self.registry().names()
    }

    /// Who owns a well-known name and who waits for it, in order. It is empty where the name has no
    /// owner. (D-Bus Specification: "org.freedesktop.DBus.ListQueuedOwners")
    pub fn queue(&self, name: &BusName) -> &[QueuedOwner]
        ensures { result.now ≡ queue_of self.now.bus.names name.now }
    {
        self.registry().queue(name.as_str())
    }

    /// The match rules that a connection added, in order of arrival.
    pub fn rules(&self, connection: u64) -> RulesOf<'_>
        ensures { rules_left result ≡ rules_by connection self.now.bus.rules }
    {
        self.registry().rules(connection)
    }

    /// The monitors, by rising number, with their rules.
    pub fn monitors(&self) -> &[Monitor]
        ensures { result.now ≡ monitors_of self.now.bus.connections }
    {
        self.registry().monitors()
    }

    /// The number of routers.
    pub fn routers(&self) -> u8
        ensures value { result ≡ self.now.bus.routers }
        ensures consistent { IsConsistent self.now.bus }
        ensures within_limits { IsWithinLimits self.now.bus }
    {
        self.registry().routers()
    }
}
