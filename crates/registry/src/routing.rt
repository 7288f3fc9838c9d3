//! Where messages go. (D-Bus Specification: "Message Bus Message Routing")

ghost use Rattle.std.specs.Prelude.{◌≡◌, ◌≤◌, ◌<◌, ◌+◌, [], Some, option_to_list};
ghost use Rattle.match_index.specs.Near.{near_rules};
ghost use Rattle.seq_bus_core.specs.BusState.{is_service};
ghost use Rattle.seq_bus_core.specs.Consistency.{IsConsistent};
ghost use Rattle.seq_bus_core.specs.Recipients.{recipients, conn_at, verdict, verdict_of};
ghost use Rattle.seq_bus_core.specs.declared.verdict.VerdictKind.TheVariants.{Absent};

use crate::current::Current;
use crate::registry::Registry;
use audience::judge;
use match_index::Steps;
use match_rules::Facts;
use seq_bus_core::{Conn, Verdict};
use std::marker::Brand;
use std::sync::ledger::{Blank, Ledger};

impl Registry {
    /// Where a message from this connection goes, 0 being the bus, whatever sender its facts name;
    /// and which monitors are shown it.
    pub fn route(&self, from: u64, facts: &Facts<'_>) -> Verdict
        ensures { result ≡ recipients self.now from facts.now }
    {
        let mut verdict = Verdict::new();
        self.tell_route(from, facts, &mut verdict);
        verdict
    }

    /// The same as `route`, put where there is room for it: a verdict is large, and is not moved.
    pub fn tell_route(&self, from: u64, facts: &Facts<'_>, found: &mut Verdict)
        ensures { found.new ≡ recipients self.now from facts.now }
    {
        route_with::<Brand>(self, from, facts, found, Blank::new(1));
    }

    /// The same as `tell_route`, where each rule that is tested is a step. Only rules are tested
    /// whose type, interface, member and first argument are the message's, and whose sender may be
    /// its own.
    pub fn route_into<L: Ledger>(
        &self,
        from: u64,
        facts: &Facts<'_>,
        found: &mut Verdict,
        steps: &mut Steps<L>,
    )
        ensures verdict { found.new ≡ recipients self.now from facts.now }
        ensures cost { steps.new
            ≤ steps.old + near_rules (record facts.now { sender = from }) self.now.rules }
    {
        found.clear();
        if facts.sender == from {
            self.judge(facts, found, steps);
        } else {
            self.judge_as(from, facts, found, steps);
        }
    }

    /// Where a message goes as from this sender, put where nothing was found yet. The facts are
    /// copied, with room for all their arguments: that is kept out of the way of those that name
    /// their sender.
    #[inline(never)]
    fn judge_as<L: Ledger>(
        &self,
        sender: u64,
        facts: &Facts<'_>,
        found: &mut Verdict,
        steps: &mut Steps<L>,
    )
        requires { found.old ≡ verdict Absent [] [] }
        ensures verdict { found.new ≡ verdict_of self.now (record facts.now { sender = sender }) }
        ensures cost { steps.new
            ≤ steps.old + near_rules (record facts.now { sender = sender }) self.now.rules }
    {
        self.judge(&with_sender(facts, sender), found, steps);
    }

    /// Where a message goes, put where nothing was found yet.
    fn judge<L: Ledger>(&self, facts: &Facts<'_>, found: &mut Verdict, steps: &mut Steps<L>)
        requires { found.old ≡ verdict Absent [] [] }
        ensures verdict { found.new ≡ verdict_of self.now facts.now }
        ensures cost { steps.new ≤ steps.old + near_rules facts.now self.now.rules }
    {
        judge(&Current::new(self), facts, found, steps);
    }

    /// The connection of a number, of which there is one at most.
    pub(crate) fn only_conn(&self, number: u64) -> Option<Conn>
        ensures value { option_to_list result ≡ conn_at self.now (Some number) }
        ensures consistent { IsConsistent self.now }
    {
        let _ = &self.connections;
        self.conn(number)
    }

    /// Whether a name is that of a service.
    pub fn is_service(&self, name: &str) -> bool
        ensures { result ≡ is_service self.now name.now }
    {
        self.services.contains(name)
    }
}

/// Where a message goes, with a counter of its own.
fn route_with<L: Ledger>(
    registry: &Registry,
    from: u64,
    facts: &Facts<'_>,
    found: &mut Verdict,
    blank: Blank,
)
    requires name { blank.name ≡ L.name }
    requires parts { (blank.parts ≡ L.parts) × (0 < L.parts) }
    ensures { found.new ≡ recipients registry.now from facts.now }
{
    let mut steps = Steps::<L>::new(blank);
    registry.route_into(from, facts, found, &mut steps);
}

/// The facts of a message as from this sender.
fn with_sender<'a>(facts: &Facts<'a>, sender: u64) -> Facts<'a>
    ensures { result ≡ record facts.now { sender = sender } }
{
    Facts {
        kind: facts.kind,
        auto_start: facts.auto_start,
        sender,
        path: facts.path,
        interface: facts.interface,
        member: facts.member,
        destination: facts.destination,
        arguments: facts.arguments,
    }
}
