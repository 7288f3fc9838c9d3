//! What comes next of a connection.

ghost use Rattle.std.specs.Prelude.{◌≡◌, Option, Ok, true, false, is_some, IfOk, IfSome, OnErr};
ghost use Rattle.names.specs.Texts.{Text};
ghost use Rattle.message_core.specs.Whole.{Lends};
ghost use Rattle.message_core.specs.Said.{said};
ghost use Rattle.driver.specs.Calls.{IsCall};
ghost use Rattle.router_core.specs.Standing.{SpeaksDBus};
ghost use Rattle.router_core.specs.Together.{is_rule_member, may_join, rule_call};
ghost use Rattle.router_steps.specs.Upcoming.{IsComing, IsUpcoming};

use crate::incoming::{More, fill};
use crate::peer::Peer;
use driver::{Call, is_call_to_bus, read_call};
use message_core::Message;
use std::alloc::{AllocError, Global};

/// What comes next of a connection that has a name.
#[derive(Drop)]
pub enum Upcoming {
    /// Nothing yet.
    Waits,
    /// A call that adds or removes a rule, and reads well. It was taken off its bytes.
    Rule(Message, Call),
    /// Something else, which is there still.
    Other,
}

/// Whether a member adds or removes a rule.
fn is_rule_member(member: Option<&str>) -> bool
    ensures { (name : Option Text) → Lends member.entry name → result ≡ is_rule_member name }
{
    match member {
        Some("AddMatch") => true,
        Some("RemoveMatch") => true,
        _ => false,
    }
}

/// Whether its header says of a message that it may be a call that adds or removes a rule.
fn may_join(message: &Message) -> bool
    ensures { result ≡ may_join (said message.now) }
{
    is_call_to_bus(message) && is_rule_member(message.member())
}

/// Whether a call adds or removes a rule.
fn is_rule_call(call: &Call) -> bool
    ensures { result ≡ is_some (rule_call (Ok call.now)) }
{
    matches!(call, Call::AddMatch { .. } | Call::RemoveMatch { .. })
}

/// The call, if it adds or removes a rule, and there is memory to read it. A monitor makes none.
fn read_rule_call(alloc: Global, watches: bool, message: &Message) -> Option<Call>
    ensures client { IfSome result (λ _. watches ≡ false) }
    ensures joins { IfSome result (λ _. may_join (said message.now) ≡ true) }
    ensures call { IfSome result (λ call. IsCall (said message.now) (Ok call)) }
    ensures rule { IfSome result (λ call. is_some (rule_call (Ok call)) ≡ true) }
{
    if watches || !may_join(message) {
        return None;
    }
    let Ok(call) = read_call(alloc, message) else {
        return None;
    };
    if !is_rule_call(&call) {
        return None;
    }
    Some(call)
}

impl Peer {
    /// Whether something comes next of it: a whole message, or what is none. It stays as it was,
    /// also without memory.
    pub fn is_coming(&mut self) -> Result<bool, AllocError>
        requires { SpeaksDBus self.old.stage }
        ensures ok { IfOk result (λ coming. IsComing coming self.old) }
        ensures kept { self.new ≡ self.old }
    {
        match fill(&mut self.pending, &mut self.unread)? {
            More::Waits => Ok(false),
            More::Faulty(_) => Ok(true),
            More::Pending => Ok(true),
        }
    }

    /// What comes next of it. A call that adds or removes a rule and reads well is taken off its
    /// bytes. Without memory nothing changes.
    pub fn take_rule(&mut self) -> Result<Upcoming, AllocError>
        requires { SpeaksDBus self.old.stage }
        ensures ok { IfOk result (λ upcoming. IsUpcoming upcoming self.old self.new) }
        ensures err { OnErr result (self.new ≡ self.old) }
    {
        match fill(&mut self.pending, &mut self.unread)? {
            More::Waits => Ok(Upcoming::Waits),
            More::Faulty(_) => Ok(Upcoming::Other),
            More::Pending => {
                let Some(message) = self.pending.pop_front() else {
                    unreachable!()
                };
                match read_rule_call(self.alloc, self.watches, &message) {
                    Some(call) => Ok(Upcoming::Rule(message, call)),
                    None => {
                        self.pending.push_front_reserved(message);
                        Ok(Upcoming::Other)
                    }
                }
            }
        }
    }
}
