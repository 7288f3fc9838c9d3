//! Calls whose changes are made together.

use driver::HeldRule;
use message_core::Message;
use seq_bus_core::Conn;

/// A call that adds or removes a rule.
#[derive(Drop)]
pub enum RuleCall {
    Adds(HeldRule),
    Removes(HeldRule),
}

/// Such a call of the connection of a key, whose change is not made yet.
#[derive(Drop)]
pub struct Joint {
    pub key: usize,
    pub message: Message,
    pub caller: Conn,
    pub call: RuleCall,
}
