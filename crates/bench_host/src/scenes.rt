//! What is measured.

use crate::messages::{ADD_MATCH, CALL, REPLY, TICKED};
use crate::rounds::Round;
use std::alloc::{AllocError, Global};
use test_support::messages::{GET_NAME_OWNER, HELLO};

/// What is measured.
#[derive(Clone, Copy)]
pub enum Scene {
    /// A client calls another, with a body of 16 bytes, and is answered with as many.
    Call,
    /// The same with 1,024 bytes.
    LongCall,
    /// A client sends a signal of 16 bytes, which another has a rule for.
    Signal,
    SignalToTen,
    SignalToHundred,
    /// A client calls GetNameOwner.
    AskOwner,
    /// Time passes over 256 clients that do nothing.
    Tick,
}

/// All that is measured.
pub const SCENES: [Scene; 7] = [
    Scene::Call,
    Scene::LongCall,
    Scene::Signal,
    Scene::SignalToTen,
    Scene::SignalToHundred,
    Scene::AskOwner,
    Scene::Tick,
];

impl Scene {
    pub fn name(self) -> &'static str {
        match self {
            Scene::Call => "a call of 16 bytes and its reply",
            Scene::LongCall => "a call of 1 KiB and its reply",
            Scene::Signal => "a signal to 1",
            Scene::SignalToTen => "a signal to 10",
            Scene::SignalToHundred => "a signal to 100",
            Scene::AskOwner => "GetNameOwner",
            Scene::Tick => "a tick over 256 connections",
        }
    }

    /// How many clients there are.
    pub fn clients(self) -> usize {
        match self {
            Scene::Call | Scene::LongCall | Scene::Signal => 2,
            Scene::SignalToTen => 11,
            Scene::SignalToHundred => 101,
            Scene::AskOwner => 1,
            Scene::Tick => 256,
        }
    }

    /// What a client sends behind Hello, again and again.
    fn message(self, alloc: Global, client: usize) -> Result<Vec<u8>, AllocError> {
        match self {
            Scene::Call => call_or_reply(alloc, client, 16),
            Scene::LongCall => call_or_reply(alloc, client, 1024),
            Scene::Signal | Scene::SignalToTen | Scene::SignalToHundred => match client {
                0 => TICKED.with_body(alloc, 16),
                _ => Vec::from_slice(alloc, ADD_MATCH),
            },
            Scene::AskOwner | Scene::Tick => Vec::from_slice(alloc, GET_NAME_OWNER),
        }
    }

    /// All that a client sends: Hello, and then its message.
    pub fn messages(self, alloc: Global, client: usize) -> Result<Vec<Vec<u8>>, AllocError> {
        let hello = Vec::from_slice(alloc, HELLO)?;
        let message = self.message(alloc, client)?;
        let messages = vec![in alloc; hello, message]?;
        Ok(messages)
    }

    /// What happens again and again.
    pub fn round(self) -> Round {
        let (senders, watched) = match self {
            Scene::Call | Scene::LongCall => (2, 0),
            Scene::Signal => (1, 1),
            Scene::SignalToTen => (1, 10),
            Scene::SignalToHundred => (1, 100),
            Scene::AskOwner => (1, 0),
            Scene::Tick => return Round::Ticks,
        };
        Round::Sends { senders, watched }
    }
}

/// The first client calls the second, with a body of so many bytes, and is answered with as many.
fn call_or_reply(alloc: Global, client: usize, length: u32) -> Result<Vec<u8>, AllocError> {
    match client {
        0 => CALL.with_body(alloc, length),
        _ => REPLY.with_body(alloc, length),
    }
}
