//! Tests of the ways that messages take between threads and to sockets.
#![tactic(auto)]

#[cfg(test)]
mod examples;
#[cfg(test)]
mod lanes_tests;
#[cfg(test)]
mod outbox_tests;
#[cfg(test)]
mod outgoing_tests;
#[cfg(test)]
mod script;
