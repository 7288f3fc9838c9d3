//! Routers of one bus in threads of their own, over sockets in memory.
//!
//! A scenario says what happens to each router, step by step: clients connect, send something, hang
//! up; a step may wait until another client received something. It is run by `routers::serve`, and
//! what each client received is told. No step waits for a clock, but a bus that gets no further
//! fails after twenty seconds.
#![tactic(auto)]

#[cfg(test)]
mod client;
#[cfg(test)]
mod client_message;
#[cfg(test)]
mod endings;
#[cfg(test)]
mod gate;
#[cfg(test)]
mod mail;
#[cfg(test)]
mod playing;
#[cfg(test)]
mod progress;
#[cfg(test)]
mod scenario;
#[cfg(test)]
mod source;
#[cfg(test)]
mod stopper;
#[cfg(test)]
mod trace_sink;
#[cfg(test)]
mod traced;
