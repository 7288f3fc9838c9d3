//! What no line of a trace says of a bus, worked out by hand: queues of owners by themselves, what
//! a bus can be opened with, the bytes of its answers, batches and what a view counts. Each holds
//! too where any one allocation fails: what was refused is tried once more, as if it had not been
//! tried. What a bus answers to changes, queries and messages are rows of `test_traces`.
//!
//! Beside them stand the three examples of the README, word for word, which end where an allocation
//! fails.
#![tactic(auto)]

#[cfg(test)]
mod batches;
#[cfg(test)]
mod bodies;
#[cfg(test)]
mod example_bus;
#[cfg(test)]
mod example_messages;
#[cfg(test)]
mod openings;
#[cfg(test)]
mod plain;
#[cfg(test)]
mod queues;
#[cfg(test)]
mod views;
