//! Worlds, step by step: rows whose logs are worked out by hand, and steps taken at random, whose
//! logs are compared with those of a bus that is stepped through the history once.
#![tactic(auto)]

#[cfg(test)]
mod plain;
#[cfg(test)]
mod random;
#[cfg(test)]
mod rows;
#[cfg(test)]
mod samples;
