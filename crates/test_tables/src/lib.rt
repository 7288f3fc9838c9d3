//! Tables of the bus, played call by call, whose answers are worked out by hand. Each run holds too
//! where any one allocation fails: what was refused is tried once more, as if it had not been
//! tried.
#![tactic(auto)]

#[cfg(test)]
mod holders;
#[cfg(test)]
mod index;
#[cfg(test)]
mod listeners;
#[cfg(test)]
mod monitors;
#[cfg(test)]
mod tally;
