//! Runs of the program over memory: what clients send in, what the bus writes back, and how the run
//! ends. Each row holds too where any one allocation fails: then it is played once more.
#![tactic(auto)]

#[cfg(test)]
mod devices;
#[cfg(test)]
mod faults;
#[cfg(test)]
mod messages;
#[cfg(test)]
mod rows;
#[cfg(test)]
mod runs;
