//! A registry that several routers share: what the lines of a trace don't tell of its seats and the
//! desks over them, one after the other and in threads of their own. A run that one refused
//! allocation has changed is played once more.
#![tactic(auto)]

#[cfg(test)]
mod counting;
#[cfg(test)]
mod first_path;
#[cfg(test)]
mod notes;
#[cfg(test)]
mod players;
#[cfg(test)]
mod publishing;
#[cfg(test)]
mod standings;
#[cfg(test)]
mod threads;
#[cfg(test)]
mod waiting_calls;
