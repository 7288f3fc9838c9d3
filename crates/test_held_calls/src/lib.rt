//! Calls that wait for a service, over a plain bus: what becomes of each, worked out by hand, and
//! how an engine releases them, or answers them where the service does not come.
#![tactic(auto)]

#[cfg(test)]
mod failed;
#[cfg(test)]
mod released;
#[cfg(test)]
mod scene;
#[cfg(test)]
mod waiting_calls;
