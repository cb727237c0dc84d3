//! A caller of taps as a library, as `docs/LIBRARY.md` explains it: the plan of a file, a race over any
//! sockets, an exchange of messages over the winner's, and messages through a chain of framers.
#![tactic(auto)]

mod client;
mod messages;
mod plan;
mod race;
#[cfg(test)]
mod rows;

pub use client::{Called, call_over};
pub use messages::{DecodeError, decode};
pub use plan::{PlanError, Planned, plan_of_file, text};
pub use race::race_over;
