//! The exchange of a group of connections in a session: its clones, its messages by priority, and its closes.
#![tactic(auto)]

mod addressed;
mod exchanging;
mod hearing;
mod laws;
mod outcome;
mod preparing;
mod sending;
mod talking;
mod told;
mod worked;

pub use addressed::Addressed;
pub use exchanging::{GroupExchanged, exchange_group};
pub use laws::{vouch_groups, vouch_members};
pub use outcome::GroupOutcome;
pub use preparing::prepare_group;
pub use told::Told;
