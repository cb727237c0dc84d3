//! The exchange of messages in a session: which socket call comes next, and how it ends.
//!
//! A role is a function from the calls so far, each with its answer, to the next request or the outcome. What the bytes
//! written and the outcomes say is proved of that function.
#![tactic(auto)]

mod accepted;
mod asking;
mod exchanged;
mod heard;
mod laws;
mod outcome;
mod sent;
mod worked;

pub use accepted::accept_all;
pub use asking::ask_once;
pub use exchanged::{Exchanged, exchange, exchange_over};
pub use heard::hear_until;
pub use laws::{vouch_accepting, vouch_alone, vouch_hearing, vouch_outcomes, vouch_unique};
pub use outcome::Outcome;
pub use sent::send_all;
