//! Messages that wait to be sent: their queue, when they expire, and the parts of a body (RFC 9622 section 9).
//!
//! `SendQueue` gives messages out in the order in which they were pushed. Each one has a number, its place among the
//! accepted ones. `parts` cuts a body for an application that takes it piece by piece.
#![tactic(auto)]

mod accepted;
mod message;
mod order;
mod part;
mod queue;
mod queued;

pub use message::Message;
pub use order::vouch_order;
pub use part::{Part, PartIter, parts};
pub use queue::SendQueue;
pub use queued::{PushError, Queued};
