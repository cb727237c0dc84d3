//! The role of a session that listens: connections are accepted one after the other, and each hears messages, and then
//! sends its own.
//!
//! The role is a function from the calls so far, each with its answer, to the next request or the outcome. What the
//! calls say of the end, and that every socket is closed, is proved of that function.
#![tactic(auto)]

mod accepting;
mod answering;
mod laws;
mod listened;
mod listening;
mod service;
mod serving;
mod worked;

pub use laws::{vouch_closed, vouch_ends};
pub use listened::{Answered, ListenEnd, Listened};
pub use listening::listen_over;
pub use service::Service;
