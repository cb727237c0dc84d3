//! The session of a file, from its plan to its log: over any sockets, in each role.
//!
//! As a definition a session is a list of calls on sockets, and its log is a function of them. The code reserves all items before
//! the first call, races, listens or does both, lets the exchange of messages run, and closes every socket.
#![tactic(auto)]

mod grouping;
mod holding;
mod initiating;
mod looping;
mod messages;
mod plan;
mod preparing;
mod serving;
mod session;
mod session_log;
mod status;

pub use initiating::hold_initiated;
pub use plan::{initiate, text};
pub use session::Session;
pub use session_log::{session_text, simulate};
pub use status::status_after;
