//! What an application hands in before there is a connection (RFC 9622 section 6), and the file that
//! says it.
#![tactic(auto)]

mod collection;
mod connection;
mod exchange;
mod file;
mod hosts;
mod local;
mod message;
mod message_set;
mod offers;
mod path;
mod preconnection;
mod property_table;
mod race;
mod remote;
mod selections;
mod text;
mod words;

pub use exchange::{Exchange, RunRole};
pub use file::read_preconnection;
pub use message::MessageSpec;
pub use message_set::{MessageSet, apply_set};
pub use path::Path;
pub use preconnection::Preconnection;
pub use race::{Mode, RacePlan};
pub use taps_table::PreError;
