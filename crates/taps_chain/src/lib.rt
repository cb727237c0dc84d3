//! Chains of boxed framers: a message to bytes and back, and the messages of a stream in any cutting.
#![tactic(auto)]

mod chain;
mod ears;
mod heard;
mod hearing;
mod look;
mod message_list;
mod message_sink;
mod next;
mod progress;
mod stream;
mod whole;
mod wrap;

pub use chain::Chain;
pub use ears::Ears;
pub use heard::{BadAt, FeedError, Heard};
pub use hearing::{Hearing, hear_bytes, hear_pieces};
pub use message_sink::MessageSink;
pub use whole::WholeAnswer;
pub use wrap::WrapError;
