//! The protocol stacks that there are, what each offers, and where it leads (RFC 9623).
#![tactic(auto)]

mod stack;
mod target;

pub use stack::{Stack, carries, is_stream, offers};
pub use target::Target;
