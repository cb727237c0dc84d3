//! The nine framers, each exact to its grammar.
#![tactic(auto)]

mod counted;
mod decimal;
mod head;
mod headed;
mod len16;
mod len32;
mod line;
mod netstring;
mod prefix;
mod room;
mod runs;
mod seq;
mod stuffed;
mod tag;
mod varint;

pub use counted::Counted;
pub use len16::Len16;
pub use len32::Len32;
pub use line::Line;
pub use netstring::Netstring;
pub use seq::Seq;
pub use stuffed::Stuffed;
pub use tag::Tag;
pub use varint::Varint;
