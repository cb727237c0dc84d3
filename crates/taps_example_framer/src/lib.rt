//! A framer of one's own, as `docs/FRAMERS.md` builds it: the packets of a transport stream.
#![tactic(auto)]

mod packet;
#[cfg(test)]
mod rows;

pub use packet::Packet;
