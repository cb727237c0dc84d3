//! Sockets in memory: both ends of a few connections, joined by rings of bytes.
#![tactic(auto)]

mod answers;
mod link;
mod links;
mod listening;
mod memory_net;
mod notes;
mod room;
mod side;
mod sockets;
mod worked;

pub use memory_net::MemoryNet;
