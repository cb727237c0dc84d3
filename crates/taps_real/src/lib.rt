//! Sockets of the system: TCP, Unix and UDP sockets that do not block, tried in rounds.
#![tactic(auto)]

mod cause;
mod channel;
mod clock;
mod held;
mod real_sockets;
mod room;
mod rounds;
mod socket_table;

pub use real_sockets::RealSockets;
