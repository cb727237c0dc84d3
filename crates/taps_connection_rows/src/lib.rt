//! Tests of the public calls of messages and connections: tables of what is accepted, expires and is cut into parts, and of what
//! goes out of a connection and comes into it over scripted sockets, each read by one small interpreter.
#![tactic(auto)]

#[cfg(test)]
mod bench_rows;
#[cfg(test)]
mod connection_rows;
#[cfg(test)]
mod interpreter;
mod long;
#[cfg(test)]
mod made;
mod meeting;
#[cfg(test)]
mod part_rows;
#[cfg(test)]
mod queue_rows;
#[cfg(test)]
mod want_of_memory;

pub use long::LongSockets;
pub use meeting::meet;
