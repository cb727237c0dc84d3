//! What connections over sockets in memory hear of each other, and tests of listeners and of both ends of a connection:
//! tables that small interpreters read.
#![tactic(auto)]

#[cfg(test)]
mod bench_rows;
#[cfg(test)]
mod carry;
#[cfg(test)]
mod chain_rows;
#[cfg(test)]
mod ends;
mod hear;
#[cfg(test)]
mod listener_rows;
#[cfg(test)]
mod made;
#[cfg(test)]
mod turns;

pub use hear::heard_over_memory;
