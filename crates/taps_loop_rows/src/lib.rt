//! Sessions of both ends over sockets in memory: what the one end heard is a prefix of what the other sent, whatever
//! the file; and rows of the top call in the role `loop`, and of both ends over sockets that are given to them.
#![tactic(auto)]

#[cfg(test)]
mod chain_rows;
#[cfg(test)]
mod direct;
#[cfg(test)]
mod direct_rows;
#[cfg(test)]
mod loop_rows;
#[cfg(test)]
mod refused_rows;
#[cfg(test)]
mod row;
mod running;

pub use running::run_in_memory;
