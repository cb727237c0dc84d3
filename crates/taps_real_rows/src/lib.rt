//! Tests of sockets of the system over the loopback: what the system answers to them, words there and
//! back, and that no descriptor is left.
#![tactic(auto)]

#[cfg(test)]
mod bench_rows;
#[cfg(test)]
mod loopback_rows;
#[cfg(test)]
mod pair_rows;
