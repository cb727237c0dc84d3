//! Sockets of which one call fails: each call is passed on to others but the one of a given number, which fails without
//! asking them.
#![tactic(auto)]

mod failing;
mod failure;
mod sockets;

pub use failing::Failing;
