//! Both ends of a connection in one program: the end that initiated sends, and the end that was accepted hears.
//!
//! The ends take turns. Which socket call comes next, and how the exchange ends, is one function of the calls so far.
#![tactic(auto)]

mod both;
mod hearing;
mod laws;
mod looked;
mod looped;
mod reporting;
mod rounds;
mod sending;
mod turns;
mod worked;

pub use laws::vouch_loops;
pub use looped::{Looped, loop_over};
pub use reporting::Reporting;
