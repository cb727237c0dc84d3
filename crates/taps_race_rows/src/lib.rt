//! Tests of the public calls from sockets to races: worked races and histories of calls, and tables
//! of what a racer commands and is told, read by one small interpreter.
#![tactic(auto)]

#[cfg(test)]
mod out_of_memory;
#[cfg(test)]
mod racer_rows;
#[cfg(test)]
mod script_rows;
mod worked;

pub use worked::{judge_worked_calls, judge_worked_races, judge_worked_scripts};
