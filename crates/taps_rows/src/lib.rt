//! Tests that cross crates: rows of the top call, with files and sinks in memory, chains of the
//! nine framers, and races over scripted sockets.
#![tactic(auto)]

mod any_sockets;
#[cfg(test)]
mod chain_rows;
#[cfg(test)]
mod file_rows;
#[cfg(test)]
mod frame_rows;
#[cfg(test)]
mod gen_rows;
#[cfg(test)]
mod group_rows;
#[cfg(test)]
mod hostile_rows;
#[cfg(test)]
mod memory_rows;
#[cfg(test)]
mod pair_rows;
#[cfg(test)]
mod plain_race;
#[cfg(test)]
mod plan_rows;
#[cfg(test)]
mod race_rows;
#[cfg(test)]
mod row;
#[cfg(test)]
mod script_rows;
#[cfg(test)]
mod session_rows;
#[cfg(test)]
mod sim_rows;
#[cfg(test)]
mod sweep;
#[cfg(test)]
mod there_and_back;
#[cfg(test)]
mod want_of_memory;

pub use any_sockets::winner_of;
