//! The top call: from the arguments of a command line to the text on the output, the line on the
//! error output and the status.
//!
//! `taps_command` says and proves once what holds of any command. Here are the commands: each is one
//! record in `specs/`, which says what it reads and writes, and one module in `commands`, which does
//! so; and their table.
#![tactic(auto)]

mod commands;
mod framing;
mod kind;
mod plan;
mod status;
mod top;

pub use taps_command::Status;
pub use top::run;
