//! The lines of a log of `taps sim` and `taps run`: what each says.
#![tactic(auto)]

mod line;
mod parts;
mod reader;

pub use line::{Cause, Ending, How, Line, Start};
pub use reader::read_line;
