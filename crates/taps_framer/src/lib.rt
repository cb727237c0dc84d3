//! What a framer is: which bodies it speaks, how it spells them, and what it sees in bytes.
#![tactic(auto)]

mod boxed;
mod framer;
mod scan;
mod sight;
mod steps;

pub use boxed::{
    advance_in, name_in, read_in, speaks_in, start_in, step_in, unwrap_in, vouch_in, write_in,
};
pub use framer::Framer;
pub use scan::{Run, Scan, Seen};
pub use sight::Sight;
pub use steps::{Steps, look, look_along, look_along_in};
