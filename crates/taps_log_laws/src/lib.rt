//! Writing and reading a log are inverses: each line that `taps_text` and `taps_candidate` write is the line of an entry
//! of `taps_log`, which reads it as this entry.
#![tactic(auto)]

mod bounds;
mod laws;
mod lines;
#[cfg(test)]
mod tests;

pub use laws::{vouch_lines, vouch_plan_lines, vouch_texts};
pub use lines::{read_answer, read_item, read_outcome, read_part, read_received, read_sent};
