//! Every printed line but those of a plan: what stands in a log, and what is said on the error output.
#![tactic(auto)]

mod answer;
mod body;
mod cause;
mod error_line;
mod generated;
mod hex;
mod item;
mod log;
mod member;
mod outcome;
mod part;
mod refusal;
mod summary;

pub use answer::put_answer;
pub use body::{put_frame, put_message, put_part, put_received, put_rest, put_sent};
pub use error_line::{fault_line, no_memory_line, output_fault_line, refused_line, usage_line};
pub use generated::{put_generated_file, put_generated_script};
pub use item::{put_item, put_items};
pub use log::{Log, put_log};
pub use member::MemberLog;
pub use outcome::{Outcome, put_outcome};
pub use refusal::Refusal;
pub use summary::{Summary, put_summary};
