//! Sockets as contracts see them: what stands in a trace, and which traces of a race are lawful.
#![tactic(auto)]

mod answers;
mod cause;
mod item;
mod race_answer;
mod recorder;
mod sockets;
mod timed_call;

pub use answers::{AcceptAnswer, ListenAnswer, RecvAnswer, SendAnswer, StartAnswer, WaitAnswer};
pub use cause::Cause;
pub use item::{How, Item};
pub use race_answer::RaceAnswer;
pub use recorder::Recorder;
pub use sockets::Sockets;
pub use taps_stack::Target;
pub use timed_call::{TimedCall, TimedKind};
