//! The race of a plan's leaves: a pure core that gives commands and takes events, and what carries
//! it out over sockets.
#![tactic(auto)]

mod attempt;
mod attempts;
mod command;
mod establishment;
mod event;
mod events;
mod order;
mod phase;
mod race;
mod racer;

pub use attempt::{Attempt, State};
pub use command::Command;
pub use establishment::establish;
pub use event::{Taken, Told};
pub use events::tell_all;
pub use phase::{Ended, Phase, Racing, Unstarted};
pub use racer::Racer;
pub use taps_socket::RaceAnswer;
