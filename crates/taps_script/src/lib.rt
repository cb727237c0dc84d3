//! Scripted sockets: the lines of a script, and sockets that answer by them.
#![tactic(auto)]

mod channel;
mod events;
mod incoming;
mod line;
mod line_text;
mod peer;
mod receiving;
mod room;
mod script;
mod script_error;
mod script_race;
mod script_sockets;
mod sending;

pub use line::{Fate, Line, PeerLine};
pub use line_text::number;
pub use script_error::ScriptError;
pub use script_race::vouch_for_script;
pub use script_sockets::ScriptSockets;
