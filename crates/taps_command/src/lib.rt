//! What a command is: the files that it reads, each with its limit and its check, the text and the
//! status that they give, and what it may do to the sockets.
//!
//! A command implements `Command`, or `OneFile` where it reads FILE alone, against a `Meaning` of
//! `specs/`. `run_command` does any command on the files of the arguments: it reads each once and in
//! order, stops at the first that fails its check or cannot be read, writes the text by one write,
//! tells the error output why there is none, and gives the status. What holds of that is stated and
//! proved here once, for every meaning.
#![tactic(auto)]

mod carry;
mod checks;
mod command;
mod ending;
mod error_line;
mod gather;
mod layers;
mod maker;
mod nets;
mod one_file;
mod printed;
mod ready;
mod shelf;
mod status;
mod stop;
mod two_files;

// The shelf, and what the framers on it mean.
pub use layers::Layers;
pub use shelf::{Shelf, chain};

// FILE, by its checks and by the rules of a command.
pub use checks::{FileRules, MOST_BYTES, MOST_FRAMED, check_first, derive};
pub use ready::Ready;
pub use two_files::TwoFiles;

// A command, and what it hands back.
pub use command::Command;
pub use maker::{Maker, run_maker};
pub use one_file::{OneFile, Only};
pub use printed::Printed;
pub use stop::Unready;

// Any command, done.
pub use ending::{run_command, usage};
pub use nets::vouch_untouched;
pub use status::Status;
