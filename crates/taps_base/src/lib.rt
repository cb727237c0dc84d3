//! What every layer stands on: out of memory, lists, bodies, names, delays between attempts, files and
//! sinks.
#![tactic(auto)]

mod body;
mod files;
mod gap;
mod list;
mod memory_files;
mod memory_sink;
mod name;
mod no_memory;
mod real_files;
mod sink;
mod std_sink;
#[cfg(test)]
mod tests;

pub use body::Body;
pub use files::{FileAnswer, Files};
pub use gap::Gap;
pub use list::List;
pub use memory_files::MemoryFiles;
pub use memory_sink::MemorySink;
pub use name::{Name, NameError};
pub use no_memory::NoMemory;
pub use real_files::RealFiles;
pub use sink::{Sink, SinkAnswer};
pub use std_sink::StdSink;
