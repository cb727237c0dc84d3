//! Groups of connections over any sockets: clones, shared properties, and which member sends next.
#![tactic(auto)]

mod clone;
mod closes;
mod group;
mod member;
mod next;
mod properties;
mod race;
mod receiving;
mod sending;
mod worked;

pub use clone::CloneError;
pub use closes::close_all;
pub use group::Group;
pub use member::Member;
