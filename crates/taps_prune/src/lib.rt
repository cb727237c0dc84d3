//! Which paths, stacks and addresses may be tried (RFC 9622 section 6.2, RFC 9623 section 4.1).
#![tactic(auto)]

mod leaf;
mod path;
mod stack;

pub use leaf::{is_reachable, leaf_survives};
pub use path::path_survives;
pub use stack::stack_survives;
