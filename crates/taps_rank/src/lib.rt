//! What comes first among paths, stacks and addresses that survive: the parts of a rank key, and the
//! turns that address families take (RFC 9623 section 4.1, RFC 8305 section 4).
#![tactic(auto)]

mod key;
mod order;
mod turn;

pub use key::{path_key, stack_key};
pub use order::address_order;
pub use turn::{Turn, Turns};
