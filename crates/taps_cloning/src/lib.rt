//! The clones of a group of connections, and its session behind the first race.
//!
//! Each clone is made by a race of one leaf. Then the members exchange their messages, and all of them are closed.
#![tactic(auto)]

mod founding;
mod held;
mod holding;
mod laws;
mod opening;
mod telling;
mod terms;

pub use held::HeldGroup;
pub use holding::hold_group;
pub use laws::vouch_unique_groups;
pub use opening::open_group;
pub use terms::Terms;
