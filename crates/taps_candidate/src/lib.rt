//! From a Preconnection to the plan of its race: the triples of path, stack and address that survive,
//! in the order in which they are tried (RFC 9623 section 4).
#![tactic(auto)]

mod branches;
mod candidate;
mod leaves;
mod plan;
mod text;

pub use leaves::Leaves;
pub use plan::{Leaf, Plan, build_plan};
pub use taps_base::Gap;
pub use text::{plan_string, plan_text};
