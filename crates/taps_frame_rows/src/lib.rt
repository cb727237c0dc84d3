//! Tests of framers and chains by their public calls, and the framers that these tests bring.
#![tactic(auto)]

#[cfg(test)]
mod count_rows;
mod counting;
#[cfg(test)]
mod ears_rows;
#[cfg(test)]
mod framer_rows;
#[cfg(test)]
mod hearing_rows;
#[cfg(test)]
mod hostile_rows;
mod pair;
mod short;

pub use counting::Counting;
pub use pair::Pair;
pub use short::Short;
