//! The commands, one module each.

pub mod frame;
pub mod generate;
pub mod plan;
pub mod run;
pub mod sim;
pub mod unframe;
