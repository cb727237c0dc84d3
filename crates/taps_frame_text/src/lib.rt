//! Bodies through a chain of framers as text, both ways: their frames, and the messages of bytes.
#![tactic(auto)]

mod frame;
mod message_lines;
#[cfg(test)]
mod tests;
mod text;
mod unframe;

pub use frame::frame_text;
pub use text::FrameText;
pub use unframe::unframe_text;
