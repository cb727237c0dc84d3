/// A text, and whether all of it went well.
#[derive(Debug, Drop)]
pub struct FrameText {
    pub text: Vec<u8>,
    pub whole: bool,
}
