use crate::Status;

/// A text to write, and the status with which the command then ends.
#[derive(Debug, Drop)]
pub struct Printed {
    pub text: Vec<u8>,
    pub status: Status,
}
