use crate::ready::Ready;

/// How far the two files of a command have been read, and what they gave.
#[derive(Drop)]
pub enum TwoFiles<T> {
    /// Neither is read.
    Nothing,
    /// FILE is read.
    File(Ready),
    /// Both are.
    Both(Ready, T),
}
