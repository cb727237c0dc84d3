/// Where the failing call stands among the numbered ones.
#[derive(Clone, Copy, Debug, PartialEq, Eq)]
pub enum Failure {
    /// After so many more.
    Ahead(u64),
    /// It was refused, or failed.
    Past,
    /// It was faulted.
    Faulted,
}
