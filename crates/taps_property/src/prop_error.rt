/// Why a property was not set, or not told.
#[derive(Clone, Copy, Debug, PartialEq, Eq)]
pub enum PropError {
    /// The set has no property of this name.
    UnknownProperty,
    /// The value is of another kind.
    WrongKind,
    /// The value is outside the property's range.
    OutOfRange,
    /// The property is only read.
    ReadOnly,
    /// Memory ran out.
    NoMemory,
}
