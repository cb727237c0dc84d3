/// A text is no address text: how many of its first bytes begin one.
#[derive(Clone, Copy, Debug, PartialEq, Eq)]
pub struct AddressError {
    pub place: u64,
}
