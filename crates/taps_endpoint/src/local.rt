use crate::Address;
use taps_base::Name;

/// Where this end is.
#[derive(Debug, Drop)]
pub struct Local {
    /// The interface that it is reached through.
    pub interface: Option<Name>,
    /// The address that it listens on.
    pub address: Option<Address>,
}
