use crate::Stack;
use taps_endpoint::Address;

/// Where an attempt leads: a stack, and an address that it carries.
#[derive(Clone, Copy, Debug, PartialEq, Eq, Hash)]
pub struct Target {
    pub stack: Stack,
    pub address: Address,
}
