//! Addresses, and the texts that stand for them.
#![tactic(auto)]

mod address;
mod address_error;
mod bracketed;
mod canonical;
mod derive;
mod fields;
mod hosts;
mod inet4;
mod inet6;
mod local;
mod machine;
mod number;
mod parse;
mod path_bytes;
mod remote;
mod unix;
mod unix_path;
mod with_port;

pub use address::{Address, Family, Ip};
pub use address_error::AddressError;
pub use canonical::write_address;
pub use derive::{DeriveError, derive_addresses};
pub use hosts::Hosts;
pub use local::Local;
pub use parse::{parse_address, parse_ip};
pub use remote::Remote;
pub use unix_path::UnixPath;
