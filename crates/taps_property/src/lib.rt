//! What an application asks for: preferences, and the properties that they are about (RFC 9622
//! section 6.2).
#![tactic(auto)]

mod capacity;
mod conn_state;
mod connection_props;
mod direction;
mod entry;
mod kind;
mod message_props;
mod multipath;
mod policy;
mod preference;
mod profile;
mod prop_error;
mod prop_value;
mod property;
mod role;
mod scheduler;
mod selection;
mod stack_property;

pub use capacity::Capacity;
pub use conn_state::ConnState;
pub use connection_props::ConnectionProps;
pub use direction::Direction;
pub use entry::{Entry, is_taken};
pub use kind::{Kind, NoLimit};
pub use message_props::MessageProps;
pub use multipath::Multipath;
pub use policy::Policy;
pub use preference::{Preference, is_met, is_soft_unmet};
pub use profile::Profile;
pub use prop_error::PropError;
pub use prop_value::PropValue;
pub use property::Property;
pub use role::Role;
pub use scheduler::Scheduler;
pub use selection::Selection;
pub use stack_property::StackProperty;
