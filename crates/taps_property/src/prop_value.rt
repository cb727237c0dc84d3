ghost use Rattle.std.specs.Prelude.{◌≡◌};
ghost use Rattle.taps_property.specs.Kinds.{taken};

use crate::entry::are_different;
use crate::{
    Capacity, ConnState, Direction, Entry, Kind, Multipath, NoLimit, Policy, Preference, PropError,
    Scheduler,
};
use taps_base::List;

/// The value of a property.
#[derive(Drop)]
pub enum PropValue {
    Pref(Preference),
    Flag(bool),
    Number(u64),
    /// A number, or no limit.
    Limit(Option<u64>),
    Multipath(Multipath),
    Direction(Direction),
    Scheduler(Scheduler),
    Capacity(Capacity),
    Policy(Policy),
    State(ConnState),
    Entries(List<Entry>),
}

/// The greatest number that a property takes.
const MOST: u64 = 4294967295;

/// The most entries of a collection.
const MOST_ENTRIES: usize = 8;

impl PropValue {
    /// The value as a preference.
    pub fn preference(self) -> Result<Preference, PropError>
        ensures { result ≡ taken Kind.Preference self }
    {
        match self {
            PropValue::Pref(preference) => Ok(preference),
            _ => Err(PropError::WrongKind),
        }
    }

    /// The value as a flag.
    pub fn flag(self) -> Result<bool, PropError>
        ensures { result ≡ taken Kind.Flag self }
    {
        match self {
            PropValue::Flag(flag) => Ok(flag),
            _ => Err(PropError::WrongKind),
        }
    }

    /// The value as a number, if it is in range.
    pub fn number(self) -> Result<u64, PropError>
        ensures { result ≡ taken Kind.Number self }
    {
        match self {
            PropValue::Number(number) => {
                if number <= MOST {
                    Ok(number)
                } else {
                    Err(PropError::OutOfRange)
                }
            }
            _ => Err(PropError::WrongKind),
        }
    }

    /// The value as a limit, if it is in range beside this word.
    pub fn limit(self, word: NoLimit) -> Result<Option<u64>, PropError>
        ensures { result ≡ taken (Kind.Limit word) self }
    {
        match self {
            PropValue::Limit(None) => Ok(None),
            PropValue::Limit(Some(number)) => {
                if word.least() <= number && number <= MOST {
                    Ok(Some(number))
                } else {
                    Err(PropError::OutOfRange)
                }
            }
            _ => Err(PropError::WrongKind),
        }
    }

    /// The value as a multipath choice.
    pub fn multipath(self) -> Result<Multipath, PropError>
        ensures { result ≡ taken Kind.Multipath self }
    {
        match self {
            PropValue::Multipath(multipath) => Ok(multipath),
            _ => Err(PropError::WrongKind),
        }
    }

    /// The value as a direction.
    pub fn direction(self) -> Result<Direction, PropError>
        ensures { result ≡ taken Kind.Direction self }
    {
        match self {
            PropValue::Direction(direction) => Ok(direction),
            _ => Err(PropError::WrongKind),
        }
    }

    /// The value as a scheduler.
    pub fn scheduler(self) -> Result<Scheduler, PropError>
        ensures { result ≡ taken Kind.Scheduler self }
    {
        match self {
            PropValue::Scheduler(scheduler) => Ok(scheduler),
            _ => Err(PropError::WrongKind),
        }
    }

    /// The value as a capacity profile.
    pub fn capacity(self) -> Result<Capacity, PropError>
        ensures { result ≡ taken Kind.Capacity self }
    {
        match self {
            PropValue::Capacity(capacity) => Ok(capacity),
            _ => Err(PropError::WrongKind),
        }
    }

    /// The value as a policy.
    pub fn policy(self) -> Result<Policy, PropError>
        ensures { result ≡ taken Kind.Policy self }
    {
        match self {
            PropValue::Policy(policy) => Ok(policy),
            _ => Err(PropError::WrongKind),
        }
    }

    /// The value as a list of entries, if it is in range.
    pub fn entries(self) -> Result<List<Entry>, PropError>
        ensures { result ≡ taken Kind.Entries self }
    {
        match self {
            PropValue::Entries(entries) => {
                if entries.len() <= MOST_ENTRIES && are_different(entries.as_slice()) {
                    Ok(entries)
                } else {
                    Err(PropError::OutOfRange)
                }
            }
            _ => Err(PropError::WrongKind),
        }
    }
}
