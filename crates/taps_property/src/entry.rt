ghost use Rattle.std.specs.Prelude.{◌≡◌, IfOk};
ghost use Rattle.taps_base.specs.Lists.{filled};
ghost use Rattle.taps_property.specs.Entries as spec;

use crate::Preference;
use taps_base::{List, Name, NoMemory};

/// How much an interface or a provisioning domain is wanted (RFC 9622 sections 6.2.11 and 6.2.12).
#[derive(Debug, Drop)]
pub struct Entry {
    pub preference: Preference,
    pub name: Name,
}

impl Entry {
    /// The same entry once more.
    pub fn copy(&self) -> Result<Entry, NoMemory>
        ensures { IfOk result (λ entry. entry ≡ self.now) }
    {
        Ok(Entry {
            preference: self.preference,
            name: self.name.copy()?,
        })
    }
}

/// Whether one of the entries has this name.
pub fn is_taken(entries: &[Entry], name: &[u8]) -> bool
    ensures { result ≡ spec.is_taken entries.now name.now }
{
    entries.iter().any(|entry| entry.name.bytes() == name)
}

pub(crate) fn are_different(entries: &[Entry]) -> bool
    ensures { result ≡ spec.are_different entries.now }
{
    match entries {
        [] => true,
        [first, rest @ ..] => !is_taken(rest, first.name.bytes()) && are_different(rest),
    }
}

pub(crate) fn copy_of(entries: &List<Entry>) -> Result<List<Entry>, NoMemory>
    ensures { IfOk result (λ copies. copies ≡ filled entries.now.items) }
{
    let mut copies = List::new(entries.allocator());
    for entry in entries.as_slice() {
        match copies.push(entry.copy()?) {
            Ok(()) => {}
            Err(_) => return Err(NoMemory),
        }
    }
    Ok(copies)
}
