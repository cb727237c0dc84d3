ghost use Rattle.std.specs.Prelude.{◌≡◌, List, ℕ};
ghost use Rattle.toml.specs.View.{view, table_view};
ghost use Rattle.taps_table.specs.Places.{place_text};
ghost use Rattle.taps_table.specs.Refusals.{Gives};
ghost use Rattle.taps_table.specs.Values.{table_of};
ghost use Rattle.taps_preconnection.specs.PropertyTables.{fresh_name, entry_at};

use crate::words::Preferences;
use std::alloc::Global;
use taps_base::Name;
use taps_property::{Entry, is_taken};
use taps_table::{
    Item, Kind, NameText, Place, PreError, Word, present, read, read_keys, rule, wrong_kind,
};
use toml::{Table, Value};

/// A name that stands in no earlier entry.
#[derive(Clone, Copy, Drop)]
struct FreshName<'a> {
    before: &'a [Entry],
}

impl<'a> Kind for FreshName<'a> {
    type Output = Name;

    ghost reads = { λ f. fresh_name f.before.now };

    #[tactic(auto, unfolding(crate::specs::PropertyTables::fresh_name))]
    fn read(&self, alloc: Global, place: &Place<'_>, value: &Value) -> Result<Name, PreError> {
        let name = NameText.read(alloc, place, value)?;
        rule(alloc, place, !is_taken(self.before, name.bytes()))?;
        Ok(name)
    }
}

#[tactic(auto, unfolding(crate::specs::PropertyTables::entry_at, taps_table::specs::Keys::keys_of))]
fn read_entry(
    alloc: Global,
    before: &[Entry],
    place: &Place<'_>,
    table: &Table,
) -> Result<Entry, PreError>
    ensures { Gives result (entry_at before.now (place_text place.now) (table_view table.now)) }
{
    read! { read_keys(alloc, place, table);
        name = "name": FreshName { before },
        preference = "preference": Word::<Preferences>::new(),
    }
    let name = present(alloc, place, name)?;
    let preference = present(alloc, place, preference)?;
    Ok(Entry { preference, name })
}

/// The entries of a collection, each of a name of its own.
#[derive(Clone, Copy, Drop)]
pub struct Entries;

impl Item for Entries {
    type Output = Entry;

    ghost reads_item = { λ _ before. table_of (entry_at before) };

    #[tactic(auto, unfolding(taps_table::specs::Values::table_of))]
    fn read_item(
        &self,
        alloc: Global,
        before: &[Entry],
        place: &Place<'_>,
        value: &Value,
    ) -> Result<Entry, PreError> {
        match value.as_table() {
            None => wrong_kind(alloc, place),
            Some(table) => read_entry(alloc, before, place, table),
        }
    }
}
