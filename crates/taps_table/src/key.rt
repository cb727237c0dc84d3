ghost use Rattle.std.specs.Prelude.{◌≡◌, option_map};
ghost use Rattle.toml.specs.Data.{get_member};
ghost use Rattle.toml.specs.View.{view, table_view};
ghost use Rattle.taps_table.specs.Refusals.{Gives};
ghost use Rattle.taps_table.specs.Keys as spec;
ghost use Rattle.taps_table.specs.Places.{key_text, place_text};

use crate::kind::Kind;
use crate::pre_error::out_of_range;
use crate::{Place, PreError};
use std::alloc::Global;
use toml::{Table, Value};

fn find<'a>(table: &'a Table, key: &str) -> Option<&'a Value>
    ensures { option_map (λ v. view v.now) result ≡ get_member key.now (table_view table.now) }
{
    table.get(key)
}

/// The value of a key that may be missing.
#[tactic(auto, unfolding(crate::specs::Keys::value_at))]
pub fn read_value<K: Kind>(
    alloc: Global,
    place: &Place<'_>,
    table: &Table,
    name: &str,
    kind: &K,
) -> Result<Option<K::Output>, PreError>
    ensures { Gives result (spec.value_at name.now (K.reads kind.now) (place_text place.now) (table_view table.now)) }
{
    match find(table, name) {
        None => Ok(None),
        Some(value) => {
            let at = Place::Key(place, name);
            Ok(Some(kind.read(alloc, &at, value)?))
        }
    }
}

/// A key of the table at this place that has to be there.
#[tactic(auto, unfolding(crate::specs::Keys::present))]
pub fn present<T: Drop>(alloc: Global, place: &Place<'_>, value: Option<T>) -> Result<T, PreError>
    ensures { Gives result (spec.present (place_text place.now) value) }
{
    match value {
        Some(value) => Ok(value),
        None => out_of_range(alloc, place),
    }
}

/// A rule of the value at this place.
#[tactic(auto, unfolding(crate::specs::Keys::rule))]
pub fn rule(alloc: Global, place: &Place<'_>, holds: bool) -> Result<(), PreError>
    ensures { Gives result (spec.rule (place_text place.now) holds) }
{
    if holds {
        Ok(())
    } else {
        out_of_range(alloc, place)
    }
}

/// A rule of a key of the table at this place.
pub fn key_rule(alloc: Global, place: &Place<'_>, key: &str, holds: bool) -> Result<(), PreError>
    ensures { Gives result (spec.rule (key_text (place_text place.now) key.now) holds) }
{
    rule(alloc, &Place::Key(place, key), holds)
}
