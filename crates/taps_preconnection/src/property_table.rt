ghost use Rattle.std.specs.Prelude.{◌≡◌, List, ℕ, Option, Result, bytes_eq};
ghost use Rattle.std.specs.List.{list_any};
ghost use Rattle.toml.specs.View.{view, table_view};
ghost use Rattle.taps_property.specs.Properties.{Key, Becomes, key_names, listed_keys};
ghost use Rattle.taps_property.specs.declared.prop_error.PropError.{PropError};
ghost use Rattle.taps_property.specs.declared.prop_value.PropValue.{PropValue};
ghost use Rattle.taps_table.specs.Keys.{is_among};
ghost use Rattle.taps_table.specs.Places.{place_text};
ghost use Rattle.taps_table.specs.Refusals.{Gives, Shows};
ghost use Rattle.taps_preconnection.specs.PropertyTables.{natural_of, limit_of, property_of, property_at, properties_at, properties};

use crate::collection::Entries;
use crate::words::{Capacities, Directions, Multipaths, Policies, Preferences, Schedulers};
use std::alloc::Global;
use taps_property::{Kind as PropertyKind, NoLimit, PropError, PropValue, Property};
use taps_table::{
    ArrayOf, Flag, Keys, Kind, Place, PreError, Word, out_of_range, read_value, wrong_kind,
};
use toml::{Table, Value};

/// A number, of which the property knows the range.
#[derive(Clone, Copy, Drop)]
struct Natural;

impl Kind for Natural {
    type Output = u64;

    ghost reads = { λ _. natural_of };

    fn read(&self, alloc: Global, place: &Place<'_>, value: &Value) -> Result<u64, PreError> {
        match value.as_integer() {
            None => wrong_kind(alloc, place),
            Some(number) => {
                if number >= 0 {
                    Ok(number as u64)
                } else {
                    out_of_range(alloc, place)
                }
            }
        }
    }
}

/// A number, or the word that stands for no limit.
#[derive(Clone, Copy, Drop)]
struct Limit {
    word: NoLimit,
}

impl Kind for Limit {
    type Output = Option<u64>;

    ghost reads = { λ l. limit_of l.word };

    fn read(
        &self,
        alloc: Global,
        place: &Place<'_>,
        value: &Value,
    ) -> Result<Option<u64>, PreError> {
        match value {
            Value::Integer(number) => {
                if *number >= 0 {
                    Ok(Some(*number as u64))
                } else {
                    out_of_range(alloc, place)
                }
            }
            Value::String(text) => {
                if text.as_str() == self.word.word() {
                    Ok(None)
                } else {
                    out_of_range(alloc, place)
                }
            }
            _ => wrong_kind(alloc, place),
        }
    }
}

/// A value of a property of this kind.
#[derive(Clone, Copy, Drop)]
struct Valued {
    kind: PropertyKind,
}

impl Kind for Valued {
    type Output = PropValue;

    ghost reads = { λ v. property_of v.kind };

    #[tactic(auto, unfolding(crate::specs::PropertyTables::property_of))]
    fn read(&self, alloc: Global, place: &Place<'_>, value: &Value) -> Result<PropValue, PreError> {
        match self.kind {
            PropertyKind::Preference => {
                let preference = Word::<Preferences>::new().read(alloc, place, value)?;
                Ok(PropValue::Pref(preference))
            }
            PropertyKind::Flag => Ok(PropValue::Flag(Flag.read(alloc, place, value)?)),
            PropertyKind::Number => Ok(PropValue::Number(Natural.read(alloc, place, value)?)),
            PropertyKind::Limit(word) => {
                let limit = Limit { word }.read(alloc, place, value)?;
                Ok(PropValue::Limit(limit))
            }
            PropertyKind::Multipath => {
                let multipath = Word::<Multipaths>::new().read(alloc, place, value)?;
                Ok(PropValue::Multipath(multipath))
            }
            PropertyKind::Direction => {
                let direction = Word::<Directions>::new().read(alloc, place, value)?;
                Ok(PropValue::Direction(direction))
            }
            PropertyKind::Scheduler => {
                let scheduler = Word::<Schedulers>::new().read(alloc, place, value)?;
                Ok(PropValue::Scheduler(scheduler))
            }
            PropertyKind::Capacity => {
                let capacity = Word::<Capacities>::new().read(alloc, place, value)?;
                Ok(PropValue::Capacity(capacity))
            }
            PropertyKind::Policy => {
                let policy = Word::<Policies>::new().read(alloc, place, value)?;
                Ok(PropValue::Policy(policy))
            }
            PropertyKind::State => wrong_kind(alloc, place),
            PropertyKind::Entries => {
                let entries = ArrayOf {
                    most: 8,
                    items: Entries,
                }
                .read(alloc, place, value)?;
                Ok(PropValue::Entries(entries))
            }
        }
    }
}

/// A set whose properties are keys of a table.
pub trait PropertySet: Drop {
    ghost keys: { List Key };

    ghost sets: { Self → List ℕ → PropValue → Result Self PropError };

    fn properties() -> &'static [Property]
        ensures { listed_keys result.now ≡ keys };

    fn set_property(&mut self, name: &str, value: PropValue) -> Result<(), PropError>
        ensures { Becomes result self.old self.new (sets self.old name.now value) };
}

/// Sets one property, if the table has it.
#[tactic(auto, unfolding(crate::specs::PropertyTables::property_at))]
fn read_property<S: PropertySet>(
    alloc: Global,
    place: &Place<'_>,
    table: &Table,
    name: &str,
    kind: PropertyKind,
    props: &mut S,
) -> Result<(), PreError>
    ensures { Shows (λ _. props.new) result
        (property_at S.sets (record { name = name.now; kind = kind })
        (place_text place.now) (table_view table.now) props.old) }
{
    match read_value(alloc, place, table, name, &Valued { kind })? {
        None => Ok(()),
        Some(value) => match props.set_property(name, value) {
            Ok(()) => Ok(()),
            Err(_) => out_of_range(alloc, &Place::Key(place, name)),
        },
    }
}

/// Sets each property that the table has, in order.
pub fn read_properties<S: PropertySet>(
    alloc: Global,
    place: &Place<'_>,
    table: &Table,
    props: &mut S,
) -> Result<(), PreError>
    ensures { Shows (λ _. props.new) result
        (properties_at S.sets S.keys (place_text place.now) (table_view table.now) props.old) }
{
    for property in S::properties() {
        read_property(alloc, place, table, property.0, property.1, props)?;
    }
    Ok(())
}

fn is_listed(properties: &[Property], name: &str) -> bool
    ensures { result ≡ list_any (λ p. bytes_eq p.0.now name.now) properties.now }
{
    properties.iter().any(|property| property.0 == name)
}

/// Whether one of the set's properties has this name.
#[tactic(auto, using(crate::proofs::Listed::is_among_properties))]
pub fn has_property<S: PropertySet>(name: &str) -> bool
    ensures { result ≡ is_among (key_names S.keys) name.now }
{
    is_listed(S::properties(), name)
}

/// The keys of a set's properties, which are set over what stood before.
#[derive(Clone, Copy, Drop)]
pub struct Properties<S> {
    pub start: S,
}

impl<S: PropertySet + Copy> Keys for Properties<S> {
    type Output = S;

    ghost keys = { λ p. properties S.sets S.keys p.start };

    fn knows(&self, name: &str) -> bool {
        has_property::<S>(name)
    }

    fn read(&self, alloc: Global, place: &Place<'_>, table: &Table) -> Result<S, PreError> {
        let mut props = self.start;
        read_properties(alloc, place, table, &mut props)?;
        Ok(props)
    }
}
