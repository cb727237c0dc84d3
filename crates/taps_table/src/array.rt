ghost use Rattle.std.specs.Prelude.{◌≡◌, ◌<◌, List as Items, ℕ, [], Result};
ghost use Rattle.toml.specs.Data.{Data};
ghost use Rattle.toml.specs.View.{view, array_view};
ghost use Rattle.taps_table.specs.Places.{place_text};
ghost use Rattle.taps_table.specs.Refusals.{Gives, Shows};
ghost use Rattle.taps_table.specs.Values.{array_of, items_after, each};
ghost use Rattle.taps_table.specs.declared.pre_error.PreError.{PreError};

use crate::kind::Kind;
use crate::pre_error::{too_many, wrong_kind};
use crate::{Place, PreError};
use std::alloc::Global;
use taps_base::List;
use toml::Value;
use toml::value::Array;

/// A kind of item of an array, which may look at the items before it.
pub trait Item {
    type Output: Drop;

    ghost reads_item: { Self → Items Self.Output → Items ℕ → Data → Result Self.Output PreError };

    fn read_item(
        &self,
        alloc: Global,
        before: &[Self::Output],
        place: &Place<'_>,
        value: &Value,
    ) -> Result<Self::Output, PreError>
        ensures { Gives result (reads_item self.now before.now (place_text place.now) (view value.now)) };
}

/// Items that are read each by itself.
#[derive(Clone, Copy, Drop)]
pub struct Each<K> {
    pub kind: K,
}

impl<K: Kind> Item for Each<K> {
    type Output = K::Output;

    ghost reads_item = { λ e. each (K.reads e.kind) };

    fn read_item(
        &self,
        alloc: Global,
        _before: &[K::Output],
        place: &Place<'_>,
        value: &Value,
    ) -> Result<K::Output, PreError> {
        self.kind.read(alloc, place, value)
    }
}

/// An array of at most so many items.
#[derive(Clone, Copy, Drop)]
pub struct ArrayOf<K> {
    pub most: u64,
    pub items: K,
}

impl<K: Item> Kind for ArrayOf<K> {
    type Output = List<K::Output>;

    ghost reads = { λ a. array_of a.most (K.reads_item a.items) };

    #[tactic(auto, using(crate::proofs::Documents::count_items_view), unfolding(crate::specs::Values::array_of))]
    fn read(
        &self,
        alloc: Global,
        place: &Place<'_>,
        value: &Value,
    ) -> Result<List<K::Output>, PreError> {
        match value.as_array() {
            None => wrong_kind(alloc, place),
            Some(values) => {
                let count = values.len() as u64;
                if count > self.most {
                    return too_many(alloc, place, count);
                }
                match read_items(alloc, place, values, &self.items) {
                    Ok(read) => Ok(List::from_vec(read)),
                    Err(refused) => Err(refused),
                }
            }
        }
    }
}

fn read_items<K: Item>(
    alloc: Global,
    place: &Place<'_>,
    values: &Array,
    kind: &K,
) -> Result<Vec<K::Output>, PreError>
    ensures { Shows (λ v. v.items) result
        (items_after (K.reads_item kind.now) (place_text place.now) [] (array_view values.now)) }
{
    let mut read = Vec::new(alloc);
    for (index, value) in values.iter().enumerate() {
        let at = Place::Item(&*place, index);
        let next = kind.read_item(alloc, &read, &at, value)?;
        read.push(next)?;
    }
    Ok(read)
}
