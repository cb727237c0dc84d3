ghost use Rattle.std.specs.Prelude.{◌≡◌, ◌||◌, List, ℕ, Option, option_map, map, bytes_eq};
ghost use Rattle.std.specs.List.{list_any};
ghost use Rattle.toml.specs.View.{table_view};
ghost use Rattle.taps_table.specs.Places.{place_text};
ghost use Rattle.taps_table.specs.Refusals.{Gives};
ghost use Rattle.taps_table.specs.Keys.{Keys as KeyRules, key as key_rule, known, ◌&◌, keys_of, is_among, least_unknown};

use crate::key::read_value;
use crate::kind::Kind;
use crate::pre_error::unknown_key;
use crate::{Place, PreError};
use std::alloc::Global;
use toml::Table;

/// Some keys of a table, in order.
pub trait Keys {
    type Output: Drop;

    ghost keys: { Self → KeyRules Self.Output };

    fn knows(&self, name: &str) -> bool
        ensures { result ≡ is_among (keys self.now).names name.now };

    fn read(
        &self,
        alloc: Global,
        place: &Place<'_>,
        table: &Table,
    ) -> Result<Self::Output, PreError>
        ensures { Gives result ((keys self.now).reads (place_text place.now) (table_view table.now)) };
}

/// A key and the kind of its value.
#[derive(Clone, Copy, Drop)]
pub struct Named<'a, K> {
    pub name: &'a str,
    pub kind: K,
}

impl<'a, K: Kind> Keys for Named<'a, K> {
    type Output = Option<K::Output>;

    ghost keys = { λ k. key_rule k.name.now (K.reads k.kind) };

    #[tactic(auto, using(crate::proofs::KnownKeys::is_among_one))]
    fn knows(&self, name: &str) -> bool {
        self.name == name
    }

    fn read(
        &self,
        alloc: Global,
        place: &Place<'_>,
        table: &Table,
    ) -> Result<Option<K::Output>, PreError> {
        read_value(alloc, place, table, self.name, &self.kind)
    }
}

/// Some keys, and more after them.
#[derive(Clone, Copy, Drop)]
pub struct And<A, B> {
    pub first: A,
    pub more: B,
}

impl<A: Keys, B: Keys> Keys for And<A, B> {
    type Output = (A::Output, B::Output);

    ghost keys = { λ a. A.keys a.first & B.keys a.more };

    #[tactic(auto, using(crate::proofs::KnownKeys::is_among_append))]
    fn knows(&self, name: &str) -> bool {
        self.first.knows(name) || self.more.knows(name)
    }

    fn read(
        &self,
        alloc: Global,
        place: &Place<'_>,
        table: &Table,
    ) -> Result<(A::Output, B::Output), PreError> {
        let first = self.first.read(alloc, place, table)?;
        let more = self.more.read(alloc, place, table)?;
        Ok((first, more))
    }
}

#[tactic(auto, using(crate::proofs::KnownKeys::ordered))]
fn find_unknown<'a, K: Keys>(table: &'a Table, keys: &K) -> Option<&'a str>
    ensures { option_map (λ k. k.now) result ≡ least_unknown (K.keys keys.now).names (table_view table.now) }
{
    for (key, _value) in table.iter() {
        if !keys.knows(key.as_str()) {
            return Some(key.as_str());
        }
    }
    None
}

/// The names of keys, of which nothing is read.
#[derive(Clone, Copy, Drop)]
pub struct Names<'a> {
    pub names: &'a [&'a str],
}

impl<'a> Keys for Names<'a> {
    type Output = ();

    ghost keys = { λ n. known (map (λ name. name.now) n.names.now) };

    #[tactic(auto, using(crate::proofs::KnownKeys::is_among_names))]
    fn knows(&self, name: &str) -> bool {
        is_one_of(self.names, name)
    }

    fn read(&self, _alloc: Global, _place: &Place<'_>, _table: &Table) -> Result<(), PreError> {
        Ok(())
    }
}

fn is_one_of(names: &[&str], name: &str) -> bool
    ensures { result ≡ list_any (λ n. bytes_eq n.now name.now) names.now }
{
    names.iter().any(|known| *known == name)
}

/// What a table has at these keys. Its least unknown key is refused before.
#[tactic(auto, unfolding(crate::specs::Keys::keys_of))]
pub fn read_keys<K: Keys>(
    alloc: Global,
    place: &Place<'_>,
    table: &Table,
    keys: &K,
) -> Result<K::Output, PreError>
    ensures { Gives result (keys_of (K.keys keys.now) (place_text place.now) (table_view table.now)) }
{
    if let Some(name) = find_unknown(table, keys) {
        return unknown_key(alloc, &Place::Key(place, name));
    }
    keys.read(alloc, place, table)
}

/// What a table has at these keys, where its unknown ones were refused before.
pub fn read_known<K: Keys>(
    alloc: Global,
    place: &Place<'_>,
    table: &Table,
    keys: &K,
) -> Result<K::Output, PreError>
    ensures { Gives result ((K.keys keys.now).reads (place_text place.now) (table_view table.now)) }
{
    keys.read(alloc, place, table)
}

/// Reads a table by its keys, one a line, and binds what stands at each:
/// `read! { read_keys(alloc, place, table); mode = "mode": Word::<Mode>::new(), }`.
/// A line `set: keys,` stands for several keys.
#[macro_export]
macro_rules! read {
    ($read:ident($alloc:expr, $place:expr, $table:expr); $bound:ident = $name:literal: $kind:expr, $($more:tt)*) => {
        $crate::read!(@ $read, $alloc, $place, $table, $crate::Named { name: $name, kind: $kind }, $bound; $($more)*)
    };
    (@ $read:ident, $alloc:expr, $place:expr, $table:expr, $keys:expr, $pattern:tt;) => {
        let $pattern = $crate::$read($alloc, $place, $table, &$keys)?;
    };
    (@ $read:ident, $alloc:expr, $place:expr, $table:expr, $keys:expr, $pattern:tt; $bound:ident = $name:literal: $kind:expr, $($more:tt)*) => {
        $crate::read!(@ $read, $alloc, $place, $table, $crate::And { first: $keys, more: $crate::Named { name: $name, kind: $kind } }, ($pattern, $bound); $($more)*)
    };
    (@ $read:ident, $alloc:expr, $place:expr, $table:expr, $keys:expr, $pattern:tt; $bound:ident: $last:expr, $($more:tt)*) => {
        $crate::read!(@ $read, $alloc, $place, $table, $crate::And { first: $keys, more: $last }, ($pattern, $bound); $($more)*)
    };
}
