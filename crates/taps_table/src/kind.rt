ghost use Rattle.std.specs.Prelude.{◌≡◌, List, ℕ, Result};
ghost use Rattle.toml.specs.Data.{Data, Members};
ghost use Rattle.toml.specs.View.{view, table_view};
ghost use Rattle.taps_table.specs.Places.{place_text};
ghost use Rattle.taps_table.specs.Refusals.{Gives};
ghost use Rattle.taps_table.specs.Values.{number_of, flag_of, table_of};
ghost use Rattle.taps_table.specs.declared.pre_error.PreError.{PreError};

use crate::pre_error::{out_of_range, wrong_kind};
use crate::{Place, PreError};
use std::alloc::Global;
use toml::{Table, Value};

/// A kind of value: what it reads of a TOML value at a place.
pub trait Kind {
    type Output: Drop;

    ghost reads: { Self → List ℕ → Data → Result Self.Output PreError };

    fn read(
        &self,
        alloc: Global,
        place: &Place<'_>,
        value: &Value,
    ) -> Result<Self::Output, PreError>
        ensures { Gives result (reads self.now (place_text place.now) (view value.now)) };
}

/// An integer from low to high.
#[derive(Clone, Copy, Drop)]
pub struct Number {
    pub low: u64,
    pub high: u64,
}

impl Kind for Number {
    type Output = u64;

    ghost reads = { λ n. number_of n.low n.high };

    fn read(&self, alloc: Global, place: &Place<'_>, value: &Value) -> Result<u64, PreError> {
        match value.as_integer() {
            None => wrong_kind(alloc, place),
            Some(number) => {
                if number >= 0 && self.low <= number as u64 && number as u64 <= self.high {
                    Ok(number as u64)
                } else {
                    out_of_range(alloc, place)
                }
            }
        }
    }
}

/// A yes or no.
#[derive(Clone, Copy, Drop)]
pub struct Flag;

impl Kind for Flag {
    type Output = bool;

    ghost reads = { λ _. flag_of };

    fn read(&self, alloc: Global, place: &Place<'_>, value: &Value) -> Result<bool, PreError> {
        match value.as_bool() {
            None => wrong_kind(alloc, place),
            Some(flag) => Ok(flag),
        }
    }
}

/// What is read of a table at a place.
pub trait FromTable {
    type Output: Drop;

    ghost at: { Self → List ℕ → Members → Result Self.Output PreError };

    fn read_table(
        &self,
        alloc: Global,
        place: &Place<'_>,
        table: &Table,
    ) -> Result<Self::Output, PreError>
        ensures { Gives result (at self.now (place_text place.now) (table_view table.now)) };
}

/// A table.
#[derive(Clone, Copy, Drop)]
pub struct Tabled<T> {
    pub table: T,
}

impl<T: FromTable> Kind for Tabled<T> {
    type Output = T::Output;

    ghost reads = { λ t. table_of (T.at t.table) };

    #[tactic(auto, unfolding(crate::specs::Values::table_of))]
    fn read(&self, alloc: Global, place: &Place<'_>, value: &Value) -> Result<T::Output, PreError> {
        match value.as_table() {
            None => wrong_kind(alloc, place),
            Some(table) => self.table.read_table(alloc, place, table),
        }
    }
}
