ghost use Rattle.std.specs.Prelude.{◌≡◌, ◌++◌, ◌∷◌, ◌-◌, ◌<◌, ◌≤◌, ◌+◌, [], length, vec_len, vec_capacity, slice_get, option_map, IsOk, OnOk, OnErr, IfErr};

use crate::NoMemory;
use std::alloc::Global;
use std::marker::Model;

/// Values in a row, with room reserved for more.
///
/// Contracts see the items, and `spare`: the next `spare` pushes cannot fail.
#[derive(Drop)]
pub struct List<T> {
    values: Vec<T>,
    spare: usize,
    ghost room: { vec_len values + spare ≤ vec_capacity values },
}

impl<T> Model for List<T> {
    ghost use Rattle.taps_base.specs.Lists.{ListState};

    ghost Value = { ListState T };

    ghost view = { λ a. record { items = a.values.items; spare = a.spare } };
}

impl<T> List<T> {
    /// An empty list, which takes no memory.
    pub fn new(alloc: Global) -> List<T>
        ensures { result ≡ record { items = []; spare = 0 } }
    {
        List {
            values: Vec::new(alloc),
            spare: 0,
        }
    }

    /// These values, with no copy.
    pub fn from_vec(values: Vec<T>) -> List<T>
        ensures { result ≡ record { items = values.items; spare = 0 } }
    {
        List { values, spare: 0 }
    }

    /// Reserves room for this many more values.
    pub fn reserve(&mut self, more: usize) -> Result<(), NoMemory>
    where
        T: Drop,
        ensures room { OnOk result (more ≤ self.new.spare) }
        ensures kept { self.old.spare ≤ self.new.spare }
        ensures items { self.new.items ≡ self.old.items }
        ensures err { OnErr result (self.new ≡ self.old) }
    {
        self.values.reserve(more)?;
        if self.spare < more {
            self.spare = more;
        }
        Ok(())
    }

    /// Adds a value. Where memory runs out, it is handed back.
    pub fn push(&mut self, value: T) -> Result<(), (NoMemory, T)>
        ensures ok { OnOk result
            (self.new ≡ record { items = self.old.items ++ value ∷ []; spare = self.old.spare - 1 }) }
        ensures err { OnErr result (self.new ≡ self.old) }
        ensures back { IfErr result (λ e. e.1 ≡ value) }
        ensures room { 0 < self.old.spare → IsOk result }
    {
        match self.values.push(value) {
            Ok(()) => {
                self.spare = self.spare.saturating_sub(1);
                Ok(())
            }
            Err(failed) => Err((NoMemory, failed.value)),
        }
    }

    /// Adds a value where room is reserved for it. It takes no memory.
    pub fn add(&mut self, value: T)
    where
        T: Drop,
        requires { 0 < self.old.spare }
        ensures { self.new ≡ record { items = self.old.items ++ value ∷ []; spare = self.old.spare - 1 } }
    {
        match self.push(value) {
            Ok(()) => {}
            Err(_) => unreachable!(),
        }
    }

    /// The number of values.
    pub fn len(&self) -> usize
        ensures { result ≡ length self.now.items }
    {
        self.values.len()
    }

    /// The value at a place, counted from 0.
    pub fn get(&self, place: usize) -> Option<&T>
        ensures { option_map (λ x. x.now) result ≡ slice_get self.now.items place }
    {
        self.values.get(place)
    }

    /// All values, in order.
    pub fn as_slice(&self) -> &[T]
        ensures { result.now ≡ self.now.items }
    {
        self.values.as_slice()
    }

    /// The allocator that the list keeps.
    pub fn allocator(&self) -> Global {
        *self.values.allocator()
    }

    /// All values, in order, with no copy.
    pub fn into_vec(self) -> Vec<T>
        ensures { result.items ≡ self.items }
    {
        let List { values, spare: _ } = self;
        values
    }
}
