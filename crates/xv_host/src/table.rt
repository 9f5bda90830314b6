//! Values under keys, of which there are sixteen.
ghost use Rattle.std.specs.Prelude.{◌≡◌, ◌<◌, ℕ, true, None, Some, IfOk, IfSome, get_or, IsSome};
ghost use Rattle.std.specs.Prelude.{is_some, option_copied};
ghost use Rattle.std.specs.Prelude.{replicate, slice_set};
ghost use Rattle.std.specs.Borrow.{sem};
ghost use Rattle.xv_host.specs.Places.{IsLeast};

use slab::Slab;
use std::alloc::Global;
use std::marker::Model;
use xv_base::{GuestKey, NoMemory};

/// Sixteen places, each of which has the value of that key or none, and contracts see it as their
/// list. The slab gives its values keys of its own, so that each place names one.
#[derive(Drop)]
pub struct Table<T> {
    values: Slab<T>,
    places: [Option<usize>; 16],
}

impl<T> Model for Table<T> {
    ghost use Rattle.std.specs.Prelude.{List, Option};

    ghost Value = { List (Option T) };

    ghost use Rattle.xv_host.specs.Table.{IsTable, values_at};

    ghost view = { λ table. values_at table.values table.places };

    ghost invariant = { λ table. IsTable table.values table.places };
}

impl<T> Table<T> {
    ghost use Rattle.xv_host.specs.Lending.{lends_value};

    /// A table without values, which has room for sixteen.
    pub fn new(alloc: Global) -> Result<Table<T>, NoMemory>
        ensures empty { IfOk result (λ table. table ≡ replicate 16 None) }
    {
        let values = Slab::with_capacity(alloc, 16)?;
        Ok(Table {
            values,
            places: [None; 16],
        })
    }

    /// The value of a key.
    pub fn get(&self, key: GuestKey) -> Option<&T>
        ensures value { option_copied result ≡ get_or self.now key None }
    {
        let at = self.places[key.0 as usize]?;
        self.values.get(at)
    }

    /// The least key without a value, or None where each has one.
    pub fn least_key(&self) -> Option<GuestKey>
        ensures least { IfSome result (λ key. IsLeast self.now key) }
        ensures full { result ≡ None → (k : ℕ) → k < 16 → is_some (get_or self.now k None) ≡ true }
    {
        for place in 0..16u8 {
            if self.places[place as usize].is_none() {
                return Some(GuestKey(place));
            }
        }
        None
    }

    /// Gives a key a value that has none.
    pub fn put(&mut self, key: GuestKey, value: T)
        requires free { get_or self.old key None ≡ None }
        ensures put { self.new ≡ slice_set self.old key (Some value) }
    {
        let place = key.0 as usize;
        self.places[place] = Some(self.values.insert_reserved(value));
    }

    /// Takes the value of a key away.
    pub fn take(&mut self, key: GuestKey) -> T
        requires live { IsSome (get_or self.old key None) }
        ensures value { get_or self.old key None ≡ Some result }
        ensures taken { self.new ≡ slice_set self.old key None }
    {
        let Some(at) = self.places[key.0 as usize] else {
            unreachable!("the key has a value");
        };
        self.places[key.0 as usize] = None;
        self.values.remove(at)
    }

    /// The value of a key, to be changed.
    pub fn value_mut(&mut self, key: GuestKey) -> &mut T
        requires live { IsSome (get_or self.old key None) }
        ensures* lends { sem 𝓛 (lends_value T.row self.entry key result) }
        ensures value { get_or self.old key None ≡ Some result.now }
    {
        let Some(at) = self.places[key.0 as usize] else {
            unreachable!("the key has a value");
        };
        &mut self.values[at]
    }
}
