//! The table.
ghost use Rattle.std.specs.Prelude.{◌≡◌, ◌+◌, ◌^◌, ◌<◌, ◌≤◌, [], ◌∷◌, ◌++◌, ◌↔◌, length, option_copied, Some, OnOk, OnErr, IfOk, IsSome, IsTrue, is_some};
ghost use Rattle.std.specs.Option.{option_copied_mut};
ghost use Rattle.std.specs.Borrow.{Lends, LendsIf, sem};
ghost use Rattle.number_table.specs.Numbered.{values_of, value_at, entry_of, with_value, most_taken, is_same, IsFoundByValue, LosesEntry, LosesByValue, StaysNumbered, StaysNumberedWith, GivesRoomBack, HasClones, ClonesAreEqual};

use crate::index::{
    Held, NO_HINT, Place, are_same, compact_if_sparse, find_place, find_value, first_value, key_at,
    known_place,
};
use crate::iter::Iter;
use slab::Slab;
use std::alloc::{AllocError, Global};
use std::marker::Model;

/// Values under numbers that rise: values leave in any order, and no number comes twice.
///
/// The values are in a slab, and stay at their keys when others leave; a key that is free is used again. An index has the
/// numbers in rising order, each with its key. A number whose value has left stays in the index until such numbers are
/// more than those with a value and 16 besides: then all of them are dropped at once. So values are found by a binary
/// search of the index, and listed in rising number.
///
/// What is called taken is the length of the index, and room for how many pushes memory was taken ahead, for the index
/// and for the values. A hint says at which place of the index a value may be, as [`place`](Table::place) reported. It is
/// right until numbers are dropped; a wrong one costs the search, and nothing else.
#[derive(Drop)]
pub struct Table<T> {
    index: Vec<Place>,
    values: Slab<Held<T>>,
    next: u64,
}

impl<T> Model for Table<T> {
    ghost use Rattle.std.specs.Prelude.{◌-◌, vec_capacity, vec_len, min};
    ghost use Rattle.number_table.specs.Numbered.{Numbered};

    ghost Value = { Numbered T };

    ghost use Rattle.slab.specs.Slab.{slab_len};
    ghost use Rattle.number_table.specs.Index.{entries_in, slots_in, IsSound};

    ghost view = { λ t. record {
      entries = entries_in (slots_in t.values t.index.items);
      next = t.next;
      taken = vec_len t.index;
      room = min (vec_capacity t.index - vec_len t.index) (t.values.capacity - slab_len t.values);
    } };

    ghost invariant = { λ t. IsSound t.values t.index.items t.next };
}

impl<T> Table<T> {
    /// A table without values, in which this number or a higher one comes first. It takes no memory.
    pub fn new(alloc: Global, next: u64) -> Table<T>
        ensures entries { result.entries ≡ [] }
        ensures next { result.next ≡ next }
        ensures taken { result.taken ≡ 0 }
    {
        Table {
            index: Vec::new(alloc),
            values: Slab::new(alloc),
            next,
        }
    }

    /// How many values there are.
    pub fn len(&self) -> usize
        ensures { result ≡ length self.now.entries }
    {
        self.values.len()
    }

    /// Whether there are no values.
    pub fn is_empty(&self) -> bool
        ensures { IsTrue result ↔ (self.now.entries ≡ []) }
    {
        self.values.is_empty()
    }

    /// The number that a value may have next: each so far was lower.
    pub fn next(&self) -> u64
        ensures { result ≡ self.now.next }
    {
        self.next
    }

    /// Makes room for `n` pushes.
    ///
    /// AllocError comes only where there was not as much room, and leaves the values as they were.
    pub fn reserve(&mut self, n: usize) -> Result<(), AllocError>
        ensures entries { self.new.entries ≡ self.old.entries }
        ensures next { self.new.next ≡ self.old.next }
        ensures taken { self.new.taken ≡ self.old.taken }
        ensures room { OnOk result (n ≤ self.new.room) }
        ensures kept { self.old.room ≤ self.new.room }
        ensures lacking { OnErr result (self.old.room < n) }
    {
        self.index.reserve(n)?;
        self.values.reserve(n)?;
        Ok(())
    }

    /// Adds a value under a number that is above all so far, into room that was made before. It takes no memory.
    pub fn push_reserved(&mut self, number: u64, value: T)
        requires room { 0 < self.old.room }
        requires above { self.old.next ≤ number }
        requires last { number + 1 < 2 ^ 64 }
        ensures entries { self.new.entries ≡ self.old.entries ++ entry_of number value ∷ [] }
        ensures values { values_of self.new ≡ values_of self.old ++ value ∷ [] }
        ensures told { StaysNumberedWith number value self.old self.new }
        ensures next { self.new.next ≡ number + 1 }
        ensures taken { self.new.taken ≡ self.old.taken + 1 }
        ensures room { self.new.room + 1 ≡ self.old.room }
    {
        let key = self.values.insert_reserved(Held { number, value });
        self.index.push_reserved(Place { number, key });
        self.next = number + 1;
    }

    /// The values in rising number. A pass looks at the whole index, so at no more numbers than twice the values and 16.
    pub fn iter(&self) -> Iter<'_, T>
        ensures { result ≡ values_of self.now }
    {
        Iter {
            values: &self.values,
            index: self.index.as_slice(),
        }
    }

    /// The value under a number, if there is one, by a binary search.
    #[inline(always)]
    pub fn get(&self, number: u64) -> Option<&T>
        ensures value { option_copied result ≡ value_at number self.now }
        ensures found { IsFoundByValue number self.now (option_copied result) }
    {
        self.get_near(number, NO_HINT)
    }

    /// The value under a number, if there is one, without a search where the hint is right.
    #[inline(always)]
    pub fn get_near(&self, number: u64, hint: usize) -> Option<&T>
        ensures value { option_copied result ≡ value_at number self.now }
        ensures found { IsFoundByValue number self.now (option_copied result) }
    {
        find_value(&self.values, self.index.as_slice(), number, hint)
    }

    /// At which place of the index the value under a number is, if there is one: a hint for later calls.
    #[inline(always)]
    pub fn place(&self, number: u64) -> Option<usize>
        ensures { is_some result ≡ is_some (value_at number self.now) }
    {
        find_place(&self.values, self.index.as_slice(), number, NO_HINT)
    }
}

impl<T> Table<T> {
    ghost use Rattle.number_table.specs.contracts.table.Table.{the_row};

    /// The value under a number, if there is one, to be changed in place. It takes no memory.
    #[inline(always)]
    pub fn get_mut(&mut self, number: u64) -> Option<&mut T>
        ensures* writes_back { sem 𝓛 (LendsIf (the_row T.row) T.row self.entry result
            (with_value self.old number) self.old) }
        ensures value { option_copied_mut result ≡ value_at number self.old }
    {
        match find_place(&self.values, self.index.as_slice(), number, NO_HINT) {
            None => None,
            Some(place) => {
                let key = key_at(self.index.as_slice(), place);
                Some(self.values[key].value_mut())
            }
        }
    }

    /// The value under a number, which there is, to be changed in place: without a search where the hint is right.
    #[inline(always)]
    pub fn value_mut(&mut self, number: u64, hint: usize) -> &mut T
        requires { IsSome (value_at number self.old) }
        ensures* writes_back { sem 𝓛 (Lends (the_row T.row) T.row self.entry result
            (with_value self.old number)) }
        ensures value { value_at number self.old ≡ Some result.now }
    {
        let place = known_place(&self.values, self.index.as_slice(), number, hint);
        let key = key_at(self.index.as_slice(), place);
        self.values[key].value_mut()
    }
}

impl<T: Drop> Table<T> {
    /// Takes the value under a number out, if there is one.
    ///
    /// It takes no memory. It is a binary search, and now and then a pass over the index that drops numbers, which comes to
    /// at most two numbers for each removal. No other value moves.
    pub fn remove(&mut self, number: u64) -> Option<T>
        ensures value { result ≡ value_at number self.old }
        ensures entries { LosesEntry number self.old self.new }
        ensures next { self.new.next ≡ self.old.next }

        // Where the values tell their numbers.
        ensures found { IsFoundByValue number self.old result }
        ensures values { LosesByValue number self.old self.new }
        ensures told { StaysNumbered self.old self.new }

        // Room comes back.
        ensures dense { self.new.taken ≤ most_taken (length self.new.entries) }
        ensures room { self.old.room ≤ self.new.room }
        ensures back { GivesRoomBack self.old self.new }
        ensures fewer { self.new.taken ≤ self.old.taken }
    {
        let index = self.index.as_slice();
        match find_place(&self.values, index, number, NO_HINT) {
            None => None,
            Some(place) => {
                let held = self.values.remove(key_at(index, place));
                compact_if_sparse(&self.values, &mut self.index);
                Some(held.value)
            }
        }
    }
}

impl<T: Clone + Drop> Table<T> {
    /// A table with a clone of each value under the same number, and no other numbers.
    pub fn copy(&self) -> Result<Table<T>, AllocError>
        ensures clones { IfOk result (λ copy. HasClones T.is_clone self.now copy) }
        ensures entries { ClonesAreEqual T.is_clone
            → IfOk result (λ copy. copy.entries ≡ self.now.entries) }
        ensures next { IfOk result (λ copy. copy.next ≡ self.now.next) }
        ensures taken { IfOk result (λ copy. copy.taken ≡ length self.now.entries) }
    {
        let next = self.next();
        let mut copy = Table::new(*self.index.allocator(), 0);
        copy.reserve(self.values.len())?;
        let mut rest = self.index.as_slice();
        while let Some(first) = first_value(&self.values, rest) {
            copy.push_reserved(first.number, first.value.clone()?);
            rest = first.rest;
        }
        copy.next = next;
        Ok(copy)
    }
}

impl<T: PartialEq> Table<T> {
    /// Whether equal values stand under the same numbers in both, and the same number is next. It takes no memory.
    pub fn same(&self, other: &Table<T>) -> bool
        ensures { result ≡ is_same T.eq self.now other.now }
    {
        self.next == other.next
            && are_same(
                &self.values,
                self.index.as_slice(),
                &other.values,
                other.index.as_slice(),
            )
    }
}
