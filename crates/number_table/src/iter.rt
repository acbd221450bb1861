//! The values of a table, one after the other.
ghost use Rattle.std.specs.Prelude.{◌≡◌};
ghost use Rattle.std.specs.Iterator.{YieldsFirstBy, item_count};

use crate::index::{Held, Place, first_value};
use slab::Slab;
use std::marker::Model;

/// The values of a table in rising number, seen as the list of those that are left.
#[derive(Drop)]
pub struct Iter<'a, T> {
    pub(crate) values: &'a Slab<Held<T>>,
    pub(crate) index: &'a [Place],
}

impl<'a, T> Model for Iter<'a, T> {
    ghost use Rattle.std.specs.Prelude.{List};
    ghost use Rattle.number_table.specs.Index.{values_in};

    ghost Value = { List T };

    ghost view = { λ it. values_in it.values.now it.index.now };
}

impl<'a, T> Iterator for Iter<'a, T> {
    type Item = &'a T;

    ghost next_gives = { YieldsFirstBy (λ item. item.now) (λ rest. rest) };

    ghost remaining = { item_count (λ rest. rest) };

    fn next(&mut self) -> Option<&'a T> {
        match first_value(self.values, self.index) {
            None => {
                self.index = &[];
                None
            }
            Some(first) => {
                self.index = first.rest;
                Some(first.value)
            }
        }
    }
}
