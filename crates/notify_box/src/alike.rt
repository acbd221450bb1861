//! Whether the parts of two outboxes are alike.
ghost use Rattle.std.specs.Prelude.{◌≡◌, ◌↔◌, IsTrue};

use crate::armed::Armed;
use pps_types::{Handle, Item};
use std::collections::VecDeque;

fn same_item(one: &Item, other: &Item) -> bool
    ensures { IsTrue result ↔ (one.now ≡ other.now) }
{
    one == other
}

pub(crate) fn same_items(one: &VecDeque<Item>, other: &VecDeque<Item>) -> bool
    ensures { IsTrue result ↔ (one.now.items ≡ other.now.items) }
{
    if one.len() != other.len() {
        return false;
    }
    for i in 0..one.len() {
        if !same_item(&one[i], &other[i]) {
            return false;
        }
    }
    true
}

pub(crate) fn same_armed(one: &[Armed], other: &[Armed]) -> bool
    ensures { IsTrue result ↔ (one.now ≡ other.now) }
{
    one == other
}

pub(crate) fn same_parked(one: &[Handle], other: &[Handle]) -> bool
    ensures { IsTrue result ↔ (one.now ≡ other.now) }
{
    one == other
}
