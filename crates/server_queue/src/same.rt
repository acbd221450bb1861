//! Whether records are the same.
ghost use Rattle.std.specs.Prelude.{◌≡◌, ◌↔◌, IsTrue};

use crate::entry::Entry;
use pps_types::Record;
use std::collections::VecDeque;

pub(crate) fn same_record(one: &Record, other: &Record) -> bool
    ensures { IsTrue result ↔ (one.now ≡ other.now) }
{
    one == other
}

pub(crate) fn same_name(one: &[u8], other: &[u8]) -> bool
    ensures { IsTrue result ↔ (one.now ≡ other.now) }
{
    one == other
}

/// Whether both have the same records in the same order. It takes no memory.
pub(crate) fn same_owed(one: &VecDeque<Entry>, other: &VecDeque<Entry>) -> bool
    ensures { IsTrue result ↔ (one.now.items ≡ other.now.items) }
{
    if one.len() != other.len() {
        return false;
    }
    for i in 0..one.len() {
        if !one[i].same(&other[i]) {
            return false;
        }
    }
    true
}
