//! How much an object may hold.
ghost use Rattle.std.specs.Prelude.{◌≡◌, ◌||◌, nat_lt};

use pps_types::limits::{ATTRIBUTES_MAX, TEXT_MAX};

/// Whether so many attributes, or so many bytes of their printing, are more than an object may hold.
#[inline]
pub fn passes_limits(count: usize, text_len: usize) -> bool
    ensures { result ≡ (nat_lt 1024 count || nat_lt 65536 text_len) }
{
    count > ATTRIBUTES_MAX || text_len > TEXT_MAX
}
