//! Whether names are the same, and their order.
ghost use Rattle.std.specs.Prelude.{◌≡◌, ◌↔◌, ◌+◌, ◌≤◌, IsTrue, length};
ghost use Rattle.pps_types.specs.Names.{name_cmp};
ghost use Rattle.alloc_tree.specs.Entries.{four_bytes, AreFourBytes};

use std::cmp::Ordering;

/// Four bytes of a name, the first counting most.
#[inline(always)]
fn four_at(name: &[u8], at: usize) -> u32
    requires { at + 4 ≤ length name.now }
    ensures value { result ≡ four_bytes name.now at }
    ensures bytes { AreFourBytes name.now at }
{
    let high = u32::from(name[at]) * 256 + u32::from(name[at + 1]);
    let low = u32::from(name[at + 2]) * 256 + u32::from(name[at + 3]);
    high * 65_536 + low
}

/// Whether two names of four to eight bytes are the same.
#[inline(always)]
fn same_ends(one: &[u8], other: &[u8]) -> bool
    requires length { length one.now ≡ length other.now }
    requires least { 4 ≤ length one.now }
    requires most { length one.now ≤ 8 }
    ensures { IsTrue result ↔ (one.now ≡ other.now) }
{
    let last = one.len() - 4;
    four_at(one, 0) == four_at(other, 0) && four_at(one, last) == four_at(other, last)
}

/// Whether two names are the same, at any length.
#[inline(never)]
fn same_bytes(one: &[u8], other: &[u8]) -> bool
    ensures { IsTrue result ↔ (one.now ≡ other.now) }
{
    one == other
}

/// Whether two names are the same.
#[inline(always)]
pub(crate) fn same_name(one: &[u8], other: &[u8]) -> bool
    ensures { IsTrue result ↔ (one.now ≡ other.now) }
{
    if one.len() != other.len() {
        return false;
    }
    if one.len() >= 4 && one.len() <= 8 {
        return same_ends(one, other);
    }
    same_bytes(one, other)
}

/// How many bytes of two names are compared by four at a time. Most names differ within them.
const BEGINNING: usize = 16;

/// The order of two names, by four bytes at a time in their beginning, and behind it by the slices' own comparison, which
/// is the faster one where much is the same.
#[inline(always)]
pub(crate) fn order(one: &[u8], other: &[u8]) -> Ordering
    ensures { result ≡ name_cmp one.now other.now }
{
    let shorter = one.len().min(other.len());
    let both = shorter.min(BEGINNING);
    let mut passed = 0;
    while both - passed >= 4 {
        let mine = four_at(one, passed);
        let others = four_at(other, passed);
        if mine != others {
            return mine.cmp(&others);
        }
        passed += 4;
    }
    one[passed..].cmp(&other[passed..])
}
