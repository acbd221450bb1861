//! The order of paths.
ghost use Rattle.std.specs.Prelude.{◌≡◌};
ghost use Rattle.pps_types.specs.Names.{path_cmp};

use pps_types::Bytes;
use std::cmp::Ordering;

/// How two paths are ordered: by the first name in which they differ, byte by byte, and a path before what is below it.
pub fn path_order(one: &[Bytes], other: &[Bytes]) -> Ordering
    ensures { result ≡ path_cmp one.now other.now }
{
    let mut ours = one;
    let mut theirs = other;
    while let Some((our, our_rest)) = ours.split_first() {
        let Some((their, their_rest)) = theirs.split_first() else {
            return Ordering::Greater;
        };
        match our.as_slice().cmp(their.as_slice()) {
            Ordering::Less => return Ordering::Less,
            Ordering::Equal => (),
            Ordering::Greater => return Ordering::Greater,
        }
        ours = our_rest;
        theirs = their_rest;
    }
    if theirs.is_empty() {
        Ordering::Equal
    } else {
        Ordering::Less
    }
}
