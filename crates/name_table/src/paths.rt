//! Paths as lists of names.
ghost use Rattle.std.specs.Prelude.{◌≡◌};
ghost use Rattle.pps_types.specs.Names as names;

use pps_types::Bytes;

/// The path of the directory that holds a path's last name. The root's is the root.
pub fn parent(path: &[Bytes]) -> &[Bytes]
    ensures { result.now ≡ names.parent path.now }
{
    match path.split_last() {
        None => path,
        Some((_, above)) => above,
    }
}

/// A path's last name. The root's is empty.
pub fn last_name(path: &[Bytes]) -> &[u8]
    ensures { result.now ≡ names.last_name path.now }
{
    match path.split_last() {
        None => &[],
        Some((last, _)) => last.as_slice(),
    }
}
