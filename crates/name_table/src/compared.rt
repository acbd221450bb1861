//! Whether the same stands.
ghost use Rattle.std.specs.Prelude.{◌≡◌, ◌↔◌, IsTrue, map};
ghost use Rattle.name_table.specs.Standing.{known_of};

use crate::named::{NamedDirectory, NamedObject};
use number_table::Iter;

// Whether the same is fixed of both objects.
fn same_fixed(one: &NamedObject, other: &NamedObject) -> bool
    ensures { IsTrue result ↔ (one.now.object ≡ other.now.object) }
{
    one.number == other.number
        && one.directory == other.directory
        && one.nopersist == other.nopersist
        && one.server == other.server
        && one.name() == other.name()
}

// Whether the same is known of both objects.
fn same_object(one: &NamedObject, other: &NamedObject) -> bool
    ensures { IsTrue result ↔ (known_of one.now ≡ known_of other.now) }
{
    same_fixed(one, other) && one.attributes.same(&other.attributes)
}

// Whether both are the same directory.
fn same_directory(one: &NamedDirectory, other: &NamedDirectory) -> bool
    ensures { IsTrue result ↔ (one.now ≡ other.now) }
{
    one.number == other.number && one.path.as_slice() == other.path.as_slice()
}

/// Whether the same is known of these objects, one by one. It takes no memory.
pub(crate) fn same_objects(one: Iter<'_, NamedObject>, other: Iter<'_, NamedObject>) -> bool
    ensures { IsTrue result ↔ (map known_of one.entry ≡ map known_of other.entry) }
{
    let mut ours = one;
    let mut theirs = other;
    while let Some(our) = ours.next() {
        let Some(their) = theirs.next() else {
            return false;
        };
        if !same_object(our, their) {
            return false;
        }
    }
    theirs.next().is_none()
}

/// Whether these are the same directories, one by one. It takes no memory.
pub(crate) fn same_directories(
    one: Iter<'_, NamedDirectory>,
    other: Iter<'_, NamedDirectory>,
) -> bool
    ensures { IsTrue result ↔ (one.entry ≡ other.entry) }
{
    let mut ours = one;
    let mut theirs = other;
    while let Some(our) = ours.next() {
        let Some(their) = theirs.next() else {
            return false;
        };
        if !same_directory(our, their) {
            return false;
        }
    }
    theirs.next().is_none()
}
