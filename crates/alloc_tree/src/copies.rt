//! Copies of names and of paths.
ghost use Rattle.std.specs.Prelude.{◌≡◌, ◌++◌, [], ◌∷◌, IfOk};
ghost use Rattle.alloc_tree.specs.Walk.{names};

use std::alloc::{AllocError, Allocator};

pub(crate) fn copy_name<A: Allocator + Clone>(name: &Vec<u8, A>) -> Result<Vec<u8, A>, AllocError>
    ensures { IfOk result (λ copy. copy.items ≡ name.now.items) }
{
    Vec::from_slice(name.allocator().clone()?, name)
}

/// A copy of the path with one more name.
pub(crate) fn extended<A: Allocator + Clone>(
    path: &[Vec<u8, A>],
    name: &Vec<u8, A>,
) -> Result<Vec<Vec<u8, A>, A>, AllocError>
    ensures { IfOk result (λ longer. names longer.items ≡ names path.now ++ name.now.items ∷ []) }
{
    let mut longer = copy_path(path, name.allocator())?;
    longer.push(copy_name(name)?)?;
    Ok(longer)
}

pub(crate) fn copy_path<A: Allocator + Clone>(
    path: &[Vec<u8, A>],
    alloc: &A,
) -> Result<Vec<Vec<u8, A>, A>, AllocError>
    ensures { IfOk result (λ copy. names copy.items ≡ names path.now) }
{
    let mut copy = Vec::new(alloc.clone()?);
    for name in path {
        copy.push(copy_name(name)?)?;
    }
    Ok(copy)
}
