//! Places that are reserved before they are used, so that a later step takes no memory.
ghost use Rattle.std.specs.Prelude.{◌≡◌, ◌⊎◌, ◌+◌, ◌<◌, ◌≤◌, ◌∷◌, ◌++◌, [], IfOk, OnOk, OnErr, vec_len, vec_capacity};
ghost use Rattle.std.specs.VecDeque.{deque_len, deque_capacity};

use pps_types::Item;
use std::alloc::{AllocError, Global};
use std::collections::VecDeque;

/// Takes memory for one more entry, and for that many more items.
pub(crate) fn make_room<T>(
    entries: &mut Vec<T>,
    items: &mut VecDeque<Item>,
    places: usize,
) -> Result<(), AllocError>
    ensures entries { entries.new.items ≡ entries.old.items }
    ensures entries_len { vec_len entries.new ≡ vec_len entries.old }
    ensures items { items.new.items ≡ items.old.items }
    ensures items_len { deque_len items.new ≡ deque_len items.old }
    ensures entry_room { OnOk result (vec_len entries.new < vec_capacity entries.new) }
    ensures item_room { OnOk result (deque_len items.new + places ≤ deque_capacity items.new) }
    ensures entries_kept { vec_capacity entries.old ≤ vec_capacity entries.new }
    ensures items_kept { deque_capacity items.old ≤ deque_capacity items.new }
    ensures err { OnErr result ((vec_capacity entries.old ≤ vec_len entries.old)
        ⊎ (deque_capacity items.old < deque_len items.old + places)) }
{
    entries.reserve(1)?;
    items.reserve(places)?;
    Ok(())
}

/// Queues an item in a place that is there. It takes no memory.
pub(crate) fn queue_reserved(items: &mut VecDeque<Item>, item: Item)
    requires { deque_len items.old < deque_capacity items.old }
    ensures items { items.new.items ≡ items.old.items ++ item ∷ [] }
    ensures len { deque_len items.new ≡ deque_len items.old + 1 }
    ensures capacity { deque_capacity items.new ≡ deque_capacity items.old }
{
    let _ = items.push_back(item);
}

/// The same items once more, with places for that many in all.
pub(crate) fn copy_items(
    alloc: Global,
    items: &VecDeque<Item>,
    places: usize,
) -> Result<VecDeque<Item>, AllocError>
    requires { deque_len items.now ≤ places }
    ensures items { IfOk result (λ copy. copy.items ≡ items.now.items) }
    ensures len { IfOk result (λ copy. deque_len copy ≡ deque_len items.now) }
    ensures capacity { IfOk result (λ copy. deque_capacity copy ≡ places) }
{
    let mut copy = VecDeque::with_capacity(alloc, places)?;
    for item in items.iter() {
        queue_reserved(&mut copy, item.share()?);
    }
    Ok(copy)
}
