//! Copies by the trait that a table of handles asks for.
ghost use Rattle.topics.specs.HandlesOf.{IsCopy};

use crate::topic::Topic;
use std::alloc::AllocError;

/// The same handles on the same target, without room.
impl Clone for Topic {
    ghost is_clone = { IsCopy };

    fn clone(&self) -> Result<Topic, AllocError> {
        let Ok(copy) = self.copy() else {
            return Err(AllocError);
        };
        Ok(copy)
    }
}
