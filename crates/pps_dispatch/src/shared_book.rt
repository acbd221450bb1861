//! What workers ask of the book that they share.
ghost use Rattle.std.specs.Prelude.{◌≤◌, ◌+◌, length, vec_len, vec_capacity};

use pps_lock::{Message, Receipt, Segment, Shared};
use pps_types::Refusal;
use std::alloc::AllocError;
use std::sync::Wait;

/// What workers ask of the book that they share.
///
/// That a worker may run on another thread is found from the types of all that it is given. Where it was given a book by
/// name, that search would go down through everything an engine is made of, and not come to its end. A worker that is given
/// anything of this kind says nothing of engines; that a book may be shared is then shown once, where `serve` makes one.
pub trait SharedBook {
    /// Messages in their order, as `Shared::enter_each`.
    fn enter_each<R: Wait>(
        &self,
        rt: &R,
        messages: &[Message],
        names: &mut Vec<Receipt>,
    ) -> Result<bool, AllocError>
        requires room { vec_len names.old + length messages.now ≤ vec_capacity names.old };

    /// The trace so far, cut off, as `Shared::cut`.
    fn cut<R: Wait>(&self, rt: &R) -> Result<Segment, Refusal>;
}

impl SharedBook for Shared {
    fn enter_each<R: Wait>(
        &self,
        rt: &R,
        messages: &[Message],
        names: &mut Vec<Receipt>,
    ) -> Result<bool, AllocError>
        requires room { vec_len names.old + length messages.now ≤ vec_capacity names.old }
    {
        Shared::enter_each(self, rt, messages, names)
    }

    fn cut<R: Wait>(&self, rt: &R) -> Result<Segment, Refusal> {
        Shared::cut(self, rt)
    }
}
