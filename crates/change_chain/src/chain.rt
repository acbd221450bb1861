//! A list with an absolute first position.
ghost use Rattle.std.specs.Prelude.{◌≡◌, ◌+◌, ◌-◌, ◌^◌, ◌<◌, ◌≤◌, [], ◌∷◌, ◌++◌, length, drop, Some, OnOk, OnErr, IfOk, slice_get};
ghost use Rattle.std.specs.List.{AllZip};
ghost use Rattle.change_chain.specs.Span.{end_of, is_same, CopiesItems};

use std::alloc::{AllocError, Global};
use std::collections::VecDeque;
use std::marker::Model;

/// A list whose items keep their positions: items are pushed at its end, and dropped at its front.
///
/// Positions are numbers from 0 to 2^64 - 1. What is called room is for how many pushes memory was taken ahead.
#[derive(Drop)]
pub struct Chain<T> {
    start: u64,
    items: VecDeque<T>,
}

impl<T> Model for Chain<T> {
    ghost use Rattle.std.specs.Prelude.{◌+◌, ◌-◌, ◌^◌, ◌<◌, length};
    ghost use Rattle.std.specs.VecDeque.{deque_capacity, deque_len};
    ghost use Rattle.change_chain.specs.Span.{Span};

    ghost Value = { Span T };

    ghost view = { λ c. record { start = c.start; items = c.items.items; room = deque_capacity c.items - deque_len c.items } };

    ghost invariant = { λ c. c.start + length c.items.items < 2 ^ 64 };
}

impl<T> Chain<T> {
    /// A chain without items, whose first item will stand at this position. It takes no memory.
    pub fn new(alloc: Global, start: u64) -> Chain<T>
        ensures start { result.start ≡ start }
        ensures items { result.items ≡ [] }
    {
        Chain {
            start,
            items: VecDeque::new(alloc),
        }
    }

    /// The position of the first item, or [`end`](Chain::end) where there is none.
    pub fn start(&self) -> u64
        ensures { result ≡ self.now.start }
    {
        self.start
    }

    /// The position behind the last item.
    pub fn end(&self) -> u64
        ensures { result ≡ end_of self.now }
    {
        self.start + self.items.len() as u64
    }

    /// The item at a position.
    pub fn at(&self, position: u64) -> &T
        requires from_start { self.now.start ≤ position }
        requires before_end { position < end_of self.now }
        ensures { slice_get self.now.items (position - self.now.start) ≡ Some result.now }
    {
        &self.items[(position - self.start) as usize]
    }

    /// Makes room for `n` pushes.
    ///
    /// AllocError comes only where there was not as much room, and leaves the chain as it was.
    pub fn reserve(&mut self, n: usize) -> Result<(), AllocError>
        ensures start { self.new.start ≡ self.old.start }
        ensures items { self.new.items ≡ self.old.items }
        ensures room { OnOk result (n ≤ self.new.room) }
        ensures kept { self.old.room ≤ self.new.room }
        ensures lacking { OnErr result (self.old.room < n) }
    {
        self.items.reserve(n)
    }

    /// Adds an item at the end, into room that was made before. It takes no memory.
    pub fn push_reserved(&mut self, item: T)
        requires room { 0 < self.old.room }
        requires number { end_of self.old + 1 < 2 ^ 64 }
        ensures start { self.new.start ≡ self.old.start }
        ensures items { self.new.items ≡ self.old.items ++ item ∷ [] }
        ensures room { self.new.room + 1 ≡ self.old.room }
    {
        match self.items.push_back(item) {
            Ok(()) => {}
            Err(_) => unreachable!(),
        }
    }
}

impl<T: Drop> Chain<T> {
    /// Drops the items before a position, which is the first from then on. It takes no memory, and costs what it drops.
    pub fn cut(&mut self, to: u64)
        requires from_start { self.old.start ≤ to }
        requires up_to_end { to ≤ end_of self.old }
        ensures start { self.new.start ≡ to }
        ensures items { self.new.items ≡ drop (to - self.old.start) self.old.items }
        ensures room { self.new.room ≡ self.old.room + (to - self.old.start) }
    {
        while self.start < to {
            let _ = self.items.pop_front();
            self.start += 1;
        }
    }
}

impl<T: Clone> Chain<T> {
    /// A chain with a clone of each item, at the same positions.
    pub fn copy(&self) -> Result<Chain<T>, AllocError>
        ensures start { IfOk result (λ copy. copy.start ≡ self.now.start) }
        ensures clones { IfOk result (λ copy. AllZip T.is_clone self.now.items copy.items) }
        ensures items { CopiesItems T.is_clone self.now result }
        ensures end { IfOk result (λ copy. end_of copy ≡ end_of self.now) }
    {
        Ok(Chain {
            start: self.start,
            items: self.items.clone()?,
        })
    }
}

impl<T: PartialEq> Chain<T> {
    /// Whether equal items stand at the same positions in both. It takes no memory.
    pub fn same(&self, other: &Chain<T>) -> bool
        ensures { result ≡ is_same T.eq self.now other.now }
    {
        self.start == other.start && self.items == other.items
    }
}
