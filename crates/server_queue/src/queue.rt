//! A queue of what a server or a client is owed.
ghost use Rattle.std.specs.Prelude.{◌≡◌, ◌≢◌, ◌↔◌, IsTrue, ◌<◌, ◌≤◌, ◌^◌, ◌+◌, ◌∷◌, ◌++◌, [], Some, None, not, nat_lt, length, map, drop, IsOk, IfOk, IfErr, OnOk};
ghost use Rattle.pps_types.specs.Bytes.{is_empty};
ghost use Rattle.pps_types.specs.Names.{refusal_of};
ghost use Rattle.pps_types.specs.declared.refusal.Refusal.TheVariants.{OutOfMemory};
ghost use Rattle.pps_types.specs.Reading.{OpenHandle, fitting, block};
ghost use Rattle.pps_types.specs.Rests.{Progress};
ghost use Rattle.pps_types.specs.Refused.{LacksMemory};
ghost use Rattle.server_queue.specs.Blocks.{queue_blocks};
ghost use Rattle.server_queue.specs.Messages.{message_count};
ghost use Rattle.server_queue.specs.OwedTo.{IsOwedTo};
ghost use Rattle.server_queue.specs.Reads.{read_refusal, first_len};
ghost use Rattle.server_queue.specs.Senders.{client_messages_in};

use crate::counts::Counts;
use crate::entry::Entry;
use crate::plan::{GivenBlocks, plan_read};
use crate::same::same_owed;
use crate::sender::Sender;
use pps_types::Refusal;
use std::alloc::Global;
use std::collections::VecDeque;
use std::marker::Model;

/// What the server of a server object, or one of its clients, is owed: messages, and notices of clients.
///
/// Server objects are those of the QNX PPS guide; the limit is our own. A server takes so many messages of each client,
/// and a client takes so many in all, which are all its server's. Notices are not counted: that a client opened or
/// closed, or that the object was deleted.
///
/// What an event needs is planned first, by [`can_take`](Queue::can_take), [`reserve`](Queue::reserve) and
/// [`read_plan`](Queue::read_plan), any of which may refuse; then [`push_reserved`](Queue::push_reserved) and
/// [`read_commit`](Queue::read_commit) carry it out, without memory.
#[derive(Drop)]
pub struct Queue {
    limit: u32,
    owed: VecDeque<Entry>,
    counts: Counts,
}

impl Model for Queue {
    ghost use Rattle.server_queue.specs.Queued.{Queued, queued};
    ghost use Rattle.server_queue.specs.Tally.{IsTally};

    ghost Value = { Queued };

    ghost view = { λ q. queued q.limit q.owed q.counts };

    ghost invariant = { λ q. IsTally q.counts q.owed.items };
}

impl Queue {
    ghost use Rattle.server_queue.specs.Queued.{AreAlike};

    /// A queue with nothing in it, which takes that many messages of a sender. It takes no memory.
    pub fn new(alloc: Global, limit: u32) -> Queue
        ensures limit { result.limit ≡ limit }
        ensures owed { result.owed ≡ [] }
    {
        Queue {
            limit,
            owed: VecDeque::new(alloc),
            counts: Counts::new(alloc),
        }
    }

    /// Whether one more message of a sender is within the limit. It looks at no message.
    pub fn can_take(&self, from: Sender) -> bool
        ensures { result ≡ nat_lt (message_count from self.now.owed) self.now.limit }
    {
        self.counts.of(from) < self.limit as usize
    }

    /// Takes the memory for `n` more records, of which so many are messages of clients. A client's queue has none of
    /// these, and takes no memory to count them. What is owed stays, and so does room that was taken before.
    ///
    /// OutOfMemory is the only error, and comes only where there was not as much room.
    pub fn reserve(&mut self, n: usize, client_messages: usize) -> Result<(), Refusal>
        ensures limit { self.new.limit ≡ self.old.limit }
        ensures owed { self.new.owed ≡ self.old.owed }
        ensures ok { OnOk result ((n ≤ self.new.room) × (client_messages ≤ self.new.counters)) }
        ensures kept { (self.old.room ≤ self.new.room) × (self.old.counters ≤ self.new.counters) }
        ensures succeeds { n ≤ self.old.room → client_messages ≤ self.old.counters → IsOk result }
        ensures err { IfErr result (λ r. r ≡ OutOfMemory) }
    {
        if self.owed.reserve(n).is_err() {
            return Err(Refusal::OutOfMemory);
        }
        if self.counts.reserve(client_messages).is_err() {
            return Err(Refusal::OutOfMemory);
        }
        Ok(())
    }

    /// Puts a record behind all others, into room that was taken before. It takes no memory.
    pub fn push_reserved(&mut self, entry: Entry)
        requires room { 0 < self.old.room }
        requires counters { client_messages_in entry ≤ self.old.counters }
        ensures limit { self.new.limit ≡ self.old.limit }
        ensures owed { self.new.owed ≡ self.old.owed ++ entry ∷ [] }
        ensures room { self.new.room + 1 ≡ self.old.room }
        ensures counters { self.old.counters ≤ self.new.counters + client_messages_in entry }
    {
        self.counts.add(&entry.record().kind);
        let _ = self.owed.push_back(entry);
    }

    /// Whether something is owed.
    pub fn news(&self) -> bool
        ensures { result ≡ not (is_empty self.now.owed) }
    {
        !self.owed.is_empty()
    }

    /// How many records are owed.
    pub fn owed_count(&self) -> usize
        ensures { result ≡ length self.now.owed }
    {
        self.owed.len()
    }

    /// What a read of `max` bytes gives, as if these records were queued behind all others: the longest run of whole
    /// blocks that fits. The queue stays.
    ///
    /// It is TooSmall, with the size, where the first block does not fit, before any memory is taken, and else
    /// OutOfMemory is the only error, where there is something to give.
    pub fn read_plan(&self, extra: &[Entry], max: u32) -> Result<GivenBlocks, Refusal>
        ensures refusal { refusal_of result ≢ Some OutOfMemory
            → refusal_of result ≡ read_refusal (self.now.owed ++ extra.now) max }
        ensures memory { LacksMemory result → first_len (self.now.owed ++ extra.now) < 2 ^ 32
            → read_refusal (self.now.owed ++ extra.now) max ≡ None }
        ensures some { LacksMemory result → 0 < length (self.now.owed ++ extra.now) }
        ensures ok { IfOk result (λ plan. (plan.count, plan.text.items)
            ≡ fitting max (queue_blocks (self.now.owed ++ extra.now))) }
        ensures blocks { (h : OpenHandle Progress) → IsOwedTo h (self.now.owed ++ extra.now)
            → queue_blocks (self.now.owed ++ extra.now) ≡ map (block h) (self.now.owed ++ extra.now) }
    {
        plan_read(*self.owed.allocator(), &self.owed, extra, max)
    }

    // The first record is no longer owed.
    fn drop_first(&mut self)
        ensures limit { self.new.limit ≡ self.old.limit }
        ensures owed { self.new.owed ≡ drop 1 self.old.owed }
    {
        let Some(entry) = self.owed.pop_front() else {
            return;
        };
        self.counts.drop_first(&entry.record().kind);
    }

    /// What a plan gives is no longer owed, once the records that it had behind all others are queued. It takes no
    /// memory.
    pub fn read_commit(&mut self, plan: GivenBlocks)
        requires { plan.count ≤ length self.old.owed }
        ensures limit { self.new.limit ≡ self.old.limit }
        ensures owed { self.new.owed ≡ drop plan.count self.old.owed }
    {
        'given: for _ in 0..plan.count {
            self.drop_first();
        }
    }

    /// So many of the records in front are no longer owed: none is left where there are not as many. It takes no memory.
    pub fn pass(&mut self, count: usize)
        ensures limit { self.new.limit ≡ self.old.limit }
        ensures owed { self.new.owed ≡ drop count self.old.owed }
    {
        let passed = count.min(self.owed_count());
        'passed: for _ in 0..passed {
            self.drop_first();
        }
    }

    // One more share of a record is put behind all others.
    fn push_share(&mut self, entry: &Entry) -> Result<(), Refusal>
        ensures limit { self.new.limit ≡ self.old.limit }
        ensures owed { OnOk result (self.new.owed ≡ self.old.owed ++ entry.now ∷ []) }
    {
        let Ok(share) = entry.share() else {
            return Err(Refusal::OutOfMemory);
        };
        let Ok(()) = self.reserve(1, share.client_messages()) else {
            return Err(Refusal::OutOfMemory);
        };
        self.push_reserved(share);
        Ok(())
    }

    /// A queue of the same limit in which the same is owed.
    ///
    /// OutOfMemory is the only error.
    pub fn copy(&self) -> Result<Queue, Refusal>
        ensures limit { IfOk result (λ copy. copy.limit ≡ self.now.limit) }
        ensures owed { IfOk result (λ copy. copy.owed ≡ self.now.owed) }
        ensures err { IfErr result (λ r. r ≡ OutOfMemory) }
    {
        let mut copy = Queue::new(*self.owed.allocator(), self.limit);
        'owed: for entry in self.owed.iter() {
            let Ok(()) = copy.push_share(entry) else {
                return Err(Refusal::OutOfMemory);
            };
        }
        Ok(copy)
    }

    /// Whether the limits are equal and the same is owed in both. It takes no memory.
    pub fn same(&self, other: &Queue) -> bool
        ensures { IsTrue result ↔ AreAlike self.now other.now }
    {
        self.limit == other.limit && same_owed(&self.owed, &other.owed)
    }
}
