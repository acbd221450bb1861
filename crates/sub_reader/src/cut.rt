//! Records that nobody is owed are dropped.
ghost use Rattle.std.specs.Prelude.{◌≡◌, ◌+◌, ◌<◌, ◌≤◌, ◌^◌, drop, length};
ghost use Rattle.std.specs.VecDeque.{deque_capacity};
ghost use Rattle.change_chain.specs.Span.{end_of};
ghost use Rattle.sub_reader.specs.Counts.{zeros};

use crate::counts::drop_zeros;
use change_chain::Chain;
use server_queue::Entry;
use std::collections::VecDeque;

/// Drops the records in front that are nobody's.
pub(crate) fn cut(records: &mut Chain<Entry>, counts: &mut VecDeque<usize>)
    requires paired { length counts.old.items ≡ length records.old.items }
    requires fits { end_of records.old < 2 ^ 64 }
    ensures start { records.new.start ≡ records.old.start + zeros counts.old.items }
    ensures records { records.new.items ≡ drop (zeros counts.old.items) records.old.items }
    ensures counts { counts.new.items ≡ drop (zeros counts.old.items) counts.old.items }
    ensures end { end_of records.new ≡ end_of records.old }
    ensures room { records.old.room ≤ records.new.room }
    ensures capacity { deque_capacity counts.new ≡ deque_capacity counts.old }
{
    let dropped = drop_zeros(counts);
    records.cut(records.start() + dropped as u64);
}
