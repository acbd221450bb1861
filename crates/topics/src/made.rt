//! Shares of one record, until they are taken.
ghost use Rattle.std.specs.Prelude.{◌≡◌, ◌↔◌, ◌<◌, ◌+◌, Some, length, IfOk, IsTrue};
ghost use Rattle.std.specs.List.{AllByRecursion};
ghost use Rattle.pps_types.specs.History.{Entry as Told};
ghost use Rattle.topics.specs.Made.{shares_in, AreOf};

use server_queue::Entry;
use std::alloc::{AllocError, Global};
use std::mem::replace;

/// Shares of a record. One alone needs no list.
#[derive(Drop)]
pub(crate) enum Made {
    Nothing,
    One(Entry),
    Many(Box<Vec<Entry>>),
}

// So many shares of a record.
fn make_list(alloc: Global, entry: &Entry, count: usize) -> Result<Vec<Entry>, AllocError>
    ensures same { IfOk result (λ list. AllByRecursion (λ (e : Told). e ≡ entry.now) list.items) }
    ensures count { IfOk result (λ list. length list.items ≡ count) }
{
    let mut list = Vec::new(alloc);
    'shares: for _ in 0..count {
        list.push(entry.share()?)?;
    }
    Ok(list)
}

impl Made {
    /// So many shares of a record.
    #[inline(always)]
    pub(crate) fn new(alloc: Global, entry: &Entry, count: usize) -> Result<Made, AllocError>
        ensures same { IfOk result (AreOf entry.now) }
        ensures count { IfOk result (λ made. length (shares_in made) ≡ count) }
    {
        match count {
            0 => Ok(Made::Nothing),
            1 => Ok(Made::One(entry.share()?)),
            _ => Ok(Made::Many(Box::new(alloc, make_list(alloc, entry, count)?)?)),
        }
    }

    /// Whether there are no shares.
    #[inline(always)]
    pub(crate) fn is_empty(&self) -> bool
        ensures { IsTrue result ↔ (length (shares_in self.now) ≡ 0) }
    {
        match self {
            Made::Nothing => true,
            Made::One(_) => false,
            Made::Many(list) => list.is_empty(),
        }
    }

    /// Takes one of the shares, if there is one.
    pub(crate) fn take(&mut self) -> Option<Entry>
        requires { 0 < length (shares_in self.old) }
        ensures same { (e : Told) → AreOf e self.old → AreOf e self.new }
        ensures count { length (shares_in self.new) + 1 ≡ length (shares_in self.old) }
        ensures taken { (e : Told) → AreOf e self.old → result ≡ Some e }
    {
        match replace(self, Made::Nothing) {
            Made::Nothing => None,
            Made::One(share) => Some(share),
            Made::Many(mut list) => {
                let share = list.pop();
                *self = Made::Many(list);
                share
            }
        }
    }
}
