//! One handle on an object or a directory, and its slot among the others.
ghost use Rattle.std.specs.Prelude.{◌≡◌, ◌↔◌, Some, IsSome, is_some, IsTrue, IfOk, IfErr};
ghost use Rattle.std.specs.Borrow.{Lends, sem};
ghost use Rattle.pps_types.specs.declared.refusal.Refusal.TheVariants.{OutOfMemory};
ghost use Rattle.sub_reader.specs.Alike.{row_told, IsCopyOf};
ghost use Rattle.sub_reader.specs.Opened.{armed_pulse};
ghost use Rattle.sub_reader.specs.Rows.{row_of, progress_of, slot_with_progress};
ghost use Rattle.sub_reader.specs.contracts.row.Slot.{the_row};

use crate::opening::{Opening, Pulse};
use crate::progress::Progress;
use pps_types::{Handle, Refusal};

/// A handle: what its open fixed, how far it has read, and what waits on it.
#[derive(Drop)]
pub struct HandleRow<P> {
    pub opening: Opening,
    /// How far it has read.
    pub progress: P,
    /// The size of a read that waits.
    pub parked: Option<u32>,
    /// The pulse that waits.
    pub armed: Option<Pulse>,
}

impl<P> HandleRow<P> {
    /// Whether a pulse is armed on it.
    #[inline(always)]
    pub fn is_armed(&self) -> bool
        ensures { result ≡ is_some (armed_pulse self.now.armed) }
    {
        match self.armed {
            None => false,
            Some(_) => true,
        }
    }
}

impl<P: Progress> HandleRow<P> {
    /// The same handle once more, without room.
    pub(crate) fn copy(&self) -> Result<HandleRow<P>, Refusal>
        ensures ok { IfOk result (IsCopyOf P.told self.now) }
        ensures err { IfErr result (λ r. r ≡ OutOfMemory) }
    {
        let opening = self.opening.copy()?;
        let progress = self.progress.copied()?;
        Ok(HandleRow {
            opening,
            progress,
            parked: self.parked,
            armed: self.armed,
        })
    }

    /// Whether the same stands of both, each told from where its records begin. It takes no memory.
    pub(crate) fn same_from(&self, start: u64, other: &HandleRow<P>, other_start: u64) -> bool
        ensures { IsTrue result
            ↔ (row_told P.told start self.now ≡ row_told P.told other_start other.now) }
    {
        self.parked == other.parked
            && self.armed == other.armed
            && self.opening.same(&other.opening)
            && self.progress.same_from(start, &other.progress, other_start)
    }
}

/// A place among rows: a handle, or the number of one that has closed.
#[derive(Drop)]
pub enum Slot<P> {
    Row(HandleRow<P>),
    Gap(Handle),
}

impl<P> Slot<P> {
    /// How far the handle of a slot that has one has read, to be changed in place.
    pub(crate) fn progress_mut(&mut self) -> &mut P
        requires { IsSome (row_of self.old) }
        ensures* lends { sem 𝓛 (Lends (the_row P.row) P.row self.entry result
            (slot_with_progress self.entry.now)) }
        ensures value { progress_of self.old ≡ Some result.now }
    {
        match self {
            Slot::Row(row) => &mut row.progress,
            Slot::Gap(_) => unreachable!(),
        }
    }
}
