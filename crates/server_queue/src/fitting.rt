//! The longest run of whole blocks that fits into the room of a read, one block after the other.
ghost use Rattle.std.specs.Prelude.{◌≡◌, ◌≤◌, ◌<◌, ◌+◌, ◌^◌, length, OnOk, OnErr, IfOk, IfErr};
ghost use Rattle.pps_types.specs.declared.refusal.Refusal.TheVariants.{OutOfMemory};
ghost use Rattle.server_queue.specs.Given.{needs_len};

use crate::entry::Entry;
use crate::plan::GivenBlocks;
use crate::shown::Shown;
use pps_types::Refusal;
use std::alloc::Global;

/// The most bytes beyond a first block for which memory is taken with it.
const MOST_AHEAD: usize = 4_096;

/// How many bytes more than the first block each later one may have, before more memory is taken.
const SPARE: usize = 8;

/// The refusal of a read that needs so many bytes: TooSmall, with the size, or OutOfMemory if that is no number of 32
/// bits. It takes no memory.
pub fn too_small(need: Option<usize>) -> Refusal
    ensures { result ≡ needs_len need }
{
    let Some(need) = need else {
        return Refusal::OutOfMemory;
    };
    match u32::try_from(need) {
        Ok(need) => Refusal::TooSmall { need },
        Err(_) => Refusal::OutOfMemory,
    }
}

// For how many bytes memory is taken before a block of that length, if there is room for it, and so many records may
// follow: before the first block for as many blocks of its length, and enough for these to differ a little, but for no
// more than 4,096 bytes beyond it; and else for the block itself.
fn memory_for(is_first: bool, len: usize, room: usize, records: u64) -> usize
    requires { len ≤ room }
    ensures enough { len ≤ result }
    ensures within { result ≤ room }
    ensures ahead { result ≤ len + 4096 }
{
    if !is_first {
        return len;
    }
    let most = if room - len < MOST_AHEAD {
        room
    } else {
        len + MOST_AHEAD
    };
    let all = len.saturating_add(SPARE).saturating_mul(records as usize);
    all.min(most).max(len)
}

/// A read in the making: the blocks that it gives so far, and the room that they leave for more.
#[derive(Drop)]
pub struct Fitting {
    /// What it gives.
    pub given: GivenBlocks,
    /// How many bytes more it may give.
    pub room: usize,
}

impl Fitting {
    ghost use Rattle.server_queue.specs.Given.{GivesNothing, Gives, GivesIfItFits, GivesTheSame, RefusesBlock};
    ghost use Rattle.server_queue.specs.Shown.{printed_as};

    /// A read of at most `max` bytes, which gives nothing yet. It takes no memory.
    pub fn new(alloc: Global, max: u32) -> Fitting
        ensures { GivesNothing max result }
    {
        Fitting {
            given: GivenBlocks::nothing(alloc),
            room: max as usize,
        }
    }

    // A block of that length, for which there is room, is put. So many records may follow, with this one.
    #[inline(always)]
    fn put_sized(
        &mut self,
        shown: &Shown<'_>,
        entry: &Entry,
        len: usize,
        records: u64,
    ) -> Result<(), Refusal>
        requires len { len ≡ length (printed_as entry.now.name shown.now) }
        requires room { len ≤ self.old.room }
        requires count { self.old.given.count + 1 < 2 ^ 64 }
        ensures ok { OnOk result (Gives (printed_as entry.now.name shown.now) self.old self.new) }
        ensures err { IfErr result (λ r. r ≡ OutOfMemory) }
        ensures kept { OnErr result (GivesTheSame self.old self.new) }
    {
        let memory = memory_for(self.given.count == 0, len, self.room, records);
        self.given.text.reserve(memory)?;
        shown.push(&mut self.given.text, entry);
        self.given.count += 1;
        self.room -= len;
        Ok(())
    }

    /// Puts a block that is printed already, as [`put`](Fitting::put) puts one.
    #[inline(always)]
    pub fn put_text(&mut self, text: &[u8], records: u64) -> Result<bool, Refusal>
        requires { self.old.given.count + 1 < 2 ^ 64 }
        ensures ok { IfOk result (GivesIfItFits text.now self.old self.new) }
        ensures err { IfErr result (RefusesBlock text.now self.old) }
        ensures kept { OnErr result (GivesTheSame self.old self.new) }
    {
        let (len, room) = (text.len(), self.room);
        if len > room {
            if self.given.count == 0 {
                return Err(too_small(Some(len)));
            }
            return Ok(false);
        }
        let memory = memory_for(self.given.count == 0, len, room, records);
        self.given.text.reserve(memory)?;
        self.given.text.extend_from_slice(text).unwrap();
        self.given.count += 1;
        self.room -= len;
        Ok(true)
    }

    /// Puts one block more, of this record, if there is room for it, and says whether there was: else the run
    /// ends here. So many records may follow, with this one.
    ///
    /// It is TooSmall, with the size, if the first block does not fit, before any memory is taken; else OutOfMemory is the
    /// only error, and comes only if there is room. After an error the same is given as before.
    #[inline(always)]
    pub fn put(&mut self, shown: &Shown<'_>, entry: &Entry, records: u64) -> Result<bool, Refusal>
        requires { self.old.given.count + 1 < 2 ^ 64 }
        ensures ok { IfOk result (GivesIfItFits (printed_as entry.now.name shown.now) self.old self.new) }
        ensures err { IfErr result (RefusesBlock (printed_as entry.now.name shown.now) self.old) }
        ensures kept { OnErr result (GivesTheSame self.old self.new) }
    {
        let room = self.room;
        match shown.len(entry) {
            Some(len) if len <= room => {
                self.put_sized(shown, entry, len, records)?;
                Ok(true)
            }
            need if self.given.count == 0 => Err(too_small(need)),
            _ => Ok(false),
        }
    }
}
