//! One object or one directory with the handles on it, and the records that it holds for them.
ghost use Rattle.std.specs.Prelude.{◌≡◌, IfOk, IfErr, ◌↔◌, IsTrue, true, [], ◌+◌, ◌<◌, ◌≤◌, length, OnOk, OnErr};
ghost use Rattle.pps_types.specs.declared.found.Found.TheVariants.{Object as FoundObject, Directory as FoundDirectory};
ghost use Rattle.pps_types.specs.declared.refusal.Refusal.TheVariants.{OutOfMemory};
ghost use Rattle.pps_types.specs.Plan.{without_number};
ghost use Rattle.server_queue.specs.Given.{GivesFitting, RefusesTooSmall, ChecksSizeFirst, NeedsMemoryForBlocks};
ghost use Rattle.sub_reader.specs.Blocks.{owed_blocks_at};
ghost use Rattle.sub_reader.specs.Opened.{armed_pulse, number_of, is_reader, IsOpeningAt};
ghost use Rattle.sub_reader.specs.Glances.{IsGlanceAt};
ghost use Rattle.sub_reader.specs.HandlesOf.{AreOnFound, SuitsTarget, longest_rest_on, HaveName, AreReaders};
ghost use Rattle.sub_reader.specs.HandleAt.{parked_at, armed_at, has_news_at, is_over_at, owed_at, AreBelow};
ghost use Rattle.sub_reader.specs.HandleAt.{with_offered, with_caught_up, with_passed, with_parked, with_armed};
ghost use Rattle.sub_reader.specs.Standing.{handles_with, AreSame};
ghost use Rattle.sub_reader.specs.Woken.{woken_by};

use crate::audience::Audience;
use crate::copies::{copy_records, same_records};
use crate::counts::{leave, offer_each, put};
use crate::cut::cut;
use crate::glance::{Glance, glance_at};
use crate::kinds::{is_in_chain, number_of};
use crate::opening::{Opening, Pulse};
use crate::owed::give_from;
use crate::passed::passed;
use crate::place::{Place, at_first, caught};
use crate::questions::{has_news, is_over, owed_count};
use crate::row::HandleRow;
use crate::rows::HandleRows;
use crate::woken::find_woken;
use change_chain::Chain;
use pps_types::{Bytes, DirId, Found, Handle, ObjId, Refusal};
use server_queue::{Entry, GivenBlocks};
use std::alloc::{AllocError, Global};
use std::collections::VecDeque;
use std::marker::Model;

/// An object or a directory: the handles that read it, and the records that one of them is still owed.
///
/// A record that nobody is owed is dropped at once, and each other one stands once for all handles. A handle knows where
/// in this list the first record stands that it is owed. Handles of servers and their clients are not for here.
pub struct Subscribers {
    of: Found,
    name: Bytes,
    records: Chain<Entry>,
    counts: VecDeque<usize>,
    rows: HandleRows<Place>,
}

// Written out, since each crate that drops one would prove a derived drop anew, with those of all its parts.
impl Drop for Subscribers {
    fn drop(self) {
        let Subscribers {
            of: _,
            name: _,
            records: _,
            counts: _,
            rows: _,
        } = self;
    }
}

impl Model for Subscribers {
    ghost use Rattle.std.specs.Prelude.{◌-◌, map, length};
    ghost use Rattle.std.specs.VecDeque.{deque_capacity};
    ghost use Rattle.change_chain.specs.Span.{end_of};
    ghost use Rattle.sub_reader.specs.Opened.{is_directory, number_of};
    ghost use Rattle.sub_reader.specs.Places.{handle_of};
    ghost use Rattle.sub_reader.specs.Rows.{rows_of};
    ghost use Rattle.sub_reader.specs.Standing.{Standing, room_of, IsTarget};

    ghost Value = { Standing };

    ghost view = { λ t. record {
      of = t.of;
      name = t.name;
      handles = map (handle_of (number_of t.of) t.name t.records.start t.records.items) (rows_of t.rows);
      kept = t.records.items;
      room = room_of (end_of t.records) t.records.room (deque_capacity t.counts - length t.counts.items);
      places = t.rows.places;
    } };

    ghost invariant = { λ t. IsTarget (is_directory t.of) (number_of t.of) t.name t.records.start t.records.items t.counts.items (rows_of t.rows) };
}

// Whether both are the same object or directory, of the same name.
fn is_of_same(one: &Subscribers, other: &Subscribers) -> bool
    ensures { IsTrue result ↔ ((one.now.of ≡ other.now.of) × (one.now.name ≡ other.now.name)) }
{
    one.of == other.of && one.name == other.name
}

impl Subscribers {
    /// An object without handles. It takes no memory.
    pub fn object(alloc: Global, object: ObjId, name: Bytes) -> Subscribers
        ensures of { result.of ≡ FoundObject object }
        ensures name { result.name ≡ name }
        ensures handles { result.handles ≡ [] }
        ensures kept { result.kept ≡ [] }
        ensures places { result.places ≡ 0 }
    {
        Subscribers {
            of: Found::Object(object),
            name,
            records: Chain::new(alloc, 0),
            counts: VecDeque::new(alloc),
            rows: HandleRows::new(alloc),
        }
    }

    /// A directory without handles. It takes no memory.
    pub fn directory(alloc: Global, directory: DirId) -> Subscribers
        ensures of { result.of ≡ FoundDirectory directory }
        ensures name { result.name ≡ [] }
        ensures handles { result.handles ≡ [] }
        ensures kept { result.kept ≡ [] }
        ensures places { result.places ≡ 0 }
    {
        Subscribers {
            of: Found::Directory(directory),
            name: Bytes::new(Vec::new(alloc)),
            records: Chain::new(alloc, 0),
            counts: VecDeque::new(alloc),
            rows: HandleRows::new(alloc),
        }
    }

    /// The object or directory that it is.
    #[inline(always)]
    pub fn of(&self) -> Found
        ensures { result ≡ self.now.of }
    {
        self.of
    }

    /// Whether it has no handle.
    #[inline(always)]
    pub fn is_empty(&self) -> bool
        ensures { IsTrue result ↔ (self.now.handles ≡ []) }
    {
        self.rows.is_empty()
    }

    /// Makes room for so many more records. What stands stays, and so does room that was made before.
    ///
    /// AllocError comes only where there was not as much room.
    pub fn reserve(&mut self, count: usize) -> Result<(), AllocError>
        ensures same { self.new ≡ record self.old { room = self.new.room } }
        ensures room { OnOk result (count ≤ self.new.room) }
        ensures kept { self.old.room ≤ self.new.room }
        ensures lacking { OnErr result (self.old.room < count) }
    {
        if u64::MAX - self.records.end() < count as u64 {
            return Err(AllocError);
        }
        self.records.reserve(count)?;
        self.counts.reserve(count)?;
        Ok(())
    }

    /// Offers its handles a record, for which there is room: each that sees it is owed it from then on, or has news, or is
    /// past its limit. It takes no memory, and looks at each handle once.
    pub fn offer(&mut self, entry: Entry)
        requires room { 0 < self.old.room }
        ensures of { self.new.of ≡ self.old.of }
        ensures name { self.new.name ≡ self.old.name }
        ensures handles { self.new.handles ≡ with_offered entry self.old.handles }
        ensures room { self.old.room ≤ self.new.room + 1 }
        ensures places { self.new.places ≡ self.old.places }
    {
        if !is_in_chain(self.of, &entry) {
            return;
        }
        let target = number_of(self.of);
        let audience = Audience::of(self.of, &entry);
        let position = self.records.end();
        let start = self.records.start();
        self.counts.push_back_reserved(0);
        offer_each(
            target,
            &audience,
            &mut self.rows,
            &mut self.counts,
            start,
            position,
            &entry,
        );
        self.records.push_reserved(entry);
        cut(&mut self.records, &mut self.counts);
    }

    /// Makes room for one more handle. AllocError comes only where there was none. What stands stays.
    pub fn reserve_handle(&mut self) -> Result<(), AllocError>
        ensures same { self.new ≡ record self.old { places = self.new.places } }
        ensures places { OnOk result (0 < self.new.places) }
        ensures kept { self.old.places ≤ self.new.places }
        ensures lacking { OnErr result (self.old.places ≡ 0) }
    {
        self.rows.reserve()
    }

    /// Opens a handle, for which there is room. Its number is above those of all others. It takes no memory.
    pub fn open_reserved(&mut self, opening: Opening)
        requires places { 0 < self.old.places }
        requires reader { is_reader opening.kind ≡ true }
        requires flag { SuitsTarget opening.kind self.old.of }
        requires above { AreBelow opening.number self.old.handles }
        ensures of { self.new.of ≡ self.old.of }
        ensures name { self.new.name ≡ self.old.name }
        ensures handles { self.new.handles ≡ handles_with opening self.old }
        ensures kept { self.new.kept ≡ self.old.kept }
        ensures room { self.new.room ≡ self.old.room }
        ensures places { self.new.places + 1 ≡ self.old.places }
    {
        let progress = at_first(opening.kind, opening.reads);
        self.rows.push_reserved(HandleRow {
            opening,
            progress,
            parked: None,
            armed: None,
        });
    }

    /// A handle has read everything. It takes no memory.
    pub fn catch_up(&mut self, number: Handle)
        ensures of { self.new.of ≡ self.old.of }
        ensures name { self.new.name ≡ self.old.name }
        ensures handles { self.new.handles ≡ with_caught_up number self.old.handles }
        ensures room { self.old.room ≤ self.new.room }
        ensures places { self.new.places ≡ self.old.places }
    {
        let Some(place) = self.rows.find(number) else {
            return;
        };
        let progress = caught(self.rows.row(place).opening.kind);
        let start = self.records.start();
        put(&mut self.rows, &mut self.counts, start, place, progress);
        cut(&mut self.records, &mut self.counts);
    }

    /// A handle was given so many of the records that it is owed. It takes no memory.
    pub fn pass(&mut self, number: Handle, count: usize)
        ensures of { self.new.of ≡ self.old.of }
        ensures name { self.new.name ≡ self.old.name }
        ensures handles { self.new.handles ≡ with_passed number count self.old.handles }
        ensures room { self.old.room ≤ self.new.room }
        ensures places { self.new.places ≡ self.old.places }
    {
        let Some(place) = self.rows.find(number) else {
            return;
        };
        let row = self.rows.row(place);
        let progress = passed(
            number_of(self.of),
            &row.opening,
            &self.records,
            row.progress,
            count,
        );
        let start = self.records.start();
        put(&mut self.rows, &mut self.counts, start, place, progress);
        cut(&mut self.records, &mut self.counts);
    }

    /// A read of that size waits on a handle, or none any more. It takes no memory.
    pub fn park(&mut self, number: Handle, size: Option<u32>)
        ensures of { self.new.of ≡ self.old.of }
        ensures name { self.new.name ≡ self.old.name }
        ensures handles { self.new.handles ≡ with_parked number size self.old.handles }
        ensures kept { self.new.kept ≡ self.old.kept }
        ensures room { self.new.room ≡ self.old.room }
        ensures places { self.new.places ≡ self.old.places }
    {
        self.rows.park(number, size);
    }

    /// A pulse waits on a handle, or none any more. It takes no memory.
    pub fn arm(&mut self, number: Handle, pulse: Option<Pulse>)
        ensures of { self.new.of ≡ self.old.of }
        ensures name { self.new.name ≡ self.old.name }
        ensures handles { self.new.handles ≡ with_armed number pulse self.old.handles }
        ensures kept { self.new.kept ≡ self.old.kept }
        ensures room { self.new.room ≡ self.old.room }
        ensures places { self.new.places ≡ self.old.places }
    {
        self.rows.arm(number, pulse);
    }

    /// Closes a handle. It takes no memory.
    pub fn close(&mut self, number: Handle)
        ensures of { self.new.of ≡ self.old.of }
        ensures name { self.new.name ≡ self.old.name }
        ensures handles { self.new.handles ≡ without_number number self.old.handles }
        ensures room { self.old.room ≤ self.new.room }
        ensures places { self.old.places ≤ self.new.places }
    {
        let Some(row) = self.rows.take(number) else {
            return;
        };
        let start = self.records.start();
        leave(&mut self.counts, start, row.progress);
        cut(&mut self.records, &mut self.counts);
    }

    /// What the open of a handle fixed, where it is here.
    #[inline(always)]
    pub fn opening(&self, number: Handle) -> Option<&Opening>
        ensures { IsOpeningAt number (number_of self.now.of) self.now.name self.now.handles result }
    {
        self.rows.opening(number)
    }

    /// What is seen of a handle, where it is here.
    #[inline(always)]
    pub fn glance(&self, number: Handle) -> Option<Glance<'_>>
        ensures { IsGlanceAt number (number_of self.now.of) self.now.name self.now.handles result }
    {
        match self.rows.get(number) {
            None => None,
            Some(reader) => Some(glance_at(reader)),
        }
    }

    /// The size of the read that waits on a handle, if one does.
    #[inline(always)]
    pub fn parked(&self, number: Handle) -> Option<u32>
        ensures { result ≡ parked_at number self.now.handles }
    {
        self.rows.parked(number)
    }

    /// The pulse that is armed on a handle, if one is.
    #[inline(always)]
    pub fn armed(&self, number: Handle) -> Option<Pulse>
        ensures { armed_pulse result ≡ armed_at number self.now.handles }
    {
        self.rows.armed(number)
    }

    /// The name of the object, and none of a directory.
    #[inline(always)]
    pub fn name(&self) -> &[u8]
        ensures { result.now ≡ self.now.name }
    {
        self.name.as_slice()
    }

    /// Whether a handle is here that a read would give something new.
    #[inline(always)]
    pub fn has_news(&self, number: Handle) -> bool
        ensures { result ≡ has_news_at number self.now.handles }
    {
        match self.rows.get(number) {
            None => false,
            Some(reader) => has_news(reader),
        }
    }

    /// Whether a handle is here that is owed more records than its limit, so that it is given everything anew.
    #[inline(always)]
    pub fn is_over(&self, number: Handle) -> bool
        ensures { result ≡ is_over_at number self.now.handles }
    {
        let Some(reader) = self.rows.get(number) else {
            return false;
        };
        is_over(reader)
    }

    /// The handles that these records wake, in rising number: a read or a pulse waits on each, and it has had no news until
    /// one of them, which it sees. It looks at each handle once, and changes nothing.
    ///
    /// AllocError comes only where memory is wanting.
    #[inline(always)]
    pub fn woken_by(&self, alloc: Global, entries: &[Entry]) -> Result<Vec<Handle>, AllocError>
        ensures { IfOk result (λ woken. woken.items ≡ woken_by entries.now self.now.handles) }
    {
        find_woken(alloc, number_of(self.of), self.rows.slots(), entries)
    }

    /// How many records a handle is owed: none is told where it is not here, in full mode, before the first read and past
    /// the limit.
    #[inline(always)]
    pub fn owed(&self, number: Handle) -> Option<u32>
        ensures { result ≡ owed_at number self.now.handles }
    {
        match self.rows.get(number) {
            None => None,
            Some(reader) => owed_count(reader),
        }
    }

    /// What a read of at most `max` bytes gives a handle of the records that it is owed: the longest run of whole blocks
    /// that fits. Nothing moves.
    ///
    /// It is TooSmall, with the size, where the first block does not fit, before any memory is taken; else OutOfMemory is
    /// the only error, where something is owed.
    #[inline(always)]
    pub fn read_owed(&self, alloc: Global, number: Handle, max: u32) -> Result<GivenBlocks, Refusal>
        ensures ok { GivesFitting max (owed_blocks_at number self.now.handles) result }
        ensures refusal { RefusesTooSmall max (owed_blocks_at number self.now.handles) result }
        ensures memory { ChecksSizeFirst max (owed_blocks_at number self.now.handles) result }
        ensures some { NeedsMemoryForBlocks (owed_blocks_at number self.now.handles) result }
    {
        let Some(reader) = self.rows.get(number) else {
            return Ok(GivenBlocks::nothing(alloc));
        };
        give_from(alloc, number_of(self.of), reader, &self.records, max)
    }

    /// How many records are held.
    #[inline(always)]
    pub fn kept(&self) -> u64
        ensures { result ≡ length self.now.kept }
    {
        self.records.end() - self.records.start()
    }

    /// Does nothing. Its contract is the law that its handles are on it, are owed no more than their limits, and stand in
    /// rising number.
    #[inline(always)]
    pub fn handles_are_on_it(&self)
        ensures { AreOnFound self.now.of self.now.handles }
    {
        let _held = self.records.start();
    }

    /// Does nothing. Its contract is the law that its handles read in full or delta mode, and have its name.
    #[inline(always)]
    pub fn handles_are_readers(&self)
        ensures readers { AreReaders self.now.handles }
        ensures named { HaveName self.now.name self.now.handles }
    {
        let _held = self.records.start();
    }

    /// Just those records are held that have to be kept: the longest rest that a handle is owed. Does nothing. Its contract
    /// is the law that says so.
    #[inline(always)]
    pub fn is_exact(&self)
        ensures { self.now.kept ≡ longest_rest_on self.now.of self.now.handles }
    {
        let _held = self.records.start();
    }

    /// The same target with the same handles, without room.
    ///
    /// OutOfMemory is the only error.
    #[tactic(auto, using(crate::proofs::Copying::copied_rows))]
    pub fn copy(&self) -> Result<Subscribers, Refusal>
        ensures of { IfOk result (λ copy. copy.of ≡ self.now.of) }
        ensures name { IfOk result (λ copy. copy.name ≡ self.now.name) }
        ensures handles { IfOk result (λ copy. copy.handles ≡ self.now.handles) }
        ensures kept { IfOk result (λ copy. copy.kept ≡ self.now.kept) }
        ensures err { IfErr result (λ r. r ≡ OutOfMemory) }
    {
        let alloc = *self.rows.allocator();
        let name = self.name.copy()?;
        let records = copy_records(alloc, &self.records)?;
        let counts = self.counts.clone()?;
        let rows = self.rows.copy()?;
        Ok(Subscribers {
            of: self.of,
            name,
            records,
            counts,
            rows,
        })
    }

    /// Whether both are the same target with the same handles, which are owed the same. It takes no memory.
    pub fn same(&self, other: &Subscribers) -> bool
        ensures { IsTrue result ↔ AreSame self.now other.now }
    {
        if !is_of_same(self, other) {
            return false;
        }
        if !same_records(&self.records, &other.records) {
            return false;
        }
        let start = self.records.start();
        let other_start = other.records.start();
        self.rows.same_from(start, &other.rows, other_start)
    }
}
