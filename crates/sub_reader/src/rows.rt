//! The handles on an object or a directory, in rising number.
ghost use Rattle.std.specs.Prelude.{◌≡◌, ◌==◌, ◌<◌, ◌≤◌, ◌+◌, ◌++◌, ◌∷◌, ◌↔◌, [], find, length};
ghost use Rattle.std.specs.Prelude.{IfSome, IfNone, IfOk, IsTrue, OnOk, OnErr};
ghost use Rattle.std.specs.Option.{option_copied};
ghost use Rattle.sub_reader.specs.Rows.{number_in, row_at, rows_of, row_numbered, most_handles};
ghost use Rattle.sub_reader.specs.Rows.{with_progress, parked_with, armed_with};
ghost use Rattle.sub_reader.specs.Rows.{opening_of, parked_of, armed_of};
ghost use Rattle.sub_reader.specs.Rows.{HasRowAt, IsRowAt, IsRowOf, IsAbsent, IsAbove};
ghost use Rattle.sub_reader.specs.Rows.{IsChangedOf, IsChangedAt, IsSlotChangedAt, IsWithout};

use crate::opening::{Opening, Pulse};
use crate::progress::Progress;
use crate::row::{HandleRow, Slot};
use crate::slots::{
    arm_in, compact_if_sparse, end_of_rows, find_row, first_row, known_row, park_in, progress_in,
    row_of, take_row,
};
use pps_types::{Handle, Refusal};
use std::alloc::{AllocError, Global};
use std::marker::Model;

/// Far more handles than have numbers, so that a count of them always fits.
const MOST_HANDLES: usize = 1 << 62;

/// The handles on an object or a directory, each with how far it has read, in rising number.
///
/// A handle is in a slot, and stays there when others close. One that closes leaves a gap with its number, so that a search
/// by numbers still works. The gaps at the end are dropped at once, and all others when they are more than the handles and 16.
/// So handles close in any order at the cost of a search each, and a pass looks at no more than twice the handles and 16.
#[derive(Drop)]
pub struct HandleRows<P> {
    slots: Vec<Slot<P>>,
    count: usize,
}

impl<P> Model for HandleRows<P> {
    ghost use Rattle.std.specs.Prelude.{vec_len, vec_capacity};
    ghost use Rattle.sub_reader.specs.Rows.{Rows, IsSound, places_of};

    ghost Value = { Rows P };

    ghost view = { λ r. record {
      slots = r.slots.items;
      places = places_of (vec_capacity r.slots) (vec_len r.slots);
    } };

    ghost invariant = { λ r. IsSound r.slots.items r.count };
}

impl<P> HandleRows<P> {
    /// No handles. It takes no memory.
    pub fn new(alloc: Global) -> HandleRows<P>
        ensures slots { result.slots ≡ [] }
        ensures places { result.places ≡ 0 }
    {
        HandleRows {
            slots: Vec::new(alloc),
            count: 0,
        }
    }

    /// No handles, and room for so many.
    pub fn with_places(alloc: Global, count: usize) -> Result<HandleRows<P>, AllocError>
        requires { count ≤ most_handles }
        ensures slots { IfOk result (λ rows. rows.slots ≡ []) }
        ensures places { IfOk result (λ rows. count ≤ rows.places) }
    {
        let slots = Vec::with_capacity(alloc, count)?;
        Ok(HandleRows { slots, count: 0 })
    }

    /// What memory is taken from.
    pub fn allocator(&self) -> &Global {
        self.slots.allocator()
    }

    /// How many handles there are.
    pub fn len(&self) -> usize
        ensures count { result ≡ length (rows_of self.now) }
        ensures few { result ≤ most_handles }
    {
        self.count
    }

    /// Whether there are no handles.
    #[inline(always)]
    pub fn is_empty(&self) -> bool
        ensures { IsTrue result ↔ (rows_of self.now ≡ []) }
    {
        self.count == 0
    }

    /// The slots in rising number: the handles, and the gaps between them.
    #[inline(always)]
    pub fn slots(&self) -> &[Slot<P>]
        ensures { result.now ≡ self.now.slots }
    {
        self.slots.as_slice()
    }

    /// Makes room for one more handle. AllocError comes only where there was none. What stands stays.
    pub fn reserve(&mut self) -> Result<(), AllocError>
        ensures same { self.new ≡ record self.old { places = self.new.places } }
        ensures places { OnOk result (0 < self.new.places) }
        ensures kept { self.old.places ≤ self.new.places }
        ensures lacking { OnErr result (self.old.places ≡ 0) }
    {
        if self.slots.len() >= MOST_HANDLES {
            return Err(AllocError);
        }
        self.slots.reserve(1)
    }

    /// Adds a handle, for which there is room. Its number is above those of all others. It takes no memory.
    pub fn push_reserved(&mut self, row: HandleRow<P>)
        requires places { 0 < self.old.places }
        requires above { IsAbove row self.old }
        ensures rows { rows_of self.new ≡ rows_of self.old ++ row ∷ [] }
        ensures places { self.new.places + 1 ≡ self.old.places }
    {
        self.slots.push_reserved(Slot::Row(row));
        self.count += 1;
    }

    /// The place of a handle, if it is open.
    #[inline(always)]
    pub fn find(&self, number: Handle) -> Option<usize>
        ensures found { IfSome result (IsRowOf number self.now) }
        ensures row { IfSome result (λ i. HasRowAt i self.now) }
        ensures few { IfSome result (λ i. i < most_handles) }
        ensures absent { IfNone result (IsAbsent number (rows_of self.now)) }
    {
        find_row(&self.slots, number.number())
    }

    /// A handle, if it is open.
    #[inline(always)]
    pub fn get(&self, number: Handle) -> Option<&HandleRow<P>>
        ensures { option_copied result ≡ find (λ r. number_in r == number) (rows_of self.now) }
    {
        let Some(place) = find_row(&self.slots, number.number()) else {
            return None;
        };
        let slot = &self.slots[place];
        row_of(slot)
    }

    /// The handle at a place, if there is one.
    #[inline(always)]
    pub fn at(&self, place: usize) -> Option<&HandleRow<P>>
        requires { place < length self.now.slots }
        ensures row { option_copied result ≡ row_at place self.now.slots }
        ensures few { length (rows_of self.now) ≤ most_handles }
    {
        let slot = &self.slots[place];
        row_of(slot)
    }

    /// The handle at a place, which has one.
    #[inline(always)]
    pub fn row(&self, place: usize) -> &HandleRow<P>
        requires { HasRowAt place self.now }
        ensures row { IsRowAt place self.now result.now }
        ensures few { length (rows_of self.now) ≤ most_handles }
    {
        let slot = &self.slots[place];
        known_row(slot)
    }

    /// What the open of a handle fixed, if it is open.
    #[inline(always)]
    pub fn opening(&self, number: Handle) -> Option<&Opening>
        ensures { option_copied result ≡ opening_of number self.now }
    {
        match self.get(number) {
            None => None,
            Some(row) => Some(&row.opening),
        }
    }

    /// The size of the read that waits on a handle, if one does.
    pub fn parked(&self, number: Handle) -> Option<u32>
        ensures { result ≡ parked_of number self.now }
    {
        match self.get(number) {
            None => None,
            Some(row) => row.parked,
        }
    }

    /// The pulse that waits on a handle, if one does.
    pub fn armed(&self, number: Handle) -> Option<Pulse>
        ensures { result ≡ armed_of number self.now }
    {
        match self.get(number) {
            None => None,
            Some(row) => row.armed,
        }
    }

    /// A read of that size waits on a handle, or none any more. It takes no memory.
    pub fn park(&mut self, number: Handle, size: Option<u32>)
        ensures rows { IsChangedOf number (parked_with size) self.old self.new }
        ensures places { self.new.places ≡ self.old.places }
    {
        let Some(place) = self.find(number) else {
            return;
        };
        let slot = &mut self.slots[place];
        park_in(slot, size);
    }

    /// A pulse waits on a handle, or none any more. It takes no memory.
    pub fn arm(&mut self, number: Handle, pulse: Option<Pulse>)
        ensures rows { IsChangedOf number (armed_with pulse) self.old self.new }
        ensures places { self.new.places ≡ self.old.places }
    {
        let Some(place) = self.find(number) else {
            return;
        };
        let slot = &mut self.slots[place];
        arm_in(slot, pulse);
    }
}

impl<P> HandleRows<P> {
    ghost use Rattle.std.specs.Prelude.{Some};
    ghost use Rattle.std.specs.Borrow.{Lends, sem};
    ghost use Rattle.sub_reader.specs.Rows.{progress_at, with_progress_at};
    ghost use Rattle.sub_reader.specs.contracts.rows.HandleRows.{the_row};

    /// How far the handle at a place has read, to be changed in place. It takes no memory.
    pub fn progress_mut(&mut self, place: usize) -> &mut P
        requires { HasRowAt place self.old }
        ensures* writes_back { sem 𝓛 (Lends (the_row P.row) P.row self.entry result
            (with_progress_at self.old place)) }
        ensures value { progress_at place self.old ≡ Some result.now }
    {
        self.slots[place].progress_mut()
    }
}

impl<P: Drop> HandleRows<P> {
    /// The handle at a place has read so far. It takes no memory.
    #[inline(always)]
    pub fn set_progress(&mut self, place: usize, progress: P)
        requires { HasRowAt place self.old }
        ensures rows { IsChangedAt place (with_progress progress) self.old self.new }
        ensures slots { IsSlotChangedAt place (with_progress progress) self.old self.new }
        ensures places { self.new.places ≡ self.old.places }
    {
        let slot = &mut self.slots[place];
        progress_in(slot, progress);
    }

    /// Takes out a handle, which closes, if it is open. It takes no memory.
    pub fn take(&mut self, number: Handle) -> Option<HandleRow<P>>
        ensures row { result ≡ row_numbered number self.old }
        ensures rows { IsWithout number self.old self.new }
        ensures places { self.old.places ≤ self.new.places }
    {
        let Some(place) = self.find(number) else {
            return None;
        };
        let slot = &mut self.slots[place];
        let row = take_row(slot);
        self.count -= 1;
        let end = end_of_rows(&self.slots);
        self.slots.truncate(end);
        compact_if_sparse(&mut self.slots, self.count);
        Some(row)
    }
}

impl<P: Progress> HandleRows<P> {
    ghost use Rattle.std.specs.Prelude.{IfErr};
    ghost use Rattle.pps_types.specs.declared.refusal.Refusal.TheVariants.{OutOfMemory};
    ghost use Rattle.sub_reader.specs.Alike.{rows_told, AreCopiesOf};

    /// The same handles once more, without room.
    ///
    /// OutOfMemory is the only error.
    pub fn copy(&self) -> Result<HandleRows<P>, Refusal>
        ensures ok { IfOk result (AreCopiesOf P.told self.now) }
        ensures err { IfErr result (λ r. r ≡ OutOfMemory) }
    {
        let mut copy = HandleRows::with_places(*self.slots.allocator(), self.len())?;
        let mut rest = self.slots();
        while let Some(first) = first_row(rest) {
            let row = first.row.copy()?;
            copy.push_reserved(row);
            rest = first.behind;
        }
        Ok(copy)
    }

    /// Whether the same stands of both, one by one, each told from where its records begin. It takes no memory.
    pub fn same_from(&self, start: u64, other: &HandleRows<P>, other_start: u64) -> bool
        ensures { IsTrue result
            ↔ (rows_told P.told start self.now ≡ rows_told P.told other_start other.now) }
    {
        let mut ours = self.slots();
        let mut theirs = other.slots();
        while let Some(our) = first_row(ours) {
            let Some(their) = first_row(theirs) else {
                return false;
            };
            if !our.row.same_from(start, their.row, other_start) {
                return false;
            }
            ours = our.behind;
            theirs = their.behind;
        }
        first_row(theirs).is_none()
    }
}
