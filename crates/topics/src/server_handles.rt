//! One server object with its server's and its clients' handles.
ghost use Rattle.std.specs.Prelude.{◌≡◌, ◌&&◌, ◌∷◌, ◌+◌, ◌<◌, ◌≤◌, ◌↔◌, ◌||◌, [], IsTrue, false, length, IfOk, IfErr, IsOk, OnOk, OnErr};
ghost use Rattle.pps_types.specs.Reading as reading;
ghost use Rattle.pps_types.specs.Bytes.{is_empty};
ghost use Rattle.pps_types.specs.Checks as checking;
ghost use Rattle.pps_types.specs.declared.refusal.Refusal.TheVariants.{OutOfMemory};
ghost use Rattle.pps_types.specs.Plan.{without_number};
ghost use Rattle.server_queue.specs.Given.{GivesFitting, RefusesTooSmall, ChecksSizeFirst, NeedsMemoryForBlocks};
ghost use Rattle.sub_reader.specs.Blocks.{owed_blocks_at};
ghost use Rattle.sub_reader.specs.Opened.{armed_pulse, IsOpeningAt};
ghost use Rattle.sub_reader.specs.Glances.{IsGlanceAt};
ghost use Rattle.sub_reader.specs.HandleAt.{parked_at, armed_at, has_news_at, owed_at, AreBelow};
ghost use Rattle.sub_reader.specs.HandleAt.{with_offered, with_caught_up, with_passed, with_parked, with_armed};
ghost use Rattle.sub_reader.specs.Rows.{rows_of};
ghost use Rattle.sub_reader.specs.HandlesOf.{AreOn, HaveName};
ghost use Rattle.sub_reader.specs.Woken.{woken_by};
ghost use Rattle.topics.specs.Standing.{IsReady, KeepsRoom, UsesRoomFor, handles_with, IsSameObject, AreSame};
ghost use Rattle.topics.specs.Standing.{AreQueued, ShareNoList};
ghost use Rattle.server_queue.specs.Shared.{seer_count, shares_for};
ghost use Rattle.topics.specs.Backlogs.{is_server_full_at, is_client_full_at, full_client_in};

use crate::full::find_full;
use crate::glance::glance_at;
use crate::offers::{count_seers, offer_each};
use crate::rooms::reserve_each;
use crate::shares::Shares;
use crate::span::{find_span, within};
use crate::woken::find_woken;
use pps_types::{Bytes, Handle, HandleKind, ObjId, Refusal};
use server_queue::{Entry, GivenBlocks, Queue, Sender};
use std::alloc::{AllocError, Global};
use std::marker::Model;
use std::slice::from_ref;
use sub_reader::{Glance, HandleRow, HandleRows, Opening, Pulse};

/// A server object: the handles of its server and of its clients, each with the queue of what it is owed.
#[derive(Drop)]
pub struct ServerHandles {
    object: ObjId,
    name: Bytes,
    rows: HandleRows<Queue>,
    /// All but the first of them are known to be clients'.
    led: bool,
}

impl Model for ServerHandles {
    ghost use Rattle.std.specs.Prelude.{map};
    ghost use Rattle.sub_reader.specs.Rows.{rows_of};
    ghost use Rattle.topics.specs.QueueRows.{handle_of, IsService};
    ghost use Rattle.topics.specs.Standing.{Standing, spare_of};

    ghost Value = { Standing };

    ghost view = { λ s. record {
      object = s.object;
      name = s.name;
      handles = map (handle_of s.object s.name) (rows_of s.rows);
      spares = map spare_of (rows_of s.rows);
      places = s.rows.places;
    } };

    ghost invariant = { λ s. IsService s.object s.led (rows_of s.rows) };
}

// Whether both are of the same number and name.
fn is_of_same(one: &ServerHandles, other: &ServerHandles) -> bool
    ensures { IsTrue result ↔ IsSameObject one.now other.now }
{
    one.object == other.object && one.name == other.name
}

// Whether all but the first are known to be clients' once a handle of that kind is put behind them.
fn stays_led(rows: &HandleRows<Queue>, led: bool, kind: HandleKind) -> bool
    ensures { result ≡ (led && (is_empty (rows_of rows.now) || checking.is_client kind)) }
{
    led && (rows.is_empty() || matches!(kind, HandleKind::Client))
}

impl ServerHandles {
    /// A server object without handles. It takes no memory.
    pub fn new(alloc: Global, object: ObjId, name: Bytes) -> ServerHandles
        ensures object { result.object ≡ object }
        ensures name { result.name ≡ name }
        ensures handles { result.handles ≡ [] }
        ensures places { result.places ≡ 0 }
    {
        ServerHandles {
            object,
            name,
            rows: HandleRows::new(alloc),
            led: true,
        }
    }

    /// The number of the object.
    pub fn object(&self) -> ObjId
        ensures { result ≡ self.now.object }
    {
        self.object
    }

    /// Whether it has no handle.
    pub fn is_empty(&self) -> bool
        ensures { IsTrue result ↔ (self.now.handles ≡ []) }
    {
        self.rows.is_empty()
    }

    /// How many handles it has.
    pub fn len(&self) -> usize
        ensures { result ≡ length self.now.handles }
    {
        self.rows.len()
    }

    /// Makes room for one more handle. What stands stays, and so does room that was made before.
    ///
    /// AllocError comes only where there was none.
    pub fn reserve_handle(&mut self) -> Result<(), AllocError>
        ensures same { self.new ≡ record self.old { places = self.new.places } }
        ensures places { OnOk result (0 < self.new.places) }
        ensures kept { self.old.places ≤ self.new.places }
        ensures lacking { OnErr result (self.old.places ≡ 0) }
    {
        self.rows.reserve()
    }

    /// Opens a handle of the server or of a client, for which there is room. Its number is above those of all others, and
    /// its queue begins empty. It takes no memory.
    pub fn open_reserved(&mut self, opening: Opening)
        requires places { 0 < self.old.places }
        requires queue { reading.style opening.kind ≡ reading.Queue }
        requires above { AreBelow opening.number self.old.handles }
        ensures object { self.new.object ≡ self.old.object }
        ensures name { self.new.name ≡ self.old.name }
        ensures handles { self.new.handles ≡ handles_with opening self.old }
        ensures places { self.new.places + 1 ≡ self.old.places }
    {
        let progress = Queue::new(*self.rows.allocator(), opening.limit);
        self.led = stays_led(&self.rows, self.led, opening.kind);
        self.rows.push_reserved(HandleRow {
            opening,
            progress,
            parked: None,
            armed: None,
        });
    }

    /// Makes room in the queues for a few records: in each for those that are for its handle. What stands stays, and so does
    /// room that was made before.
    ///
    /// AllocError comes only where there was not as much room.
    pub fn reserve(&mut self, entries: &[Entry]) -> Result<(), AllocError>
        ensures object { self.new.object ≡ self.old.object }
        ensures name { self.new.name ≡ self.old.name }
        ensures handles { self.new.handles ≡ self.old.handles }
        ensures places { self.new.places ≡ self.old.places }
        ensures ready { OnOk result (IsReady entries.now self.new) }
        ensures kept { KeepsRoom self.old self.new }
        ensures succeeds { IsReady entries.now self.old → IsOk result }
    {
        let object = self.object.number();
        let span = find_span(&self.rows, self.led, entries);
        reserve_each(object, &mut self.rows, span, entries)
    }

    /// Shares of a record, one for each handle that is given it.
    ///
    /// AllocError comes only where memory is wanting.
    pub fn shares(&self, alloc: Global, entry: Entry) -> Result<Shares, AllocError>
        ensures { IfOk result (λ shares. shares ≡ shares_for entry self.now.handles) }
    {
        let span = find_span(&self.rows, self.led, from_ref(&entry));
        let slots = within(self.rows.slots(), span);
        let count = count_seers(self.object.number(), slots, &entry);
        Shares::new(alloc, entry, count)
    }

    /// Offers the handles a record, of which there are shares and for which there is room: it is owed to each that is given
    /// it. It takes no memory.
    pub fn offer(&mut self, mut shares: Shares)
        requires room { IsReady (shares.entry ∷ []) self.old }
        requires enough { seer_count shares.entry self.old.handles ≤ shares.count }
        ensures object { self.new.object ≡ self.old.object }
        ensures name { self.new.name ≡ self.old.name }
        ensures handles { self.new.handles ≡ with_offered shares.entry self.old.handles }
        ensures ready { UsesRoomFor shares.entry self.old self.new }
        ensures places { self.new.places ≡ self.old.places }
    {
        let object = self.object.number();
        let span = find_span(&self.rows, self.led, from_ref(shares.entry()));
        offer_each(object, &mut self.rows, span, &mut shares);
    }

    /// A read of that size waits on a handle, or none any more. It takes no memory.
    pub fn park(&mut self, number: Handle, size: Option<u32>)
        ensures object { self.new.object ≡ self.old.object }
        ensures name { self.new.name ≡ self.old.name }
        ensures handles { self.new.handles ≡ with_parked number size self.old.handles }
        ensures spares { self.new.spares ≡ self.old.spares }
        ensures places { self.new.places ≡ self.old.places }
    {
        self.rows.park(number, size);
    }

    /// A pulse waits on a handle, or none any more. It takes no memory.
    pub fn arm(&mut self, number: Handle, pulse: Option<Pulse>)
        ensures object { self.new.object ≡ self.old.object }
        ensures name { self.new.name ≡ self.old.name }
        ensures handles { self.new.handles ≡ with_armed number pulse self.old.handles }
        ensures spares { self.new.spares ≡ self.old.spares }
        ensures places { self.new.places ≡ self.old.places }
    {
        self.rows.arm(number, pulse);
    }

    /// Closes a handle. It takes no memory.
    pub fn close(&mut self, number: Handle)
        ensures object { self.new.object ≡ self.old.object }
        ensures name { self.new.name ≡ self.old.name }
        ensures handles { self.new.handles ≡ without_number number self.old.handles }
        ensures ready { KeepsRoom self.old self.new }
        ensures places { self.old.places ≤ self.new.places }
    {
        let _ = self.rows.take(number);
    }

    /// A handle has read everything. It takes no memory.
    pub fn catch_up(&mut self, number: Handle)
        ensures object { self.new.object ≡ self.old.object }
        ensures name { self.new.name ≡ self.old.name }
        ensures handles { self.new.handles ≡ with_caught_up number self.old.handles }
        ensures places { self.new.places ≡ self.old.places }
    {
        let Some(place) = self.rows.find(number) else {
            return;
        };
        let queue = self.rows.progress_mut(place);
        let count = queue.owed_count();
        queue.pass(count);
    }

    /// A handle was given so many of the records that it is owed. It takes no memory.
    pub fn pass(&mut self, number: Handle, count: usize)
        ensures object { self.new.object ≡ self.old.object }
        ensures name { self.new.name ≡ self.old.name }
        ensures handles { self.new.handles ≡ with_passed number count self.old.handles }
        ensures places { self.new.places ≡ self.old.places }
    {
        let Some(place) = self.rows.find(number) else {
            return;
        };
        self.rows.progress_mut(place).pass(count);
    }

    /// What the open of a handle fixed, where it is here.
    pub fn opening(&self, number: Handle) -> Option<&Opening>
        ensures { IsOpeningAt number self.now.object self.now.name self.now.handles result }
    {
        self.rows.opening(number)
    }

    /// What is seen of a handle at one look, if it is here.
    pub fn glance(&self, number: Handle) -> Option<Glance<'_>>
        ensures { IsGlanceAt number self.now.object self.now.name self.now.handles result }
    {
        match self.rows.get(number) {
            None => None,
            Some(row) => Some(glance_at(row)),
        }
    }

    /// The size of the read that waits on a handle, if one does.
    pub fn parked(&self, number: Handle) -> Option<u32>
        ensures { result ≡ parked_at number self.now.handles }
    {
        self.rows.parked(number)
    }

    /// The pulse that is armed on a handle, if one is.
    pub fn armed(&self, number: Handle) -> Option<Pulse>
        ensures { armed_pulse result ≡ armed_at number self.now.handles }
    {
        self.rows.armed(number)
    }

    /// The name of the object.
    pub fn name(&self) -> &[u8]
        ensures { result.now ≡ self.now.name }
    {
        self.name.as_slice()
    }

    /// Whether a handle is here that a read would give something.
    pub fn has_news(&self, number: Handle) -> bool
        ensures { result ≡ has_news_at number self.now.handles }
    {
        match self.rows.get(number) {
            None => false,
            Some(row) => row.progress.news(),
        }
    }

    /// The handles that these records wake, in rising number: a read or a pulse waits on each, and it has been owed nothing
    /// until one of them, which it is given. It looks at each handle once, and changes nothing.
    ///
    /// AllocError comes only where memory is wanting.
    pub fn woken_by(&self, alloc: Global, entries: &[Entry]) -> Result<Vec<Handle>, AllocError>
        ensures { IfOk result (λ woken. woken.items ≡ woken_by entries.now self.now.handles) }
    {
        let span = find_span(&self.rows, self.led, entries);
        let slots = within(self.rows.slots(), span);
        find_woken(alloc, self.object.number(), slots, entries)
    }

    /// How many records a handle is owed, where it is here.
    pub fn owed(&self, number: Handle) -> Option<usize>
        ensures { result ≡ owed_at number self.now.handles }
    {
        match self.rows.get(number) {
            None => None,
            Some(row) => Some(row.progress.owed_count()),
        }
    }

    /// What a read of at most `max` bytes gives a handle of the records that it is owed: the longest run of whole blocks
    /// that fits. Nothing moves.
    ///
    /// It is TooSmall, with the size, where the first block does not fit, before any memory is taken; else OutOfMemory is
    /// the only error, where something is owed.
    pub fn read_owed(&self, alloc: Global, number: Handle, max: u32) -> Result<GivenBlocks, Refusal>
        ensures ok { GivesFitting max (owed_blocks_at number self.now.handles) result }
        ensures refusal { RefusesTooSmall max (owed_blocks_at number self.now.handles) result }
        ensures memory { ChecksSizeFirst max (owed_blocks_at number self.now.handles) result }
        ensures some { NeedsMemoryForBlocks (owed_blocks_at number self.now.handles) result }
    {
        let Some(row) = self.rows.get(number) else {
            return Ok(GivenBlocks::nothing(alloc));
        };
        row.progress.read_plan(&[], max)
    }

    /// Whether the server's handle, if it is here, is owed as many messages of a client as its limit.
    pub fn is_server_full(&self, server: Handle, client: Handle) -> bool
        ensures { result ≡ is_server_full_at server client self.now.handles }
    {
        match self.rows.get(server) {
            None => false,
            Some(row) => !row.progress.can_take(Sender::Client(client)),
        }
    }

    /// Whether a client's handle, if it is here, is owed as many messages of its server as its limit.
    pub fn is_client_full(&self, client: Handle) -> bool
        ensures { result ≡ is_client_full_at client self.now.handles }
    {
        match self.rows.get(client) {
            None => false,
            Some(row) => !row.progress.can_take(Sender::Server),
        }
    }

    /// The first client, in rising number, that is owed as many messages of its server as its limit.
    pub fn full_client(&self) -> Option<Handle>
        ensures { result ≡ full_client_in self.now.handles }
    {
        find_full(self.rows.slots())
    }

    /// Does nothing. Its contract is the law that its handles are on it, and stand in rising number.
    pub fn handles_are_on_it(&self)
        ensures { AreOn false self.now.object self.now.handles }
    {
        let _count = self.rows.len();
    }

    /// Does nothing. Its contract is the law that its handles are its server's and its clients', and have its name.
    pub fn handles_are_queued(&self)
        ensures queued { AreQueued self.now.handles }
        ensures named { HaveName self.now.name self.now.handles }
    {
        let _count = self.rows.len();
    }

    /// Does nothing. Its contract is the law that none of its handles is owed records of a list that handles share.
    pub fn shares_no_list(&self)
        ensures { ShareNoList self.now.handles }
    {
        let _count = self.rows.len();
    }

    /// A server object of the same number and name, with the same handles, without room.
    ///
    /// OutOfMemory is the only error.
    pub fn copy(&self) -> Result<ServerHandles, Refusal>
        ensures object { IfOk result (λ copy. copy.object ≡ self.now.object) }
        ensures name { IfOk result (λ copy. copy.name ≡ self.now.name) }
        ensures handles { IfOk result (λ copy. copy.handles ≡ self.now.handles) }
        ensures err { IfErr result (λ r. r ≡ OutOfMemory) }
    {
        let name = self.name.copy()?;
        let rows = self.rows.copy()?;
        Ok(ServerHandles {
            object: self.object,
            name,
            rows,
            led: self.led,
        })
    }

    /// Whether both are of the same number and name and have the same handles, which are owed the same. It takes no
    /// memory.
    pub fn same(&self, other: &ServerHandles) -> bool
        ensures { IsTrue result ↔ AreSame self.now other.now }
    {
        is_of_same(self, other) && self.rows.same_from(0, &other.rows, 0)
    }
}
