//! Readers or the handles of a server object.
ghost use Rattle.std.specs.Prelude.{◌≡◌, ◌↔◌, ◌∷◌, ◌+◌, ◌<◌, ◌≤◌, [], IsTrue, true, false, length, IfOk, IfErr, IsOk, OnOk, OnErr};
ghost use Rattle.pps_types.specs.declared.found.Found.TheVariants.{Object as FoundObject, Directory as FoundDirectory};
ghost use Rattle.pps_types.specs.declared.refusal.Refusal.TheVariants.{OutOfMemory};
ghost use Rattle.pps_types.specs.Plan.{without_number};
ghost use Rattle.server_queue.specs.Given.{GivesFitting, RefusesTooSmall, ChecksSizeFirst, NeedsMemoryForBlocks};
ghost use Rattle.sub_reader.specs.Blocks.{owed_blocks_at};
ghost use Rattle.sub_reader.specs.Opened.{armed_pulse};
ghost use Rattle.sub_reader.specs.HandleAt.{parked_at, armed_at, has_news_at, owed_at, AreBelow};
ghost use Rattle.sub_reader.specs.HandleAt.{with_offered, with_caught_up, with_passed, with_parked, with_armed};
ghost use Rattle.sub_reader.specs.HandlesOf.{AreOnFound, longest_rest_on, HaveName};
ghost use Rattle.sub_reader.specs.Woken.{woken_by};
ghost use Rattle.topics.specs.HandlesOf.{target_of, name_of, handles_of, kept_of, places_of, is_service, handles_with, IsPlaced};
ghost use Rattle.topics.specs.HandlesOf.{IsReady, Suits, IsSameTarget, AreSame, KeepsRoom, UsesRoomFor, IsEnough};
ghost use Rattle.topics.specs.HandlesOf.{HasOpening, HasGlance, AreQueuedJustIf};
ghost use Rattle.topics.specs.Backlogs.{is_server_full_at, is_client_full_at, full_client_in};

use crate::server_handles::ServerHandles;
use crate::shares::Shares;
use crate::unused::{Target, Unused};
use pps_types::{Bytes, DirId, Found, Handle, ObjId, Refusal};
use server_queue::{Entry, GivenBlocks};
use std::alloc::{AllocError, Global};
use sub_reader::{Glance, Opening, Pulse, Subscribers};

/// The handles on an object or a directory. Where the object is a server's, they are its server's and its clients', each
/// with a queue; and else readers, which share one list of records. As long as there was none, there is no place for them.
pub enum Topic {
    Unused(Unused),
    Readers(Box<Subscribers>),
    Served(Box<ServerHandles>),
}

// Written out, since each crate that drops one would prove a derived drop anew, with those of all its parts.
impl Drop for Topic {
    fn drop(self) {
        match self {
            Topic::Unused(_) => {}
            Topic::Readers(_) => {}
            Topic::Served(_) => {}
        }
    }
}

// Whether both are the same object or directory, of the same name.
fn are_of_same(one: &Topic, other: &Topic) -> bool
    ensures { IsTrue result ↔ IsSameTarget one.now other.now }
{
    one.target() == other.target()
        && one.is_service() == other.is_service()
        && one.name() == other.name()
}

impl Topic {
    /// A plain object without handles. It takes no memory.
    pub fn of_object(alloc: Global, object: ObjId, name: Bytes) -> Topic
        ensures target { target_of result ≡ FoundObject object }
        ensures service { is_service result ≡ false }
        ensures name { name_of result ≡ name }
        ensures handles { handles_of result ≡ [] }
        ensures kept { kept_of result ≡ [] }
    {
        Topic::Unused(Unused {
            alloc,
            target: Target::Object(object, name),
        })
    }

    /// A server object without handles. It takes no memory.
    pub fn of_service(alloc: Global, object: ObjId, name: Bytes) -> Topic
        ensures target { target_of result ≡ FoundObject object }
        ensures service { is_service result ≡ true }
        ensures name { name_of result ≡ name }
        ensures handles { handles_of result ≡ [] }
        ensures kept { kept_of result ≡ [] }
    {
        Topic::Unused(Unused {
            alloc,
            target: Target::Service(object, name),
        })
    }

    /// A directory without handles. It takes no memory.
    pub fn of_directory(alloc: Global, directory: DirId) -> Topic
        ensures target { target_of result ≡ FoundDirectory directory }
        ensures service { is_service result ≡ false }
        ensures name { name_of result ≡ [] }
        ensures handles { handles_of result ≡ [] }
        ensures kept { kept_of result ≡ [] }
    {
        Topic::Unused(Unused {
            alloc,
            target: Target::Directory(directory),
        })
    }

    /// Does nothing. Its contract is the law that its handles are on it, are owed no more than their limits, and stand in
    /// rising number.
    #[inline(always)]
    pub fn handles_are_on_it(&self)
        ensures { AreOnFound (target_of self.now) (handles_of self.now) }
    {
        match self {
            Topic::Unused(_) => {}
            Topic::Readers(target) => target.handles_are_on_it(),
            Topic::Served(service) => service.handles_are_on_it(),
        }
    }

    /// Does nothing. Its contract is the law that its handles suit it, and have its name.
    #[inline(always)]
    pub fn handles_suit(&self)
        ensures suit { AreQueuedJustIf (is_service self.now) (handles_of self.now) }
        ensures named { HaveName (name_of self.now) (handles_of self.now) }
    {
        match self {
            Topic::Unused(_) => {}
            Topic::Readers(target) => target.handles_are_readers(),
            Topic::Served(service) => service.handles_are_queued(),
        }
    }

    /// Just those records are held for readers that have to be kept: the longest rest that a handle is owed. Does nothing.
    /// Its contract is the law that says so.
    #[inline(always)]
    pub fn is_exact(&self)
        ensures { kept_of self.now ≡ longest_rest_on (target_of self.now) (handles_of self.now) }
    {
        match self {
            Topic::Unused(_) => {}
            Topic::Readers(target) => target.is_exact(),
            Topic::Served(service) => service.shares_no_list(),
        }
    }

    /// How many records are held for readers. Of a server object none are: its handles have queues.
    #[inline(always)]
    pub fn kept(&self) -> usize
        ensures { result ≡ length (kept_of self.now) }
    {
        match self {
            Topic::Unused(_) => 0,
            Topic::Readers(target) => target.kept() as usize,
            Topic::Served(_) => 0,
        }
    }

    /// Whether they are a server object's.
    #[inline(always)]
    pub fn is_service(&self) -> bool
        ensures { result ≡ is_service self.now }
    {
        match self {
            Topic::Unused(unused) => unused.target.is_service(),
            Topic::Readers(_) => false,
            Topic::Served(_) => true,
        }
    }

    /// Whether it has no handle.
    #[inline(always)]
    pub fn is_empty(&self) -> bool
        ensures { IsTrue result ↔ (handles_of self.now ≡ []) }
    {
        match self {
            Topic::Unused(_) => true,
            Topic::Readers(target) => target.is_empty(),
            Topic::Served(service) => service.is_empty(),
        }
    }

    // Whether there is a place for handles.
    #[inline(always)]
    fn is_placed(&self) -> bool
        ensures { IsTrue result ↔ IsPlaced self.now }
    {
        !matches!(self, Topic::Unused(_))
    }

    // Makes a place for handles, if there is none. AllocError comes only where there was none.
    #[inline(always)]
    fn place(&mut self) -> Result<(), AllocError>
        ensures placed { OnOk result (IsPlaced self.new) }
        ensures same { IsSameTarget self.old self.new }
        ensures handles { handles_of self.new ≡ handles_of self.old }
        ensures kept { kept_of self.new ≡ kept_of self.old }
        ensures room { KeepsRoom self.old self.new }
        ensures places { places_of self.new ≡ places_of self.old }
        ensures lacking { OnErr result (IsPlaced self.old → ⊥) }
    {
        if let Topic::Unused(unused) = self {
            *self = unused.placed()?;
        }
        Ok(())
    }

    /// Makes room for one more handle. AllocError comes only where there was none. What stands stays.
    #[inline(always)]
    pub fn reserve_handle(&mut self) -> Result<(), AllocError>
        ensures same { IsSameTarget self.old self.new }
        ensures handles { handles_of self.new ≡ handles_of self.old }
        ensures kept { kept_of self.new ≡ kept_of self.old }
        ensures room { KeepsRoom self.old self.new }
        ensures places { OnOk result (0 < places_of self.new) }
        ensures more { places_of self.old ≤ places_of self.new }
        ensures lacking { OnErr result (places_of self.old ≡ 0) }
    {
        self.place()?;
        match self {
            Topic::Unused(_) => Ok(()),
            Topic::Readers(target) => target.reserve_handle(),
            Topic::Served(service) => service.reserve_handle(),
        }
    }

    /// Opens a handle, for which there is room, and which suits. Its number is above those of all others. It takes no
    /// memory.
    #[inline(always)]
    pub fn open_reserved(&mut self, opening: Opening)
        requires places { 0 < places_of self.old }
        requires suits { Suits opening.kind self.old }
        requires above { AreBelow opening.number (handles_of self.old) }
        ensures same { IsSameTarget self.old self.new }
        ensures handles { handles_of self.new ≡ handles_with opening self.old }
        ensures kept { kept_of self.new ≡ kept_of self.old }
        ensures places { places_of self.new + 1 ≡ places_of self.old }
    {
        match self {
            Topic::Unused(_) => {}
            Topic::Readers(target) => target.open_reserved(opening),
            Topic::Served(service) => service.open_reserved(opening),
        }
    }

    /// Makes room for a few records of this target. What stands stays, and so does room that was made before.
    ///
    /// AllocError comes only where there was not as much room.
    #[inline(always)]
    pub fn reserve(&mut self, entries: &[Entry]) -> Result<(), AllocError>
        ensures same { IsSameTarget self.old self.new }
        ensures handles { handles_of self.new ≡ handles_of self.old }
        ensures kept { kept_of self.new ≡ kept_of self.old }
        ensures places { places_of self.new ≡ places_of self.old }
        ensures ready { OnOk result (IsReady entries.now self.new) }
        ensures room { KeepsRoom self.old self.new }
        ensures succeeds { IsReady entries.now self.old → IsOk result }
    {
        if entries.is_empty() && !self.is_placed() {
            return Ok(());
        }
        self.place()?;
        match self {
            Topic::Unused(_) => Ok(()),
            Topic::Readers(target) => target.reserve(entries.len()),
            Topic::Served(service) => service.reserve(entries),
        }
    }

    /// Shares of a record, one for each handle of a server object that is given it. Readers share one.
    ///
    /// AllocError comes only where memory is wanting.
    #[inline(always)]
    pub fn shares(&self, alloc: Global, entry: Entry) -> Result<Shares, AllocError>
        ensures entry { IfOk result (λ shares. shares.entry ≡ entry) }
        ensures enough { IfOk result (λ shares. IsEnough shares.count shares.entry self.now) }
    {
        match self {
            Topic::Unused(_) => Ok(Shares::alone(entry)),
            Topic::Readers(_) => Ok(Shares::alone(entry)),
            Topic::Served(service) => service.shares(alloc, entry),
        }
    }

    /// Offers the handles a record, of which there are enough shares and for which there is room: each that sees it is owed
    /// it from then on, or has news, or is past its limit. It takes no memory, and looks at each handle once.
    #[inline(always)]
    pub fn offer(&mut self, shares: Shares)
        requires room { IsReady (shares.entry ∷ []) self.old }
        requires enough { IsEnough shares.count shares.entry self.old }
        ensures same { IsSameTarget self.old self.new }
        ensures handles { handles_of self.new ≡ with_offered shares.entry (handles_of self.old) }
        ensures room { UsesRoomFor shares.entry self.old self.new }
        ensures places { places_of self.new ≡ places_of self.old }
    {
        match self {
            Topic::Unused(_) => {}
            Topic::Readers(target) => target.offer(shares.into_entry()),
            Topic::Served(service) => service.offer(shares),
        }
    }

    /// A handle has read everything. It takes no memory.
    #[inline(always)]
    pub fn catch_up(&mut self, number: Handle)
        ensures same { IsSameTarget self.old self.new }
        ensures handles { handles_of self.new ≡ with_caught_up number (handles_of self.old) }
        ensures places { places_of self.new ≡ places_of self.old }
    {
        match self {
            Topic::Unused(_) => {}
            Topic::Readers(target) => target.catch_up(number),
            Topic::Served(service) => service.catch_up(number),
        }
    }

    /// A handle was given so many of the records that it is owed. It takes no memory.
    #[inline(always)]
    pub fn pass(&mut self, number: Handle, count: usize)
        ensures same { IsSameTarget self.old self.new }
        ensures handles { handles_of self.new ≡ with_passed number count (handles_of self.old) }
        ensures places { places_of self.new ≡ places_of self.old }
    {
        match self {
            Topic::Unused(_) => {}
            Topic::Readers(target) => target.pass(number, count),
            Topic::Served(service) => service.pass(number, count),
        }
    }

    /// A read of that size waits on a handle, or none any more. It takes no memory.
    #[inline(always)]
    pub fn park(&mut self, number: Handle, size: Option<u32>)
        ensures same { IsSameTarget self.old self.new }
        ensures handles { handles_of self.new ≡ with_parked number size (handles_of self.old) }
        ensures places { places_of self.new ≡ places_of self.old }
    {
        match self {
            Topic::Unused(_) => {}
            Topic::Readers(target) => target.park(number, size),
            Topic::Served(service) => service.park(number, size),
        }
    }

    /// A pulse waits on a handle, or none any more. It takes no memory.
    #[inline(always)]
    pub fn arm(&mut self, number: Handle, pulse: Option<Pulse>)
        ensures same { IsSameTarget self.old self.new }
        ensures handles { handles_of self.new ≡ with_armed number pulse (handles_of self.old) }
        ensures places { places_of self.new ≡ places_of self.old }
    {
        match self {
            Topic::Unused(_) => {}
            Topic::Readers(target) => target.arm(number, pulse),
            Topic::Served(service) => service.arm(number, pulse),
        }
    }

    /// Closes a handle. It takes no memory, and room for records stays.
    #[inline(always)]
    pub fn close(&mut self, number: Handle)
        ensures same { IsSameTarget self.old self.new }
        ensures handles { handles_of self.new ≡ without_number number (handles_of self.old) }
        ensures room { KeepsRoom self.old self.new }
        ensures places { places_of self.old ≤ places_of self.new }
    {
        match self {
            Topic::Unused(_) => {}
            Topic::Readers(target) => target.close(number),
            Topic::Served(service) => service.close(number),
        }
    }

    /// What the open of a handle fixed, where it is here.
    #[inline(always)]
    pub fn opening(&self, number: Handle) -> Option<&Opening>
        ensures { HasOpening self.now number result }
    {
        match self {
            Topic::Unused(_) => None,
            Topic::Readers(target) => target.opening(number),
            Topic::Served(service) => service.opening(number),
        }
    }

    /// What is seen of a handle at one look, where it is here.
    #[inline(always)]
    pub fn glance(&self, number: Handle) -> Option<Glance<'_>>
        ensures { HasGlance self.now number result }
    {
        match self {
            Topic::Unused(_) => None,
            Topic::Readers(target) => target.glance(number),
            Topic::Served(service) => service.glance(number),
        }
    }

    /// The size of the read that waits on a handle, if one does.
    #[inline(always)]
    pub fn parked(&self, number: Handle) -> Option<u32>
        ensures { result ≡ parked_at number (handles_of self.now) }
    {
        match self {
            Topic::Unused(_) => None,
            Topic::Readers(target) => target.parked(number),
            Topic::Served(service) => service.parked(number),
        }
    }

    /// The pulse that is armed on a handle, if one is.
    #[inline(always)]
    pub fn armed(&self, number: Handle) -> Option<Pulse>
        ensures { armed_pulse result ≡ armed_at number (handles_of self.now) }
    {
        match self {
            Topic::Unused(_) => None,
            Topic::Readers(target) => target.armed(number),
            Topic::Served(service) => service.armed(number),
        }
    }

    /// Whether a handle is here that a read would give something new.
    #[inline(always)]
    pub fn has_news(&self, number: Handle) -> bool
        ensures { result ≡ has_news_at number (handles_of self.now) }
    {
        match self {
            Topic::Unused(_) => false,
            Topic::Readers(target) => target.has_news(number),
            Topic::Served(service) => service.has_news(number),
        }
    }

    /// The name of the object, and none of a directory.
    #[inline(always)]
    pub fn name(&self) -> &[u8]
        ensures { result.now ≡ name_of self.now }
    {
        match self {
            Topic::Unused(unused) => unused.target.name(),
            Topic::Readers(target) => target.name(),
            Topic::Served(service) => service.name(),
        }
    }

    /// How many records a handle is owed: none is told where it is not here, in full mode, before the first read and past
    /// the limit.
    #[inline(always)]
    pub fn owed(&self, number: Handle) -> Option<usize>
        ensures { result ≡ owed_at number (handles_of self.now) }
    {
        match self {
            Topic::Unused(_) => None,
            Topic::Readers(target) => match target.owed(number) {
                None => None,
                Some(count) => Some(count as usize),
            },
            Topic::Served(service) => service.owed(number),
        }
    }

    /// The handles that these records wake, in rising number: a read or a pulse waits on each, and it has had no news until
    /// one of them, which it sees. It looks at each handle once, and changes nothing.
    ///
    /// AllocError comes only where memory is wanting.
    #[inline(always)]
    pub fn woken_by(&self, alloc: Global, entries: &[Entry]) -> Result<Vec<Handle>, AllocError>
        ensures { IfOk result (λ woken. woken.items ≡ woken_by entries.now (handles_of self.now)) }
    {
        match self {
            Topic::Unused(_) => Ok(Vec::new(alloc)),
            Topic::Readers(target) => target.woken_by(alloc, entries),
            Topic::Served(service) => service.woken_by(alloc, entries),
        }
    }

    /// What a read of at most `max` bytes gives a handle of the records that it is owed: the longest run of whole blocks
    /// that fits. Nothing moves.
    ///
    /// It is TooSmall, with the size, where the first block does not fit, before any memory is taken; else OutOfMemory is
    /// the only error, where something is owed.
    #[inline(always)]
    pub fn read_owed(&self, alloc: Global, number: Handle, max: u32) -> Result<GivenBlocks, Refusal>
        ensures ok { GivesFitting max (owed_blocks_at number (handles_of self.now)) result }
        ensures refusal { RefusesTooSmall max (owed_blocks_at number (handles_of self.now)) result }
        ensures memory { ChecksSizeFirst max (owed_blocks_at number (handles_of self.now)) result }
        ensures some { NeedsMemoryForBlocks (owed_blocks_at number (handles_of self.now)) result }
    {
        match self {
            Topic::Unused(_) => Ok(GivenBlocks::nothing(alloc)),
            Topic::Readers(target) => target.read_owed(alloc, number, max),
            Topic::Served(service) => service.read_owed(alloc, number, max),
        }
    }

    /// Whether the server's handle, if it is here, is owed as many messages of a client as its limit. It is asked of a server
    /// object.
    #[inline(always)]
    pub fn is_server_full(&self, server: Handle, client: Handle) -> bool
        ensures { is_service self.now ≡ true
            → result ≡ is_server_full_at server client (handles_of self.now) }
    {
        match self {
            Topic::Unused(_) => false,
            Topic::Readers(_) => false,
            Topic::Served(service) => service.is_server_full(server, client),
        }
    }

    /// Whether a client's handle, if it is here, is owed as many messages of its server as its limit. It is asked of a server
    /// object.
    #[inline(always)]
    pub fn is_client_full(&self, client: Handle) -> bool
        ensures { is_service self.now ≡ true
            → result ≡ is_client_full_at client (handles_of self.now) }
    {
        match self {
            Topic::Unused(_) => false,
            Topic::Readers(_) => false,
            Topic::Served(service) => service.is_client_full(client),
        }
    }

    /// The first client, in rising number, that is owed as many messages of its server as its limit. It is asked of a server
    /// object, and looks at its handles alone.
    #[inline(always)]
    pub fn full_client(&self) -> Option<Handle>
        ensures { is_service self.now ≡ true → result ≡ full_client_in (handles_of self.now) }
    {
        match self {
            Topic::Unused(_) => None,
            Topic::Readers(_) => None,
            Topic::Served(service) => service.full_client(),
        }
    }

    /// The handles of the same target once more, without room.
    ///
    /// OutOfMemory is the only error.
    pub fn copy(&self) -> Result<Topic, Refusal>
        ensures same { IfOk result (λ copy. IsSameTarget self.now copy) }
        ensures handles { IfOk result (λ copy. handles_of copy ≡ handles_of self.now) }
        ensures kept { IfOk result (λ copy. kept_of copy ≡ kept_of self.now) }
        ensures err { IfErr result (λ r. r ≡ OutOfMemory) }
    {
        match self {
            Topic::Unused(unused) => Ok(Topic::Unused(unused.copy()?)),
            Topic::Readers(target) => {
                let alloc = *Box::allocator(target);
                Ok(Topic::Readers(Box::new(alloc, target.copy()?)?))
            }
            Topic::Served(service) => {
                let alloc = *Box::allocator(service);
                Ok(Topic::Served(Box::new(alloc, service.copy()?)?))
            }
        }
    }

    /// Whether both are of the same target and have the same handles, which are owed the same. It takes no memory.
    pub fn same(&self, other: &Topic) -> bool
        ensures { IsTrue result ↔ AreSame self.now other.now }
    {
        if self.is_empty() || other.is_empty() {
            return self.is_empty() && other.is_empty() && are_of_same(self, other);
        }
        match self {
            Topic::Unused(_) => false,
            Topic::Readers(target) => match other {
                Topic::Readers(readers) => target.same(readers),
                Topic::Unused(_) | Topic::Served(_) => false,
            },
            Topic::Served(service) => match other {
                Topic::Served(served) => service.same(served),
                Topic::Unused(_) | Topic::Readers(_) => false,
            },
        }
    }

    /// Whether both have the same handles, which are owed the same. It takes no memory.
    pub fn same_handles(&self, other: &Topic) -> bool
        ensures { IsTrue result ↔ (handles_of self.now ≡ handles_of other.now) }
    {
        self.handles_are_on_it();
        other.handles_are_on_it();
        self.handles_suit();
        other.handles_suit();
        if self.is_empty() {
            return other.is_empty();
        }
        self.same(other)
    }

    /// The object or directory that they are on.
    #[inline(always)]
    pub fn target(&self) -> Found
        ensures { result ≡ target_of self.now }
    {
        match self {
            Topic::Unused(unused) => unused.target.found(),
            Topic::Readers(target) => target.of(),
            Topic::Served(service) => Found::Object(service.object()),
        }
    }
}
