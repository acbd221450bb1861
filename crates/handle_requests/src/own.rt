//! The handles of a connection.
ghost use Rattle.std.specs.Prelude.{◌≡◌, option_map, IfSome};
ghost use Rattle.std.specs.Option.{option_copied};
ghost use Rattle.pps_types.specs.Reading as reading;
ghost use Rattle.sub_reader.specs.Opened.{number_of};
ghost use Rattle.handle_requests.specs.Own.{opened_as, asked_opened, own_opened};
ghost use Rattle.handle_requests.specs.Asked.{IsAsked};

use pps_filter::Filter;
use pps_types::{Conn, Found, Handle, HandleKind};
use service_state::Tables;
use sub_reader::{Glance, Opening, is_directory_kind, number_of};
use topics::Topic;

/// An open handle of a connection: the object or the directory that it is on, and what its open fixed.
#[derive(Drop)]
pub struct Own<'a> {
    found: Found,
    opening: &'a Opening,
}

impl<'a> Own<'a> {
    /// The object or the directory that it is on.
    #[inline(always)]
    pub fn found(&self) -> Found
        ensures { result ≡ self.now.found }
    {
        self.found
    }

    /// What its open fixed.
    #[inline(always)]
    pub fn opening(&self) -> &'a Opening
        ensures { result.now ≡ self.now.opening.now }
    {
        self.opening
    }

    /// The number of the object or the directory that it is on.
    #[inline(always)]
    pub fn target(&self) -> u64
        ensures { result ≡ number_of self.now.found }
    {
        number_of(self.found)
    }

    /// Whether it reads a directory.
    #[inline(always)]
    pub fn is_on_directory(&self) -> bool
        ensures { result ≡ reading.is_directory_kind self.now.opening.now.kind }
    {
        is_directory_kind(self.opening.kind)
    }

    /// Which lines it is given. Without it, all.
    #[inline(always)]
    pub fn filter(&self) -> Option<&'a Filter>
        ensures { option_copied result ≡ self.now.opening.now.options.filter }
    {
        self.opening.options.filter.as_ref()
    }

    /// What kind of handle it is.
    #[inline(always)]
    pub fn kind(&self) -> HandleKind
        ensures { result ≡ self.now.opening.now.kind }
    {
        self.opening.kind
    }

    /// Whether it is open for reading.
    #[inline(always)]
    pub fn reads(&self) -> bool
        ensures { result ≡ self.now.opening.now.reads }
    {
        self.opening.reads
    }

    /// Whether it is open for writing.
    #[inline(always)]
    pub fn writes(&self) -> bool
        ensures { result ≡ self.now.opening.now.writes }
    {
        self.opening.writes
    }

    /// Whether a read that finds nothing new waits.
    #[inline(always)]
    pub fn waits(&self) -> bool
        ensures { result ≡ self.now.opening.now.options.wait }
    {
        self.opening.options.wait
    }

    /// How many records it may be owed in delta mode.
    #[inline(always)]
    pub fn limit(&self) -> u32
        ensures { result ≡ self.now.opening.now.limit }
    {
        self.opening.limit
    }
}

/// The open handle of that number, where it is the connection's. It takes no memory.
#[inline(always)]
pub fn own_handle(tables: &Tables, conn: Conn, handle: Handle) -> Option<Own<'_>>
    ensures { option_map (opened_as tables.now) result ≡ own_opened tables.now conn handle }
{
    let handles = tables.handles();
    handles.handles_are_placed();
    let Some(opened) = handles.opening(handle) else {
        return None;
    };
    if opened.opening.connection != conn {
        return None;
    }
    Some(Own {
        found: opened.found,
        opening: opened.opening,
    })
}

/// An open handle of a connection, and what was seen of it at one look: the handles on what it is on, and what stands of
/// the handle itself.
#[derive(Drop)]
pub(crate) struct SeenHandle<'a> {
    pub(crate) own: Own<'a>,
    pub(crate) topic: &'a Topic,
    pub(crate) glance: Glance<'a>,
}

/// The open handle of that number, where it is the connection's, with all that is asked of it. It takes no memory.
#[inline(always)]
pub(crate) fn own_asked(tables: &Tables, conn: Conn, handle: Handle) -> Option<SeenHandle<'_>>
    ensures own { asked_opened tables.now result ≡ own_opened tables.now conn handle }
    ensures known { IfSome result (IsAsked tables.now conn handle) }
{
    let handles = tables.handles();
    handles.handles_are_placed();
    let Some(looked) = handles.look(handle) else {
        return None;
    };
    let opening = looked.glance.opening;
    if opening.connection != conn {
        return None;
    }
    Some(SeenHandle {
        own: Own {
            found: looked.found,
            opening,
        },
        topic: looked.topic,
        glance: looked.glance,
    })
}
