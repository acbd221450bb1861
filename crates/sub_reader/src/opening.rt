//! What an open fixes for a handle.
ghost use Rattle.std.specs.Prelude.{◌≡◌, ◌↔◌, IsTrue, IfOk, IsOkUnless};
ghost use Rattle.pps_types.specs.declared.refusal.Refusal.TheVariants.{OutOfMemory};
ghost use Rattle.sub_reader.specs.Opened.{HasSameHandle, HasSameUse};

use open_options::HandleOptions;
use pps_types::{Conn, Handle, HandleKind, Refusal};

/// What an open fixes for a handle, beside the object or directory that it is on.
#[derive(Drop)]
pub struct Opening {
    pub number: Handle,
    pub connection: Conn,
    pub kind: HandleKind,
    /// It is open for reading.
    pub reads: bool,
    /// It is open for writing.
    pub writes: bool,
    pub options: HandleOptions,
    /// How many records it may be owed in delta mode, which is our own.
    pub limit: u32,
}

// Whether the handles are the same, of the same kind and limit.
fn same_handle(one: &Opening, other: &Opening) -> bool
    ensures { IsTrue result ↔ HasSameHandle one.now other.now }
{
    one.number == other.number
        && one.connection == other.connection
        && one.kind == other.kind
        && one.limit == other.limit
}

// Whether they are open for the same: reading, writing or both.
fn same_use(one: &Opening, other: &Opening) -> bool
    ensures { IsTrue result ↔ HasSameUse one.now other.now }
{
    one.reads == other.reads && one.writes == other.writes
}

impl Opening {
    /// Whether both fix the same. It takes no memory.
    pub fn same(&self, other: &Opening) -> bool
        ensures { IsTrue result ↔ (self.now ≡ other.now) }
    {
        same_handle(self, other) && same_use(self, other) && self.options.same(&other.options)
    }

    /// The same once more.
    ///
    /// OutOfMemory is the only error, and comes only if there is a filter.
    pub fn copy(&self) -> Result<Opening, Refusal>
        ensures ok { IfOk result (λ copy. copy ≡ self.now) }
        ensures err { IsOkUnless result OutOfMemory }
    {
        let options = self.options.copy()?;
        Ok(Opening {
            number: self.number,
            connection: self.connection,
            kind: self.kind,
            reads: self.reads,
            writes: self.writes,
            options,
            limit: self.limit,
        })
    }
}

/// A pulse that is armed on a handle, as by `ionotify` of the QNX C library.
#[derive(Clone, Copy, Debug, PartialEq, Eq)]
pub struct Pulse {
    /// 0 to 127.
    pub code: u8,
    pub value: u32,
}
