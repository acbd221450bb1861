//! What an event does, and how it is carried out.
ghost use Rattle.std.specs.Prelude.{◌≡◌, ◌∷◌, [], ◌++◌, false, Some};
ghost use Rattle.pps_types.specs.Plan as planning;
ghost use Rattle.sub_reader.specs.Opened.{armed_pulse};
ghost use Rattle.whole_texts.specs.Answered as reads;
ghost use Rattle.service_state.specs.Refused.{is_armed_in};
ghost use Rattle.service_state.specs.Tied.{Moves};
ghost use Rattle.pps_engine.specs.Doing.{moves_in, CanDo, CanRead, CanNotice};

use notify_box::Outbox;
use path_requests::Opens;
use pps_types::{Bytes, Conn, DirId, Handle};
use service_state::{Beginning, Tables};
use sub_reader::Pulse;
use whole_texts::Effect;

/// What an event does where no check refuses it.
#[derive(Drop)]
pub(crate) enum Doing {
    /// Nothing changes.
    Nothing,
    /// Handles close, and records are told.
    Begins(Vec<Beginning>),
    /// The same, of one handle or one record, which needs no list.
    BeginsWith(Beginning),
    /// The same, and the connection leaves.
    Leaves {
        beginning: Vec<Beginning>,
        conn: Conn,
    },
    /// A handle opens. The box keeps what other events do small.
    Opens(Box<Opens>),
    /// A connection attaches, with an outbox that is empty.
    Attaches {
        conn: Conn,
        outbox: Box<Outbox>,
    },
    /// A handle closes, and nobody is told. A read waits on it, or not.
    Closes {
        conn: Conn,
        handle: Handle,
        is_parked: bool,
    },
    /// A handle has read.
    Reads {
        conn: Conn,
        handle: Handle,
        effect: Effect,
    },
    /// A pulse is armed on a handle, or none any more.
    Arms {
        conn: Conn,
        handle: Handle,
        pulse: Option<Pulse>,
    },
    /// A connection receives what is queued first for it.
    Takes(Conn),
    /// A directory is made.
    Makes(Vec<Bytes>),
    /// A directory is removed.
    Removes(DirId),
}

/// A handle has read.
#[inline(always)]
pub(crate) fn leave_read(tables: &mut Tables, conn: Conn, handle: Handle, effect: Effect)
    requires { CanRead conn handle effect tables.old }
    ensures { Moves (reads.moves_of handle effect) tables.old tables.new }
{
    match effect {
        Effect::CatchesUp => tables.catch_up(handle),
        Effect::Advances(count) => tables.pass(handle, count),
        Effect::Parks(size) => tables.park(conn, handle, size),
        Effect::Stays => {}
    }
}

/// A pulse is armed on a handle, or none any more. Where none is armed on it, none is looked for.
#[inline(always)]
pub(crate) fn set_pulse(
    tables: &mut Tables,
    conn: Conn,
    handle: Handle,
    pulse: Option<Pulse>,
    may_be_armed: bool,
)
    requires can { CanNotice conn handle pulse tables.old }
    requires unarmed { may_be_armed ≡ false → is_armed_in tables.old conn handle ≡ Some false }
    ensures { Moves (planning.Arms handle (armed_pulse pulse) ∷ []) tables.old tables.new }
{
    match pulse {
        Some(pulse) => tables.arm(conn, handle, pulse),
        None if may_be_armed => tables.disarm(conn, handle),
        None => tables.still_unarmed(conn, handle),
    }
}

// Handles close and records are told, and the connection leaves.
fn begin_and_leave(tables: &mut Tables, beginning: Vec<Beginning>, conn: Conn)
    requires { CanDo (Doing.Leaves beginning conn) tables.old }
    ensures { Moves (moves_in (Doing.Leaves beginning conn) tables.old) tables.old tables.new }
{
    tables.begin_all(beginning);
    tables.leave(conn);
}

/// Carries out what an event does, for which all memory was taken. It takes none and cannot fail.
#[inline(always)]
pub(crate) fn carry_out(tables: &mut Tables, doing: Doing)
    requires { CanDo doing tables.old }
    ensures { Moves (moves_in doing tables.old) tables.old tables.new }
{
    match doing {
        Doing::Nothing => {}
        Doing::Begins(beginning) => tables.begin_all(beginning),
        Doing::BeginsWith(beginning) => tables.begin(beginning),
        Doing::Leaves { beginning, conn } => begin_and_leave(tables, beginning, conn),
        Doing::Opens(opens) => path_requests::carry_out(tables, Box::into_inner(opens)),
        Doing::Attaches { conn, outbox } => tables.attach(conn, Box::into_inner(outbox)),
        Doing::Closes {
            conn,
            handle,
            is_parked,
        } => tables.close(conn, handle, is_parked),
        Doing::Reads {
            conn,
            handle,
            effect,
        } => leave_read(tables, conn, handle, effect),
        Doing::Arms {
            conn,
            handle,
            pulse,
        } => set_pulse(tables, conn, handle, pulse, true),
        Doing::Takes(conn) => tables.take(conn),
        Doing::Makes(path) => tables.make_directory(path),
        Doing::Removes(directory) => tables.remove_directory(directory),
    }
}
