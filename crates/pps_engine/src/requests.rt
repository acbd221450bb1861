//! What a connection asks, each request by the crate that knows it.
ghost use Rattle.std.specs.Prelude.{◌≡◌, Some, IfOk, IfErr};
ghost use Rattle.pps_types.specs.declared.event.Request.TheVariants.{Detach, Open, Read, Write, Close, Unlink, Mkdir, List as ListRequest, Receive};
ghost use Rattle.pps_types.specs.WellFormed.{IsContent};
ghost use Rattle.service_laws.specs.Bounds.{IsBound};
ghost use Rattle.service_state.specs.Refused.{is_armed_in};
ghost use Rattle.service_state.specs.Tables.{content_in};
ghost use Rattle.handle_requests.specs.Notices.{notify_of};
ghost use Rattle.pps_engine.specs.Events.{Serves, IsRefusedIn};
ghost use Rattle.pps_engine.specs.EventTold.{number_opened};
ghost use Rattle.pps_engine.specs.Parts.{reading, noticing, receiving};

use crate::doing::Doing;
use crate::done::{Done, boxed};
use handle_requests::{Closing, Notified, ReadDone};
use path_requests::{Opens, Unlinked};
use pps_types::{Action, Bytes, Conn, Handle, Mode, Outcome, Refusal};
use service_laws::events_are_settled;
use service_state::{Tables, numbers_are_within};
use std::alloc::Global;
use sub_reader::Pulse;

/// A connection leaves.
pub(crate) fn detach(tables: &mut Tables, alloc: Global, conn: Conn) -> Result<Done, Refusal>
    requires { IsContent (content_in tables.old) }
    ensures content { content_in tables.new ≡ content_in tables.old }
    ensures ok { IfOk result (Serves tables.old conn Detach tables.new) }
    ensures err { IfErr result (IsRefusedIn tables.old conn Detach) }
{
    let beginning = handle_requests::detach(tables, alloc, conn)?;
    Ok(Done {
        reply: Outcome::Done,
        doing: Doing::Leaves { beginning, conn },
    })
}

/// A handle closes.
pub(crate) fn close(
    tables: &mut Tables,
    alloc: Global,
    conn: Conn,
    handle: Handle,
) -> Result<Done, Refusal>
    requires { IsContent (content_in tables.old) }
    ensures content { content_in tables.new ≡ content_in tables.old }
    ensures ok { IfOk result (Serves tables.old conn (Close handle) tables.new) }
    ensures err { IfErr result (IsRefusedIn tables.old conn (Close handle)) }
{
    let doing = match handle_requests::close(tables, alloc, conn, handle)? {
        Closing::Alone { is_parked } => Doing::Closes {
            conn,
            handle,
            is_parked,
        },
        Closing::Telling(beginning) => Doing::Begins(beginning),
    };
    Ok(Done {
        reply: Outcome::Done,
        doing,
    })
}

// The number of the handle that opens.
fn handle_opened(opens: &Opens) -> Handle
    ensures { result ≡ number_opened opens.now }
{
    match opens {
        Opens::OnFound { opening, .. } => opening.number,
        Opens::Creating { opening, .. } => opening.number,
        Opens::Replacing { opening, .. } => opening.number,
    }
}

/// A handle opens, with the next number.
pub(crate) fn open(
    tables: &mut Tables,
    alloc: Global,
    conn: Conn,
    mode: Mode,
    text: &Bytes,
) -> Result<Done, Refusal>
    requires { IsContent (content_in tables.old) }
    ensures content { content_in tables.new ≡ content_in tables.old }
    ensures ok { IfOk result (Serves tables.old conn (Open mode text.now) tables.new) }
    ensures err { IfErr result (IsRefusedIn tables.old conn (Open mode text.now)) }
{
    let opens = path_requests::open(tables, alloc, conn, mode, text)?;
    let reply = Outcome::Opened(handle_opened(&opens));
    Ok(Done {
        reply,
        doing: Doing::Opens(boxed(alloc, opens)?),
    })
}

/// What a read answers, and what it leaves of its handle.
#[inline(always)]
pub(crate) fn ask_read(
    tables: &mut Tables,
    alloc: Global,
    conn: Conn,
    handle: Handle,
    size: u32,
) -> Result<ReadDone, Refusal>
    requires content { IsContent (content_in tables.old) }
    requires bound { IsBound (content_in tables.old) }
    ensures content { content_in tables.new ≡ content_in tables.old }
    ensures ok { IfOk result (λ d. Serves tables.old conn (Read handle size) tables.new
        (reading conn handle d)) }
    ensures err { IfErr result (IsRefusedIn tables.old conn (Read handle size)) }
{
    events_are_settled();
    numbers_are_within(tables);
    handle_requests::read(tables, alloc, conn, handle, size)
}

/// A handle is read.
pub(crate) fn read(
    tables: &mut Tables,
    alloc: Global,
    conn: Conn,
    handle: Handle,
    size: u32,
) -> Result<Done, Refusal>
    requires content { IsContent (content_in tables.old) }
    requires bound { IsBound (content_in tables.old) }
    ensures content { content_in tables.new ≡ content_in tables.old }
    ensures ok { IfOk result (Serves tables.old conn (Read handle size) tables.new) }
    ensures err { IfErr result (IsRefusedIn tables.old conn (Read handle size)) }
{
    let ReadDone { reply, effect } = ask_read(tables, alloc, conn, handle, size)?;
    Ok(Done {
        reply,
        doing: Doing::Reads {
            conn,
            handle,
            effect,
        },
    })
}

/// A handle is written to.
#[inline(always)]
pub(crate) fn write(
    tables: &mut Tables,
    alloc: Global,
    conn: Conn,
    handle: Handle,
    bytes: &Bytes,
) -> Result<Done, Refusal>
    requires content { IsContent (content_in tables.old) }
    requires bound { IsBound (content_in tables.old) }
    ensures content { content_in tables.new ≡ content_in tables.old }
    ensures ok { IfOk result (Serves tables.old conn (Write handle bytes.now) tables.new) }
    ensures err { IfErr result (IsRefusedIn tables.old conn (Write handle bytes.now)) }
{
    let beginning = handle_requests::write(tables, alloc, conn, handle, bytes)?;
    let doing = match beginning {
        None => Doing::Nothing,
        Some(beginning) => Doing::BeginsWith(beginning),
    };
    Ok(Done {
        reply: Outcome::Wrote(bytes.len() as u32),
        doing,
    })
}

/// What a path names is deleted.
pub(crate) fn unlink(
    tables: &mut Tables,
    alloc: Global,
    conn: Conn,
    path: &Bytes,
) -> Result<Done, Refusal>
    requires { IsContent (content_in tables.old) }
    ensures content { content_in tables.new ≡ content_in tables.old }
    ensures ok { IfOk result (Serves tables.old conn (Unlink path.now) tables.new) }
    ensures err { IfErr result (IsRefusedIn tables.old conn (Unlink path.now)) }
{
    let doing = match path_requests::unlink(tables, alloc, conn, path)? {
        Unlinked::Object(beginning) => Doing::Begins(beginning),
        Unlinked::Directory(directory) => Doing::Removes(directory),
    };
    Ok(Done {
        reply: Outcome::Done,
        doing,
    })
}

/// A directory is made.
pub(crate) fn make_directory(
    tables: &mut Tables,
    alloc: Global,
    conn: Conn,
    path: &Bytes,
) -> Result<Done, Refusal>
    requires { IsContent (content_in tables.old) }
    ensures content { content_in tables.new ≡ content_in tables.old }
    ensures ok { IfOk result (Serves tables.old conn (Mkdir path.now) tables.new) }
    ensures err { IfErr result (IsRefusedIn tables.old conn (Mkdir path.now)) }
{
    let names = path_requests::make_directory(tables, alloc, conn, path)?;
    Ok(Done {
        reply: Outcome::Done,
        doing: Doing::Makes(names),
    })
}

/// A directory's members are listed.
pub(crate) fn list(
    tables: &Tables,
    alloc: Global,
    conn: Conn,
    path: &Bytes,
) -> Result<Done, Refusal>
    requires { IsContent (content_in tables.now) }
    ensures ok { IfOk result (Serves tables.now conn (ListRequest path.now) tables.now) }
    ensures err { IfErr result (IsRefusedIn tables.now conn (ListRequest path.now)) }
{
    events_are_settled();
    numbers_are_within(tables);
    let reply = path_requests::list(tables, alloc, conn, path)?;
    Ok(Done {
        reply,
        doing: Doing::Nothing,
    })
}

/// What a Notify answers, and what it arms.
#[inline(always)]
pub(crate) fn ask_notify(
    tables: &mut Tables,
    conn: Conn,
    handle: Handle,
    action: Action,
    pulse: Pulse,
) -> Result<Notified, Refusal>
    requires { IsContent (content_in tables.old) }
    ensures content { content_in tables.new ≡ content_in tables.old }
    ensures ok { IfOk result (λ n. Serves tables.old conn (notify_of handle action pulse) tables.new
        (noticing conn handle n)) }
    ensures armed { IfOk result (λ n. is_armed_in tables.old conn handle ≡ Some n.was_armed) }
    ensures err { IfErr result (IsRefusedIn tables.old conn (notify_of handle action pulse)) }
{
    events_are_settled();
    numbers_are_within(tables);
    handle_requests::notify(tables, conn, handle, action, pulse)
}

/// A handle is asked for notices.
pub(crate) fn notify(
    tables: &mut Tables,
    conn: Conn,
    handle: Handle,
    action: Action,
    pulse: Pulse,
) -> Result<Done, Refusal>
    requires { IsContent (content_in tables.old) }
    ensures content { content_in tables.new ≡ content_in tables.old }
    ensures ok { IfOk result (Serves tables.old conn (notify_of handle action pulse) tables.new) }
    ensures err { IfErr result (IsRefusedIn tables.old conn (notify_of handle action pulse)) }
{
    let Notified { news, pulse, .. } = ask_notify(tables, conn, handle, action, pulse)?;
    Ok(Done {
        reply: Outcome::Input(news),
        doing: Doing::Arms {
            conn,
            handle,
            pulse,
        },
    })
}

/// What a Receive answers: what is queued first for a connection, or that nothing is.
#[inline(always)]
pub(crate) fn ask_receive(tables: &Tables, conn: Conn) -> Result<Outcome, Refusal>
    ensures ok { IfOk result (λ reply. Serves tables.now conn Receive tables.now
        (receiving conn reply)) }
    ensures err { IfErr result (IsRefusedIn tables.now conn Receive) }
{
    events_are_settled();
    numbers_are_within(tables);
    handle_requests::receive(tables, conn)
}

/// What is queued first for a connection is received.
pub(crate) fn receive(tables: &Tables, conn: Conn) -> Result<Done, Refusal>
    ensures ok { IfOk result (Serves tables.now conn Receive tables.now) }
    ensures err { IfErr result (IsRefusedIn tables.now conn Receive) }
{
    let reply = ask_receive(tables, conn)?;
    let doing = match &reply {
        Outcome::Item(_) => Doing::Takes(conn),
        _ => Doing::Nothing,
    };
    Ok(Done { reply, doing })
}
