//! Attaching, and what is received.
ghost use Rattle.std.specs.Prelude.{◌≡◌, ◌≤◌, ◌<◌, ◌&&◌, nat_le, false, IfOk, IfErr, OnOk};
ghost use Rattle.std.specs.Option.{option_copied};
ghost use Rattle.pps_types.specs.declared.event.Request.TheVariants.{Receive};
ghost use Rattle.pps_types.specs.Content as content;
ghost use Rattle.pps_types.specs.Checks.{attach_checks};
ghost use Rattle.pps_types.specs.Outbox.{empty_outbox, first_of};
ghost use Rattle.service_state.specs.Tables.{content_in};
ghost use Rattle.service_state.specs.Refused.{AllPass, Fails, checks_in, effect_in};

use notify_box::{Outbox, connections_are_found};
use pps_types::limits::CONNECTION_MAX;
use pps_types::{Conn, Item, Outcome, Refusal};
use service_state::Tables;
use std::alloc::Global;

// Whether it is a number that a connection may have.
fn is_connection_number(conn: Conn) -> bool
    ensures { result ≡ (nat_le 1 conn && nat_le conn 1024) }
{
    1 <= conn.number() && conn.number() <= CONNECTION_MAX
}

/// An outbox for a connection that is to attach, with the memory for the connection. What stands stays.
///
/// It is BadArgument where the number is none of 1 to 1,024, and AlreadyAttached where such a connection is attached. Else
/// OutOfMemory is the only error.
pub fn attach(tables: &mut Tables, alloc: Global, conn: Conn) -> Result<Outbox, Refusal>
    ensures content { content_in tables.new ≡ content_in tables.old }
    ensures names { tables.new.names ≡ tables.old.names }
    ensures handles { tables.new.handles ≡ tables.old.handles }
    ensures passes { OnOk result (AllPass (attach_checks (content_in tables.old) conn)) }
    ensures low { OnOk result (1 ≤ conn) }
    ensures high { OnOk result (conn < 1025) }
    ensures absent { OnOk result (content.is_attached (content_in tables.old) conn ≡ false) }
    ensures empty { IfOk result (λ outbox. outbox.outbox ≡ empty_outbox) }
    ensures room { OnOk result (0 < tables.new.connections.room) }
    ensures err { IfErr result (λ r. Fails (attach_checks (content_in tables.old) conn) r) }
{
    if !is_connection_number(conn) {
        return Err(Refusal::BadArgument);
    }
    if tables.is_attached(conn) {
        return Err(Refusal::AlreadyAttached);
    }
    tables.attach_ready()?;
    Outbox::new(alloc)
}

// The item that is queued first for a connection.
fn first_item(tables: &Tables, conn: Conn) -> Option<&Item>
    ensures { option_copied result ≡ first_of (content.queue_of (content_in tables.now) conn) }
{
    connections_are_found();
    tables.are_tied();
    tables.connections().first(conn)
}

/// The item that was queued first for a connection, which stays where it is, or that there is none. Of an item without bytes
/// it takes no memory.
///
/// OutOfMemory is the only error, and comes only where the item has bytes.
#[inline(always)]
pub fn receive(tables: &Tables, conn: Conn) -> Result<Outcome, Refusal>
    ensures passes { AllPass (checks_in tables.now conn Receive) }
    ensures ok { IfOk result (λ outcome. outcome ≡ (effect_in tables.now conn Receive).0) }
    ensures err { IfErr result (λ r. Fails (checks_in tables.now conn Receive) r) }
{
    match first_item(tables, conn) {
        None => Ok(Outcome::Empty),
        Some(item) => match item.share() {
            Err(_) => Err(Refusal::OutOfMemory),
            Ok(item) => Ok(Outcome::Item(item)),
        },
    }
}
