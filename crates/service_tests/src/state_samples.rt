//! What tests of the tables are made from.
ghost use Rattle.std.specs.Prelude.{IfOk, OnOk};
ghost use Rattle.pps_types.specs.WellFormed.{IsContent};
ghost use Rattle.service_laws.specs.Bounds.{IsBound};
ghost use Rattle.service_state.specs.Tables.{content_in};

use pps_engine::{carry_out, plan};
use pps_types::{Bytes, Conn, Event, Found, Refusal, Request};
use service_laws::{bounds_stay, contents_stay};
use service_state::Tables;
use std::alloc::{AllocError, Global};

/// The path of one name.
pub(crate) fn path(alloc: Global, name: &[u8]) -> Result<Vec<Bytes>, AllocError> {
    let mut names = Vec::new(alloc);
    names.push(Bytes::from_slice(alloc, name)?)?;
    Ok(names)
}

/// What has that name.
pub(crate) fn find(alloc: Global, tables: &Tables, name: &[u8]) -> Result<Found, Refusal> {
    tables.names().find(&path(alloc, name)?)
}

/// The tables of a new service. That they are well formed is known here already, so that callers need no laws.
pub(crate) fn new_tables(alloc: Global) -> Result<Tables, Refusal>
    ensures formed { IfOk result (λ tables. IsContent (content_in tables)) }
    ensures bound { IfOk result (λ tables. IsBound (content_in tables)) }
{
    contents_stay();
    bounds_stay();
    Ok(Tables::new(alloc, 1, 256)?)
}

/// Carries out a request of connection 3.
pub(crate) fn ask(tables: &mut Tables, alloc: Global, request: Request) -> Result<(), Refusal>
    requires formed { IsContent (content_in tables.old) }
    requires bound { IsBound (content_in tables.old) }
    ensures formed { OnOk result (IsContent (content_in tables.new)) }
    ensures bound { OnOk result (IsBound (content_in tables.new)) }
{
    contents_stay();
    bounds_stay();
    let event = Event {
        conn: Conn::new(3),
        request,
    };
    let planned = plan(tables, alloc, &event)?;
    carry_out(tables, planned.pending);
    Ok(())
}
