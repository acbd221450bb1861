//! An event that is planned, and how it is carried out.
ghost use Rattle.std.specs.Prelude.{◌≡◌, IfOk, IfErr};
ghost use Rattle.pps_types.specs.WellFormed.{IsContent};
ghost use Rattle.service_laws.specs.Bounds.{IsBound};
ghost use Rattle.service_state.specs.Tables.{content_in};
ghost use Rattle.service_state.specs.Tied.{Moves};
ghost use Rattle.pps_engine.specs.Events.{moves_pending, CanCarry, IsPlanned, Refuses};

use crate::asking::answer;
use crate::doing::{self, Doing};
use crate::done::Done;
use crate::settled::settled;
use pps_types::{Event, Outcome, Refusal};
use service_state::Tables;
use std::alloc::Global;
use whole_texts::Following;

/// What an event does, and what follows from it.
#[derive(Drop)]
pub struct Pending {
    pub(crate) doing: Doing,
    pub(crate) following: Vec<Following>,
}

/// What an event answers, and what is pending for it.
#[derive(Drop)]
pub struct Planned {
    pub reply: Outcome,
    pub pending: Pending,
}

/// What an event answers, and all that it does, for which the memory is taken; or why it is refused. What stands stays.
///
/// It is refused by the first check that fails, and it is OutOfMemory only where memory is wanting that the event may want.
#[inline(always)]
pub fn plan(tables: &mut Tables, alloc: Global, event: &Event) -> Result<Planned, Refusal>
    requires content { IsContent (content_in tables.old) }
    requires bound { IsBound (content_in tables.old) }
    ensures content { content_in tables.new ≡ content_in tables.old }
    ensures plans { IfOk result (λ p. IsPlanned (content_in tables.old) event.now p tables.new) }
    ensures ready { IfOk result (λ p. CanCarry p.pending tables.new) }
    ensures refuses { IfErr result (λ r. Refuses (content_in tables.old) event.now r) }
{
    let Done { reply, doing } = answer(tables, alloc, event)?;
    let following = settled(tables, alloc, &doing)?;
    Ok(Planned {
        reply,
        pending: Pending { doing, following },
    })
}

/// Carries out an event that is planned. It takes no memory and cannot fail.
#[inline(always)]
pub fn carry_out(tables: &mut Tables, pending: Pending)
    requires { CanCarry pending tables.old }
    ensures { Moves (moves_pending pending tables.old) tables.old tables.new }
{
    let Pending { doing, following } = pending;
    doing::carry_out(tables, doing);
    tables.follow_all(following);
}
