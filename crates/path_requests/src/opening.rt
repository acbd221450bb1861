//! Open: its checks in their order, what it does, and the memory that it takes ahead.
ghost use Rattle.std.specs.Prelude.{◌≡◌, Ok, IfOk, IfErr, OnOk};
ghost use Rattle.pps_types.specs.declared.event.Request.TheVariants.{Open as OpenRequest};
ghost use Rattle.pps_types.specs.declared.refusal.Refusal.TheVariants.{OutOfMemory};
ghost use Rattle.pps_types.specs.OpenText as meant;
ghost use Rattle.pps_types.specs.WellFormed.{IsContent};
ghost use Rattle.service_state.specs.Tables.{content_in};
ghost use Rattle.service_state.specs.Refused.{AllPass, TakesMemory, Fails};
ghost use Rattle.path_requests.specs.Checks.{PassesForAnyone, TakesMemoryForAnyone, FailsForAnyone, open_checks_in};
ghost use Rattle.path_requests.specs.Done.{DoesOpen};
ghost use Rattle.path_requests.specs.Planned.{IsReady};
ghost use Rattle.path_requests.specs.Ways.{CanStep, IsWay, GoesWay, HasRecordsLeft, HasObjectsLeft};

use crate::checks::{check_open, letters_fit};
use crate::creating::creating;
use crate::new_handle::new_opening;
use crate::on_found::{on_found, on_told};
use crate::planned_open::Opens;
use crate::replacing::replacing;
use crate::ways::{Step, Way, check_numbers, way_of};
use open_options::{OpenSpec, read_open};
use pps_types::{Bytes, Conn, Handle, Mode, Refusal};
use service_laws::events_are_settled;
use service_state::Tables;
use std::alloc::Global;

// An open that no check refuses.
#[derive(Drop)]
struct Passed {
    spec: OpenSpec,
    number: Handle,
    way: Way,
}

// The checks of an open, all that it is refused for.
fn checked(tables: &Tables, alloc: Global, mode: Mode, text: &Bytes) -> Result<Passed, Refusal>
    requires { IsContent (content_in tables.now) }
    ensures spec { IfOk result (λ p. meant.open_text text.now ≡ Ok p.spec) }
    ensures number { IfOk result (λ p. p.number ≡ (content_in tables.now).next_handle) }
    ensures way { IfOk result (λ p. IsWay tables.now mode p.spec p.way) }
    ensures records { IfOk result (λ p. HasRecordsLeft tables.now p.way.step) }
    ensures objects { IfOk result (λ p. HasObjectsLeft tables.now p.way.step) }
    ensures passes { OnOk result (PassesForAnyone tables.now (OpenRequest mode text.now)) }
    ensures wants { OnOk result (TakesMemoryForAnyone tables.now (OpenRequest mode text.now)) }
    ensures err { IfErr result (λ r. FailsForAnyone tables.now (OpenRequest mode text.now) r) }
{
    events_are_settled();
    if !letters_fit(mode) {
        return Err(Refusal::BadMode);
    }
    let spec = read_open(alloc, text.as_slice())?;
    let asked = match check_open(tables, mode, &spec) {
        Err(refusal) => return Err(refusal),
        Ok(asked) => asked,
    };
    let number = asked.number;
    let way = way_of(tables, mode, &spec, asked);
    check_numbers(tables, &way.step)?;
    Ok(Passed { spec, number, way })
}

// What an open does, for which the memory is taken. What stands stays. OutOfMemory is the only error.
fn prepared(
    tables: &mut Tables,
    alloc: Global,
    conn: Conn,
    mode: Mode,
    passed: Passed,
) -> Result<Opens, Refusal>
    requires content { IsContent (content_in tables.old) }
    requires number { passed.number ≡ (content_in tables.old).next_handle }
    requires able { CanStep tables.old passed.spec passed.way.kind passed.way.step }
    requires records { HasRecordsLeft tables.old passed.way.step }
    requires objects { HasObjectsLeft tables.old passed.way.step }
    ensures content { content_in tables.new ≡ content_in tables.old }
    ensures moves { IfOk result (GoesWay conn mode passed.spec passed.way tables.old tables.new) }
    ensures ready { IfOk result (λ o. IsReady o tables.new) }
    ensures err { IfErr result (λ r. r ≡ OutOfMemory) }
{
    let Passed { spec, number, way } = passed;
    let Way { kind, step } = way;
    let nopersist = spec.nopersist();
    let is_served = spec.server();
    let (path, opening) = new_opening(tables, conn, mode, spec, kind, number);
    match step {
        Step::Stays(found) => on_found(tables, alloc, conn, found, opening),
        Step::Tells(object, told) => on_told(tables, alloc, conn, object, told, opening),
        Step::Creates(directory) => creating(
            tables, alloc, path, directory, nopersist, is_served, opening,
        ),
        Step::Replaces(object) => replacing(tables, alloc, object, nopersist, opening),
    }
}

/// What an open does, for which all memory is taken. What stands stays.
///
/// The first that holds is told: BadMode where the letters do not go together; BadPath and BadOption where the text is none of
/// an open; BadMode where the letters do not go with `.all` or `server`; NotFound or NotDirectory where the path leads to no
/// place; with `.all` NotFound where nothing is there, and NotDirectory where an object is; else NotFound where nothing is
/// there and `c` is not set, IsDirectory where a directory is, Busy where a server opens what has a handle or a server; and
/// TableFull where there are too many handles, too many objects for one more, or a last number would be passed. Behind the
/// letters it may be OutOfMemory.
pub fn open(
    tables: &mut Tables,
    alloc: Global,
    conn: Conn,
    mode: Mode,
    text: &Bytes,
) -> Result<Opens, Refusal>
    requires { IsContent (content_in tables.old) }
    ensures content { content_in tables.new ≡ content_in tables.old }
    ensures passes { OnOk result (AllPass (open_checks_in tables.old conn mode text.now)) }
    ensures wants { OnOk result (TakesMemory (open_checks_in tables.old conn mode text.now)) }
    ensures does { IfOk result (λ o. DoesOpen o conn mode text.now tables.old tables.new) }
    ensures ready { IfOk result (λ o. IsReady o tables.new) }
    ensures err { IfErr result (λ r. Fails (open_checks_in tables.old conn mode text.now) r) }
{
    let passed = checked(tables, alloc, mode, text)?;
    prepared(tables, alloc, conn, mode, passed)
}
