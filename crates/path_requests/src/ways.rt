//! How an open leaves what stands at its path.
ghost use Rattle.std.specs.Prelude.{◌≡◌, true, false, Some, None, Ok, OnOk};
ghost use Rattle.pps_types.specs.declared.found.Found.TheVariants.{Object as FoundObject, Directory as FoundDirectory};
ghost use Rattle.pps_types.specs.Checks as checking;
ghost use Rattle.pps_types.specs.Names.{refusal_of};
ghost use Rattle.pps_types.specs.WellFormed.{IsContent};
ghost use Rattle.service_state.specs.Tables.{content_in};
ghost use Rattle.path_requests.specs.Asked.{IsAsked};
ghost use Rattle.path_requests.specs.FoundIn.{IsAboveIn, place_in};
ghost use Rattle.path_requests.specs.Ways.{IsWay, HasRecordsLeft, HasObjectsLeft, step_on, step_records, step_objects, step_refusal};

use crate::checks::{NumberedSpot, Spot, is_served};
use crate::new_handle::kind_opened;
use name_table::{parent, questions_are_told};
use open_options::OpenSpec;
use pps_types::{Bytes, DirId, Found, Handle, HandleKind, Kind, Mode, ObjId, Refusal};
use service_state::Tables;

/// What an open does to what stands at its path.
#[derive(Drop)]
pub(crate) enum Step {
    /// It stays.
    Stays(Found),
    /// An object is told a record of that kind.
    Tells(ObjId, Kind),
    /// An object is created in that directory.
    Creates(DirId),
    /// A server's object takes the object's place.
    Replaces(ObjId),
}

/// What an open does to what stands at its path, and the kind of its handle.
#[derive(Drop)]
pub(crate) struct Way {
    pub(crate) kind: HandleKind,
    pub(crate) step: Step,
}

/// The directory above a path where nothing stands, and something can.
pub fn directory_above(tables: &Tables, path: &[Bytes]) -> DirId
    requires content { IsContent (content_in tables.now) }
    requires place { place_in tables.now path.now ≡ Ok None }
    ensures { IsAboveIn tables.now result path.now }
{
    questions_are_told();
    let Ok(above) = tables.names().find(parent(path)) else {
        unreachable!();
    };
    match above {
        Found::Object(_) => unreachable!(),
        Found::Directory(directory) => directory,
    }
}

// What an open does to an object that is alive, a server's or a plain one.
fn step_on(mode: Mode, spec: &OpenSpec, object: ObjId, is_served: bool, number: Handle) -> Step
    ensures { result ≡ step_on mode spec.now object is_served number }
{
    if spec.server() {
        return Step::Replaces(object);
    }
    if is_served {
        return Step::Tells(object, Kind::Opened(number));
    }
    if mode.t {
        return Step::Tells(object, Kind::Truncated);
    }
    Step::Stays(Found::Object(object))
}

// How an open goes that is on an object.
fn way_on(tables: &Tables, mode: Mode, spec: &OpenSpec, object: ObjId, number: Handle) -> Way
    requires content { IsContent (content_in tables.now) }
    requires number { number ≡ (content_in tables.now).next_handle }
    requires all { spec.now.all ≡ false }
    requires place { place_in tables.now spec.now.names ≡ Ok (Some (FoundObject object)) }
    ensures { IsWay tables.now mode spec.now result }
{
    tables.are_tied();
    let is_served = is_served(tables, object);
    let kind = kind_opened(spec, is_served);
    let step = step_on(mode, spec, object, is_served, number);
    Way { kind, step }
}

// How an open goes that creates an object.
fn way_to_free(tables: &Tables, mode: Mode, spec: &OpenSpec) -> Way
    requires content { IsContent (content_in tables.now) }
    requires all { spec.now.all ≡ false }
    requires place { place_in tables.now spec.now.names ≡ Ok None }
    ensures { IsWay tables.now mode spec.now result }
{
    let kind = kind_opened(spec, false);
    let step = Step::Creates(directory_above(tables, spec.path().names()));
    Way { kind, step }
}

// How an open of `.all` goes.
fn way_on_all(tables: &Tables, mode: Mode, spec: &OpenSpec, directory: DirId) -> Way
    requires fits { checking.mode_fits mode spec.now ≡ true }
    requires all { spec.now.all ≡ true }
    requires place { place_in tables.now spec.now.names ≡ Ok (Some (FoundDirectory directory)) }
    ensures { IsWay tables.now mode spec.now result }
{
    tables.are_tied();
    let kind = kind_opened(spec, false);
    let step = Step::Stays(Found::Directory(directory));
    Way { kind, step }
}

/// How an open goes that no check refuses. It takes no memory.
pub(crate) fn way_of(tables: &Tables, mode: Mode, spec: &OpenSpec, asked: NumberedSpot) -> Way
    requires content { IsContent (content_in tables.now) }
    requires asked { IsAsked (content_in tables.now) mode spec.now asked }
    ensures { IsWay tables.now mode spec.now result }
{
    let NumberedSpot { number, spot } = asked;
    match spot {
        Spot::All(directory) => way_on_all(tables, mode, spec, directory),
        Spot::Alive(object) => way_on(tables, mode, spec, object, number),
        Spot::Free => way_to_free(tables, mode, spec),
    }
}

// How many records a step makes.
fn records_of(step: &Step) -> u64
    ensures { result ≡ step_records step.now }
{
    match step {
        Step::Stays(_) => 0,
        Step::Tells(..) | Step::Creates(_) => 1,
        Step::Replaces(_) => 2,
    }
}

// How many objects a step makes.
fn objects_of(step: &Step) -> u64
    ensures { result ≡ step_objects step.now }
{
    match step {
        Step::Stays(_) | Step::Tells(..) => 0,
        Step::Creates(_) | Step::Replaces(_) => 1,
    }
}

/// It is TableFull where the last number of a record or an object would be passed.
pub(crate) fn check_numbers(tables: &Tables, step: &Step) -> Result<(), Refusal>
    ensures refusal { refusal_of result ≡ step_refusal tables.now step.now }
    ensures records { OnOk result (HasRecordsLeft tables.now step.now) }
    ensures objects { OnOk result (HasObjectsLeft tables.now step.now) }
{
    let _directories = tables.names().next_directory();
    if tables.records() > u64::MAX - records_of(step) {
        return Err(Refusal::TableFull);
    }
    if tables.names().next_object() > u64::MAX - objects_of(step) {
        return Err(Refusal::TableFull);
    }
    Ok(())
}
