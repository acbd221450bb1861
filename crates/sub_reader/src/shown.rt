//! What a handle is given of a record, before it is put into an answer.
ghost use Rattle.std.specs.Prelude.{◌≡◌, ◌+◌, ◌<◌, ◌^◌, IfOk, IfErr, IfSome};
ghost use Rattle.sub_reader.specs.Turns.{turn_of, PutsRecord, RefusesRecord};
ghost use Rattle.sub_reader.specs.Lines.{takes_lines, TakesLines};

use crate::opening::Opening;
use crate::sight::{given_block, is_told_of};
use pps_types::{HandleKind, Refusal};
use server_queue::{Entry, Fitting, Shown};

// Whether a handle of that kind takes the lines of objects.
fn takes_lines(kind: HandleKind) -> bool
    ensures { result ≡ takes_lines kind }
{
    matches!(
        kind,
        HandleKind::Object { .. } | HandleKind::Directory { .. }
    )
}

// The lines of a record as they were printed, where a handle takes them as they are.
fn lines_for<'a>(opening: &Opening, entry: &'a Entry) -> Option<&'a [u8]>
    ensures { IfSome result (λ text. TakesLines opening.now entry.now text.now) }
{
    if opening.options.filter.is_some() || !takes_lines(opening.kind) {
        return None;
    }
    entry.text()
}

/// What a read made of a record.
#[derive(Clone, Copy, Debug, PartialEq, Eq)]
pub enum Turn {
    /// The handle is not given it.
    Hidden,
    /// Its block was put.
    Given,
    /// There is no room for its block: the run ends before it.
    Full,
}

fn turn_of(is_put: bool) -> Turn
    ensures { result ≡ turn_of is_put }
{
    if is_put { Turn::Given } else { Turn::Full }
}

/// Puts what a handle on the object or directory of that number is given of a record, if it is given it and there is room:
/// lines that are printed for all handles that have no filter, or a block. So many records may follow, with this one.
///
/// It is TooSmall, with the size, if it is the first block and does not fit, before any memory is taken; else OutOfMemory is
/// the only error, and comes only if there is room.
#[tactic(auto, using(crate::proofs::Printed::lines_are_seen))]
#[inline(always)]
pub fn put_record(
    run: &mut Fitting,
    target: u64,
    opening: &Opening,
    entry: &Entry,
    records: u64,
) -> Result<Turn, Refusal>
    requires { run.old.given.count + 1 < 2 ^ 64 }
    ensures ok { IfOk result (PutsRecord target opening.now entry.now run.old run.new) }
    ensures err { IfErr result (RefusesRecord target opening.now entry.now run.old) }
{
    if let Some(text) = lines_for(opening, entry) {
        if !is_told_of(target, opening, entry) {
            return Ok(Turn::Hidden);
        }
        let is_put = run.put_text(text, records)?;
        return Ok(turn_of(is_put));
    }
    let Some(block) = given_block(target, opening, entry) else {
        return Ok(Turn::Hidden);
    };
    let is_put = run.put(&Shown::Block(block), entry, records)?;
    Ok(turn_of(is_put))
}
