//! Objects as they will be.
ghost use Rattle.std.specs.Prelude.{◌≡◌, IfOk, IsOkUnless};
ghost use Rattle.pps_types.specs.History.{after_kind, persistent};
ghost use Rattle.pps_types.specs.Names.{refusal_of};
ghost use Rattle.pps_types.specs.Refused.{IsRefusedAs};
ghost use Rattle.object_state.specs.Limits.{after_lines, IsLimitRefusal};
ghost use Rattle.whole_texts.specs.After.{refused_after};

use object_state::Object;
use pps_types::{HeldLine, Kind, Refusal};
use std::alloc::Global;

// The attributes once these lines are applied.
fn after_lines(object: &Object, lines: &[HeldLine]) -> Result<Object, Refusal>
    ensures ok { IfOk result (λ o. o.attributes ≡ after_lines object.now.attributes lines.now) }
    ensures refusal { IsLimitRefusal (refusal_of result) object.now.attributes lines.now }
{
    let mut after = object.copy()?;
    after.apply(lines)?;
    Ok(after)
}

// The persistent attributes.
fn after_drop(object: &Object) -> Result<Object, Refusal>
    ensures ok { IfOk result (λ o. o.attributes ≡ persistent object.now.attributes) }
    ensures err { IsOkUnless result Refusal.OutOfMemory }
{
    let mut after = object.copy()?;
    after.drop_nonpersistent();
    Ok(after)
}

/// Another object, with the attributes that this one will have after a record of that kind: a late reply that gives
/// everything is printed from it, before anything changes.
///
/// It is TooLarge exactly where lines would bring the object past its limits. Else OutOfMemory is the only error.
pub fn after_record(alloc: Global, object: &Object, kind: &Kind) -> Result<Object, Refusal>
    ensures ok { IfOk result (λ o. o.attributes ≡ after_kind object.now.attributes kind.now) }
    ensures refusal { IsRefusedAs result (refused_after object.now.attributes kind.now) }
{
    match kind {
        Kind::Change(lines) => after_lines(object, lines.as_slice()),
        Kind::Dropped => after_drop(object),
        Kind::Created => Ok(Object::new(alloc)),
        Kind::Truncated => Ok(Object::new(alloc)),
        Kind::Deleted => Ok(Object::new(alloc)),
        _ => object.copy(),
    }
}
